// The Internet checksum of RFC 1071 (leaf 2; `checksum` of the Rust's measurement.rs), for slices of every length. A
// message that `verify` accepts was not damaged within one span of 16 bits: the law that the probe rests on
// (specs/Claims.antt).
#![tactic(auto)]

ghost use Rattle.std.specs.Prelude.{◌≡◌, ℕ, ◌+◌, ◌^◌, ◌<◌, ◌≤◌, true, eqb, length};
ghost use Rattle.checksum.specs.Sum.{sum_of, fold_of, checksum_of};
ghost use Rattle.checksum.specs.Claims.{FoldedSum, SumInParts, PlacedVerifies, DamageFound, Undamaged, Clipped};
ghost use Rattle.checksum.specs.Claims.{DamageIs, Sharp, Examples};

// The carries of a sum folded into 16 bits: its halves of 32 bits are added, and then three times what stands above the
// low 16 bits. The last fold leaves no carry.
pub fn fold_u64(sum: u64) -> u16
    ensures { result ≡ fold_of sum }
{
    let halves = (sum & 0xffff_ffff) + (sum >> 32);
    let words = (halves & 0xffff) + (halves >> 16);
    let once = (words & 0xffff) + (words >> 16);
    let twice = (once & 0xffff) + (once >> 16);
    twice as u16
}

// The words of at most three bytes.
#[tactic(auto, using(crate::proofs::Sums::few_words))]
fn sum_last(bytes: &[u8]) -> u64
    requires { length bytes.now < 4 }
    ensures { (result ≡ sum_of bytes.now) × (result < 2 ^ 17) }
{
    match bytes {
        [] => 0,
        [a] => u64::from(field::word(*a, 0)),
        [a, b] => u64::from(field::word(*a, *b)),
        [a, b, c, ..] => u64::from(field::word(*a, *b)) + u64::from(field::word(*c, 0)),
    }
}

// A number that folds to the same as the sum of the words of at most seven bytes. Four bytes are added at once, as one
// number: it differs from the sum of its two words by a multiple of 65,535.
fn sum_tail(bytes: &[u8]) -> u64
    requires { length bytes.now < 8 }
    ensures { ((n : ℕ) → fold_of (n + result) ≡ fold_of (n + sum_of bytes.now)) × (result < 2 ^ 33) }
{
    match bytes {
        [a, b, c, d, last @ ..] => u64::from(field::double_word(*a, *b, *c, *d)) + sum_last(last),
        _ => sum_last(bytes),
    }
}

// The sum of a block, eight bytes a turn.
fn sum_block(bytes: &[u8]) -> u64
    requires { length bytes.now ≤ 65536 }
    ensures { (fold_of result ≡ fold_of (sum_of bytes.now)) × (result < 2 ^ 47) }
{
    let eights = bytes.chunks_exact(8);
    let tail = eights.remainder();
    let mut sum = 0;
    for eight in eights {
        let first = field::double_word(eight[0], eight[1], eight[2], eight[3]);
        let second = field::double_word(eight[4], eight[5], eight[6], eight[7]);
        sum += u64::from(first) + u64::from(second);
    }
    sum + sum_tail(tail)
}

// Blocks of 65,536 bytes, with the carries folded in after each.
fn sum_blocks(start: u16, bytes: &[u8]) -> u16
    ensures { result ≡ fold_of (start + sum_of bytes.now) }
{
    let mut sum = start;
    for block in bytes.chunks(65536) {
        sum = fold_u64(sum_block(block) + u64::from(sum));
    }
    sum
}

// The ones' complement sum of `start` and the words of `bytes`, which stand at an even offset of the whole message.
// Sums in parts go through `start`. A slice is sliced again (`&bytes[..]`) where it is passed on: the compiler then
// keeps it in registers instead of copying it in memory.
pub fn sum(start: u64, bytes: &[u8]) -> u16
    ensures { result ≡ fold_of (start + sum_of bytes.now) }
{
    if 65536 < bytes.len() {
        return sum_blocks(fold_u64(start), &bytes[..]);
    }
    let halves = (start & 0xffff_ffff) + (start >> 32);
    fold_u64(sum_block(&bytes[..]) + halves)
}

// The checksum of a message whose checksum field is 0.
pub fn checksum(bytes: &[u8]) -> u16
    ensures { result ≡ checksum_of bytes.now }
{
    65535 - sum(0, bytes)
}

// Whether a message that holds its checksum adds up to all ones; and if it does, it was not damaged.
pub fn verify(bytes: &[u8]) -> bool
    ensures says { result ≡ eqb (fold_of (sum_of bytes.now)) 65535 }
    ensures found { result ≡ true → Undamaged bytes.now }
{
    sum(0, bytes) == 65535
}

// What is proved of the definitions (specs/Claims.antt), on the contracts of functions that do nothing.

// Adding first and folding carries afterwards is RFC 1071's ones' complement sum; and two worked examples.
pub fn sum_is_that_of_rfc_1071()
    ensures { FoldedSum × Examples }
{}

// A sum may be taken in parts, carries folded between them.
pub fn sums_in_parts()
    ensures { SumInParts }
{}

// A checksum put in its place verifies.
pub fn placed_checksum_verifies()
    ensures { PlacedVerifies }
{}

// The damage law; and damage to a message is damage to each part of it, and to any message that it is a part of.
pub fn damage_is_found()
    ensures { DamageFound × Clipped }
{}

// What counts as damage; and the law is sharp: what it leaves out is not found.
pub fn what_counts_as_damage()
    ensures { DamageIs × Sharp }
{}
