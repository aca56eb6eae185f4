// The bytes and the value of a 16-bit big-endian field, and the value of a 32-bit one. Wider fields are defined and
// proved in specs/ and proofs/, over any width.
#![tactic(auto)]

ghost use Rattle.std.specs.Prelude.{◌≡◌, ◌+◌, ◌*◌, ◌/◌, ◌%◌, ◌^◌, ◌<◌};

// A byte as a number of 64 bits. For a byte read from a slice, a call asks less of the caller's proof than a cast.
pub fn wide(x: u8) -> u64
    ensures { (result ≡ x) × (result < 256) }
{
    u64::from(x)
}

// The word of two bytes, the high one first.
pub fn word(high: u8, low: u8) -> u16
    ensures { result ≡ high * 256 + low }
{
    u16::from_be_bytes([high, low])
}

// The high byte of a word.
pub fn high(x: u16) -> u8
    ensures { result ≡ x / 256 ^ 1 % 256 }
{
    let [high, _] = x.to_be_bytes();
    high
}

// The low byte of a word.
pub fn low(x: u16) -> u8
    ensures { result ≡ x / 256 ^ 0 % 256 }
{
    let [_, low] = x.to_be_bytes();
    low
}

// The value of four bytes, the highest first.
pub fn double_word(a: u8, b: u8, c: u8, d: u8) -> u32
    ensures { result ≡ a * 16777216 + b * 65536 + c * 256 + d }
{
    u32::from_be_bytes([a, b, c, d])
}
