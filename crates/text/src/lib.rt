// Text: numbers that are read, values that are printed in a form of their own, and the bytes of any reader.
#![tactic(auto)]

ghost use Rattle.std.specs.Prelude.{◌≤◌, length};

use std::fmt;
use std::io::Read;

// Larger than every limit: a number above it takes no more digits.
const LARGEST: u64 = 1_000_000_000_000;

// The number with one digit more.
fn with_digit(n: u64, digit: u8) -> Option<u64> {
    if n <= LARGEST && digit.is_ascii_digit() {
        Some(n * 10 + u64::from(digit - b'0'))
    } else {
        None
    }
}

// The number that decimal digits spell. std's `parse` also takes a sign, and every number of 64 bits.
pub fn number(digits: &[u8]) -> Option<u64> {
    if digits.is_empty() {
        return None;
    }
    digits.iter().try_fold(0, |n, digit| with_digit(n, *digit))
}

// Reads until the room is full, the input ends or a read fails, and answers how many bytes it has put at the front.
// std's `read_to_end` needs a heap.
pub fn read_full<R: Read>(input: &mut R, room: &mut [u8]) -> usize
    ensures { result ≤ length room.new }
{
    let mut n = 0;
    while n < room.len() {
        match input.read(&mut room[n..]) {
            Ok(more) if more > 0 => n += more,
            _ => break,
        }
    }
    n
}

// A word as it was given, up to `most` bytes, with ? for what does not print, so that it stays on its line.
#[derive(Clone, Copy)]
pub struct Given<'a> {
    pub word: &'a [u8],
    pub most: usize,
}

impl fmt::Display for Given<'_> {
    fn fmt<W: fmt::Write>(&self, f: &mut fmt::Formatter<W>) -> fmt::Result {
        for byte in self.word.iter().take(self.most) {
            match byte {
                b' '..=b'~' => f.write_char(char::from(*byte))?,
                _ => f.write_char('?')?,
            }
        }
        if self.most < self.word.len() {
            f.write_str("...")?;
        }
        Ok(())
    }
}

// Nanoseconds, printed as milliseconds with every digit.
#[derive(Clone, Copy)]
pub struct Nanoseconds(pub u64);

impl fmt::Display for Nanoseconds {
    fn fmt<W: fmt::Write>(&self, f: &mut fmt::Formatter<W>) -> fmt::Result {
        write!(f, "{}.{:06} ms", self.0 / 1_000_000, self.0 % 1_000_000)
    }
}

// A number, or another text where there is none.
#[derive(Clone, Copy)]
pub struct NumberOr(pub Option<u64>, pub &'static str);

impl fmt::Display for NumberOr {
    fn fmt<W: fmt::Write>(&self, f: &mut fmt::Formatter<W>) -> fmt::Result {
        match self.0 {
            Some(n) => write!(f, "{n}"),
            None => f.write_str(self.1),
        }
    }
}
