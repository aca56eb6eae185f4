// Why words are not accepted, and the one line that is printed for it: at most 80 columns, with what stands around it.
#![tactic(auto)]

use scenario::{Limits, Window};
use std::fmt;
use text::Given;
use word_names::{Effect, Word};

// Where a reason holds bytes, they are a word or its value, as it was given.
#[derive(Clone, Copy)]
pub enum Rejection<'a> {
    NoWord,
    Unknown(&'a [u8]),
    GivenTwice(Word),
    BadValue(Word, &'a [u8]),
    BackwardWindow(&'a [u8]),
    WindowFromZero(&'a [u8]),
    WindowPastCount(Effect, Window, u32),
    NoLoss,
}

// What a word takes.
#[derive(Clone, Copy)]
struct Taken(Word);

impl fmt::Display for Taken {
    fn fmt<W: fmt::Write>(&self, f: &mut fmt::Formatter<W>) -> fmt::Result {
        match self.0 {
            Word::Ip => f.write_str("4 or 6"),
            Word::Format => f.write_str("text, json, csv or log"),
            Word::Number(number) => {
                let Limits { least, greatest } = Limits::of(number);
                write!(f, "{least} to {greatest}")
            }
            Word::Path(_) => f.write_str("A or A..B"),
        }
    }
}

// A window, or only its end if the whole would be too long for the line.
#[derive(Clone, Copy)]
struct Shortened(Window);

impl fmt::Display for Shortened {
    fn fmt<W: fmt::Write>(&self, f: &mut fmt::Formatter<W>) -> fmt::Result {
        let window = self.0;
        if window.first < window.last && 9_999_999 < window.last {
            return write!(f, "..{}", window.last);
        }
        write!(f, "{window}")
    }
}

fn whole(word: &[u8]) -> Given<'_> {
    Given { word, most: 32 }
}

impl fmt::Display for Rejection<'_> {
    fn fmt<W: fmt::Write>(&self, f: &mut fmt::Formatter<W>) -> fmt::Result {
        match *self {
            Rejection::NoWord => f.write_str("a word is empty"),
            Rejection::Unknown(word) => write!(f, "there is no word \"{}\"", whole(word)),
            Rejection::GivenTwice(word) => write!(f, "{word} is given twice"),
            Rejection::BadValue(word, value) => {
                let given = Given {
                    word: value,
                    most: 10,
                };
                write!(f, "{word} takes {}, not \"{given}\"", Taken(word))
            }
            Rejection::BackwardWindow(word) => {
                write!(f, "{} ends before it starts", whole(word))
            }
            Rejection::WindowFromZero(word) => {
                write!(f, "{}: the first probe is 1", whole(word))
            }
            Rejection::WindowPastCount(effect, window, count) => {
                write!(f, "{effect}={} goes past count={count}", Shortened(window))
            }
            Rejection::NoLoss => f.write_str("latency-after-us needs lose"),
        }
    }
}
