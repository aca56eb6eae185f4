// The words of a rehearsal, and their names.
#![tactic(auto)]

use std::fmt;

// The words with a number.
#[derive(Clone, Copy)]
pub enum Number {
    Count = 0,
    Rate = 1,
    MaxLost = 2,
    MaxRun = 3,
    MaxOutageMs = 4,
    LatencyUs = 5,
    LatencyAfterUs = 6,
}

// The words with a window: what the path does to the probes in it.
#[derive(Clone, Copy)]
pub enum Effect {
    Lose = 0,
    Duplicate = 1,
    Reorder = 2,
    Damage = 3,
    CutShort = 4,
    Empty = 5,
    BadVersion = 6,
    BadProtocol = 7,
    BadLength = 8,
    NoChecksum = 9,
    BadMagic = 10,
    NotSent = 11,
    Early = 12,
    ErrorIndication = 13,
    CutIndication = 14,
}

impl Number {
    const ALL: [Number; 7] = [
        Number::Count,
        Number::Rate,
        Number::MaxLost,
        Number::MaxRun,
        Number::MaxOutageMs,
        Number::LatencyUs,
        Number::LatencyAfterUs,
    ];
}

impl Effect {
    // In the order in which they are printed.
    pub const ALL: [Effect; 15] = [
        Effect::Lose,
        Effect::Duplicate,
        Effect::Reorder,
        Effect::Damage,
        Effect::CutShort,
        Effect::Empty,
        Effect::BadVersion,
        Effect::BadProtocol,
        Effect::BadLength,
        Effect::NoChecksum,
        Effect::BadMagic,
        Effect::NotSent,
        Effect::Early,
        Effect::ErrorIndication,
        Effect::CutIndication,
    ];
}

// A word.
#[derive(Clone, Copy)]
pub enum Word {
    Ip,
    Format,
    Number(Number),
    Path(Effect),
}

impl Word {
    // The word that has this name.
    pub fn named(name: &[u8]) -> Option<Word> {
        let numbers = Number::ALL.iter().copied().map(Word::Number);
        let effects = Effect::ALL.iter().copied().map(Word::Path);
        let mut words = [Word::Ip, Word::Format]
            .into_iter()
            .chain(numbers)
            .chain(effects);
        words.find(|word| word.name().as_bytes() == name)
    }

    fn name(self) -> &'static str {
        match self {
            Word::Ip => "ip",
            Word::Format => "format",
            Word::Number(number) => number.name(),
            Word::Path(effect) => effect.name(),
        }
    }
}

impl Number {
    fn name(self) -> &'static str {
        match self {
            Number::Count => "count",
            Number::Rate => "rate",
            Number::MaxLost => "max-lost",
            Number::MaxRun => "max-run",
            Number::MaxOutageMs => "max-outage-ms",
            Number::LatencyUs => "latency-us",
            Number::LatencyAfterUs => "latency-after-us",
        }
    }
}

impl Effect {
    fn name(self) -> &'static str {
        match self {
            Effect::Lose => "lose",
            Effect::Duplicate => "duplicate",
            Effect::Reorder => "reorder",
            Effect::Damage => "damage",
            Effect::CutShort => "cut-short",
            Effect::Empty => "empty",
            Effect::BadVersion => "bad-version",
            Effect::BadProtocol => "bad-protocol",
            Effect::BadLength => "bad-length",
            Effect::NoChecksum => "no-checksum",
            Effect::BadMagic => "bad-magic",
            Effect::NotSent => "not-sent",
            Effect::Early => "early",
            Effect::ErrorIndication => "error-indication",
            Effect::CutIndication => "cut-indication",
        }
    }
}

impl fmt::Display for Word {
    fn fmt<W: fmt::Write>(&self, f: &mut fmt::Formatter<W>) -> fmt::Result {
        f.write_str(self.name())
    }
}

impl fmt::Display for Effect {
    fn fmt<W: fmt::Write>(&self, f: &mut fmt::Formatter<W>) -> fmt::Result {
        f.write_str(self.name())
    }
}
