// A plan, a budget and what the path does to the probes: the value of each word of a rehearsal that was given.
#![tactic(auto)]

use measurement::IpVersion;
use std::fmt;
use word_names::{Effect, Number, Word};

// The most probes that a plan may have.
const MOST_PROBES: u32 = 2048;

// How what is printed is laid out.
#[derive(Clone, Copy)]
pub enum Format {
    Text,
    Json,
    Csv,
    Log,
}

// Probes that follow each other, numbered from 1: the first and the last. Printed as `A`, or as `A..B`.
#[derive(Clone, Copy)]
pub struct Window {
    pub first: u64,
    pub last: u64,
}

impl Window {
    pub fn has(self, probe: u64) -> bool {
        self.first <= probe && probe <= self.last
    }
}

impl fmt::Display for Window {
    fn fmt<W: fmt::Write>(&self, f: &mut fmt::Formatter<W>) -> fmt::Result {
        write!(f, "{}", self.first)?;
        if self.first < self.last {
            write!(f, "..{}", self.last)?;
        }
        Ok(())
    }
}

// The least and the greatest number that a word takes.
#[derive(Clone, Copy)]
pub struct Limits {
    pub least: u32,
    pub greatest: u32,
}

impl Limits {
    pub fn of(number: Number) -> Self {
        let (least, greatest) = match number {
            Number::Count => (1, MOST_PROBES),
            Number::Rate => (1, 1_000_000_000),
            Number::MaxLost | Number::MaxRun => (0, MOST_PROBES),
            Number::MaxOutageMs | Number::LatencyUs | Number::LatencyAfterUs => (0, 10_000_000),
        };
        Self { least, greatest }
    }

    // The number, where it is within the limits.
    pub fn admit(self, n: u64) -> Option<u32> {
        let n = u32::try_from(n).ok()?;
        if self.least <= n && n <= self.greatest {
            Some(n)
        } else {
            None
        }
    }
}

// What was given; a path that nothing is said of does nothing but carry.
#[derive(Clone, Copy)]
pub struct Scenario {
    version: Option<IpVersion>,
    format: Option<Format>,
    numbers: [Option<u32>; 7],
    windows: [Option<Window>; 15],
}

impl Scenario {
    // Nothing is given.
    pub fn quiet() -> Self {
        Self {
            version: None,
            format: None,
            numbers: [None; 7],
            windows: [None; 15],
        }
    }

    // The cutover that is run without words: eight probes are lost while the path changes, and the new path does not
    // settle at once.
    pub fn default_cutover() -> Self {
        let mut scenario = Self::quiet();
        scenario.set_window(
            Effect::Lose,
            Window {
                first: 41,
                last: 48,
            },
        );
        scenario.set_window(
            Effect::Duplicate,
            Window {
                first: 49,
                last: 50,
            },
        );
        scenario.set_window(
            Effect::Reorder,
            Window {
                first: 53,
                last: 55,
            },
        );
        scenario.set_window(
            Effect::Damage,
            Window {
                first: 62,
                last: 62,
            },
        );
        scenario
    }

    pub fn is_given(&self, word: Word) -> bool {
        match word {
            Word::Ip => self.version.is_some(),
            Word::Format => self.format.is_some(),
            Word::Number(number) => self.numbers[number as usize].is_some(),
            Word::Path(effect) => self.window(effect).is_some(),
        }
    }

    pub fn version(&self) -> IpVersion {
        self.version.unwrap_or(IpVersion::V4)
    }

    pub fn format(&self) -> Format {
        self.format.unwrap_or(Format::Text)
    }

    pub fn number(&self, number: Number) -> u32 {
        self.numbers[number as usize].unwrap_or(match number {
            Number::Count => 100,
            Number::Rate => 100,
            Number::MaxLost => 10,
            Number::MaxRun => 8,
            Number::MaxOutageMs => 100,
            Number::LatencyUs => 1500,
            Number::LatencyAfterUs => 2100,
        })
    }

    pub fn window(&self, effect: Effect) -> Option<Window> {
        self.windows[effect as usize]
    }

    // Whether the path does this to the probe.
    pub fn does(&self, effect: Effect, probe: u64) -> bool {
        self.window(effect).is_some_and(|window| window.has(probe))
    }

    pub fn set_version(&mut self, version: IpVersion) {
        self.version = Some(version);
    }

    pub fn set_format(&mut self, format: Format) {
        self.format = Some(format);
    }

    pub fn set_number(&mut self, number: Number, n: u32) {
        self.numbers[number as usize] = Some(n);
    }

    pub fn set_window(&mut self, effect: Effect, window: Window) {
        self.windows[effect as usize] = Some(window);
    }
}
