// What became of the probes of a rehearsal, and the first Error Indication.
#![tactic(auto)]

ghost use Rattle.std.specs.Prelude.{◌≡◌, Some, MatchOption};

use error::Refusal;
use gtpu::RefusedTunnel;

// What became of a probe, from the best to the worst.
#[derive(Clone, Copy)]
pub enum Fate {
    Returned,
    Duplicate,
    OutOfOrder,
    // Nothing came back: what every probe starts with.
    Lost,
    ErrorIndication,
    // A return was refused.
    Refused(Refusal),
}

impl Fate {
    // Its place in the order, a refusal's by its number.
    fn rank(self) -> u16 {
        match self {
            Fate::Returned => 0,
            Fate::Duplicate => 1,
            Fate::OutOfOrder => 2,
            Fate::Lost => 3,
            Fate::ErrorIndication => 4,
            Fate::Refused(refusal) => 5 + u16::from(refusal.number()),
        }
    }

    // What became of a probe, after one more return of it: the first counts, and after it what is worse.
    fn after(self, later: Fate) -> Fate {
        match self {
            Fate::Lost => later,
            _ if self.rank() < later.rank() => later,
            _ => self,
        }
    }
}

// A refusal, and how often it came up.
#[derive(Clone, Copy)]
pub struct Tally {
    pub refusal: Refusal,
    pub times: u64,
}

// What is noted of the probes and of the refusals, each in the place of its number.
#[derive(Clone, Copy)]
pub struct Notes {
    fates: [Fate; 2048],
    pub refusals: [Option<Tally>; 64],
}

impl Notes {
    // Nothing came back.
    pub fn fresh() -> Self {
        Self {
            fates: [Fate::Lost; 2048],
            refusals: [None; 64],
        }
    }

    // What became of the first `count` probes, if there are so many.
    pub fn fates(&self, count: usize) -> &[Fate] {
        self.fates.get(..count).unwrap_or(&[])
    }

    // Notes what came back for the probe of a row, and counts a refusal.
    pub fn note(&mut self, row: usize, fate: Fate) {
        if row < self.fates.len() {
            self.fates[row] = self.fates[row].after(fate);
        }
        if let Fate::Refused(refusal) = fate {
            self.count(refusal);
        }
    }

    fn count(&mut self, refusal: Refusal) {
        let number = refusal.number() as usize;
        if number < self.refusals.len() {
            let times = self.refusals[number].map_or(0, |tally| tally.times);
            self.refusals[number] = Some(Tally {
                refusal,
                times: times.wrapping_add(1),
            });
        }
    }
}

// An Error Indication of a run that was accepted: the probe that it answers, and the tunnel that it names.
#[derive(Clone, Copy)]
pub struct FirstIndication {
    pub probe: u64,
    pub tunnel: RefusedTunnel,
}

// The first one, in the order of arrival, where one more came: a later one never takes its place.
pub fn keep_first(kept: Option<FirstIndication>, later: FirstIndication) -> Option<FirstIndication>
    ensures { MatchOption kept (result ≡ Some later) (λ first. result ≡ Some first) }
{
    kept.or(Some(later))
}
