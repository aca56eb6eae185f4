// When each probe comes back, as the scenario says: no clock and no chance in it. A probe that is not lost comes back
// once, or twice if it is duplicated.
#![tactic(auto)]

use scenario::Scenario;
use word_names::{Effect, Number};

// The row of a probe: probes are numbered from 1.
pub fn row(probe: u64) -> usize {
    probe.saturating_sub(1) as usize
}

// The probe of a return: returns are numbered from 0, two for each probe.
pub fn probe_of(number: u64) -> u64 {
    number / 2 + 1
}

// Whether a probe reaches the reflector under a TEID that no session has, and is answered by an Error Indication.
pub fn is_indicated(scenario: &Scenario, probe: u64) -> bool {
    scenario.does(Effect::ErrorIndication, probe) || scenario.does(Effect::CutIndication, probe)
}

// Whether the return with this number comes back. A probe of the plan that is not lost has a first return, and a second
// one if it is duplicated.
fn comes_back(scenario: &Scenario, number: u64) -> bool {
    let probe = probe_of(number);
    probe <= u64::from(scenario.number(Number::Count))
        && !scenario.does(Effect::Lose, probe)
        && (number % 2 == 0 || scenario.does(Effect::Duplicate, probe))
}

// The path of a scenario, for probes with these send times.
#[derive(Clone, Copy)]
pub struct Path<'a> {
    pub scenario: &'a Scenario,
    pub send_timestamps: &'a [u64],
}

impl Path<'_> {
    // The send time of a probe.
    pub fn send_time(self, probe: u64) -> u64 {
        self.send_timestamps.get(row(probe)).copied().unwrap_or(0)
    }

    // How long it takes there and back, in nanoseconds: up to the end of the loss the old path, then the new one.
    fn latency(self, probe: u64) -> u64 {
        let number = match self.scenario.window(Effect::Lose) {
            Some(loss) if loss.last < probe => Number::LatencyAfterUs,
            _ => Number::LatencyUs,
        };
        u64::from(self.scenario.number(number)) * 1_000
    }

    // When the path lets a probe go. It holds those of the window `reorder` until the last of them is sent; that one
    // goes first, and the others after it in reverse order, 1 ns apart.
    fn release_time(self, probe: u64) -> u64 {
        match self.scenario.window(Effect::Reorder) {
            Some(held) if held.has(probe) => {
                let last = held.last;
                self.send_time(last).wrapping_add(last.wrapping_sub(probe))
            }
            _ => self.send_time(probe),
        }
    }

    // When a probe comes back. One that is early comes back 1 ns before it is sent.
    fn return_time(self, probe: u64) -> u64 {
        if self.scenario.does(Effect::Early, probe) {
            return self.send_time(probe).wrapping_sub(1);
        }
        self.release_time(probe).wrapping_add(self.latency(probe))
    }

    // The key of a return, or 0 where it does not come back.
    fn key(self, number: u64) -> u64 {
        if !comes_back(self.scenario, number) {
            return 0;
        }
        return_order::key(self.return_time(probe_of(number)), number)
    }

    // The key of every return, 0 for those that do not come back.
    pub fn list_returns(self, keys: &mut [u64]) {
        for (number, key) in keys.iter_mut().enumerate() {
            *key = self.key(number as u64);
        }
    }
}
