// Interarrival jitter (document 02, job 2): RFC 3550, section 6.4.1, in the integer form of its appendix A.8, in
// nanoseconds. The Rust has none. What stands beside the counts of a run sheet changes here; which return comes first
// is the sheet's to say.
#![tactic(auto)]

ghost use Rattle.std.specs.Prelude.{◌≡◌, ◌≤◌};
ghost use Rattle.jitter.specs.Jitter.{largest_size, size_taken, stepped, after_first, after_later};
ghost use Rattle.jitter.specs.Jitter.{jitter_shown};
ghost use Rattle.jitter.specs.Claims.{DifferenceExact, IsRfc3550, StepFits, Bounded, Reached, FirstOfZero};

// The most that the size of a difference counts as.
pub const LARGEST_SIZE: u64 = 1 << 59;

// The state beside a run sheet. Fresh: both 0. Every value is taken.
#[repr(C)]
#[derive(Clone, Copy)]
pub struct JitterState {
    // 16 times the jitter.
    pub scaled_jitter_ns: u64,
    // The latency of the return that marked a row last.
    pub earlier_latency_ns: u64,
}

// The size of the difference of two latencies, as far as it counts.
#[tactic(auto, unfolding(crate::specs::Jitter::size_taken))]
fn size_taken(earlier: u64, later: u64) -> u64
    ensures { result ≡ size_taken earlier later }
{
    later.abs_diff(earlier).min(LARGEST_SIZE)
}

// The next state. (state + 8) / 16 is worked out in parts, and taken off first, so that no sum passes the top of a u64,
// whatever the state.
#[tactic(auto, unfolding(crate::specs::Jitter::stepped))]
fn step(state: u64, size: u64) -> u64
    requires { size ≤ largest_size }
    ensures { result ≡ stepped state size }
{
    let taken_off = state / 16 + (state % 16 + 8) / 16;
    state - taken_off + size
}

impl JitterState {
    // After a first return with this latency.
    pub fn after_first(self, latency_ns: u64) -> Self
        ensures { result ≡ after_first latency_ns self }
    {
        Self {
            earlier_latency_ns: latency_ns,
            ..self
        }
    }

    // After any later one.
    #[tactic(auto, using(crate::proofs::Steps::size_bounded))]
    pub fn after_later(self, latency_ns: u64) -> Self
        ensures { result ≡ after_later latency_ns self }
    {
        let size = size_taken(self.earlier_latency_ns, latency_ns);
        Self {
            scaled_jitter_ns: step(self.scaled_jitter_ns, size),
            earlier_latency_ns: latency_ns,
        }
    }

    // The jitter, as a report shows it.
    pub fn shown_ns(self) -> u64
        ensures { result ≡ jitter_shown self }
    {
        self.scaled_jitter_ns / 16
    }
}

// Carries that D is exact, at both ends of its range too, and that it is RFC 3550's.
pub fn difference_is_exact()
    ensures { DifferenceExact × IsRfc3550 }
{}

// Carries that the next state is a u64 for every state, and never passes 2^63 from fresh; and what is reached.
pub fn state_is_bounded()
    ensures { StepFits × Bounded × Reached × FirstOfZero }
{}
