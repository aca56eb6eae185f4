// Counts that saturate: the run sheet's (leaf 6) and the reflector's (leaf 9).
#![tactic(auto)]

ghost use Rattle.std.specs.Prelude.{◌≡◌};
ghost use Rattle.counter.specs.Counter.{one_more};

// One more, unless the count is at its top.
#[tactic(auto, unfolding(crate::specs::Counter::one_more))]
pub fn one_more(count: u64) -> u64
    ensures { result ≡ one_more count }
{
    count.saturating_add(1)
}
