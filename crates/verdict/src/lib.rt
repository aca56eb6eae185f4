// The verdict on a run, from its report, with the numbers that say why. A crew acts on it, so it has a contract
// (specs/Verdict.antt); printing it is left to its callers.
#![tactic(auto)]

ghost use Rattle.std.specs.Prelude.{◌≡◌};
ghost use Rattle.verdict.specs.Verdict.{verdict_of};
ghost use Rattle.verdict.specs.Claims.{PassesIfKept, ReasonsAreTrue};

use evidence::PacketContinuityReport;

// The verdict on a report. Beside a reason stand the number that was too large and the budget's, in this order.
#[derive(Clone, Copy, Debug, PartialEq, Eq)]
pub enum Verdict {
    Pass,
    NothingReturned,
    TooManyLost(u64, u64),
    TooManyInARow(u64, u64),
    OutageTooLong(u64, u64),
    ErrorIndicated(u64),
}

// A run passes where something returned and the budget was kept; otherwise the first reason counts, in the order of
// the budget.
#[tactic(auto, unfolding(crate::specs::Verdict::verdict_of, crate::specs::Verdict::either))]
pub fn judge(r: PacketContinuityReport) -> Verdict
    ensures { result ≡ verdict_of r }
{
    let budget = r.budget;
    if !r.forwarding_proven {
        return Verdict::NothingReturned;
    }
    if r.packet_continuity_proven {
        return Verdict::Pass;
    }
    if budget.max_lost_packets < r.lost_packets {
        return Verdict::TooManyLost(r.lost_packets, budget.max_lost_packets);
    }
    if budget.max_consecutive_lost_packets < r.max_consecutive_lost_packets {
        return Verdict::TooManyInARow(
            r.max_consecutive_lost_packets,
            budget.max_consecutive_lost_packets,
        );
    }
    if budget.outage_budget_ns < r.max_gap_duration_ns {
        return Verdict::OutageTooLong(r.max_gap_duration_ns, budget.outage_budget_ns);
    }
    Verdict::ErrorIndicated(r.gtpu_error_indications)
}

// Carries that a run passes exactly where something returned and the budget was kept, and that a reason is true.
pub fn passes_if_kept()
    ensures { PassesIfKept × ReasonsAreTrue }
{}
