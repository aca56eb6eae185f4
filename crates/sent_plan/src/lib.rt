// The packets of a plan recorded as sent, in one call. 21 is judged once, for all of them. The Rust has no such call:
// a plan is entered whole or not at all, and if it is entered, the result is that of the single calls of leaf 6, one
// after the other (specs/SendingPlan.antt).
#![tactic(auto)]

ghost use Rattle.std.specs.Prelude.{◌≡◌, true, ◌+◌, ◌≤◌, length, take};
ghost use Rattle.plan.specs.Plan.{top};
ghost use Rattle.columns.specs.Columns.{rising};
ghost use Rattle.columns.specs.Place.{place};
ghost use Rattle.rows.specs.Columns.{written_sheet, SameWritten};
ghost use Rattle.observer.specs.Answer.{records};
ghost use Rattle.sent_plan.specs.SendingPlan.{record_sent_plan};
ghost use Rattle.sent_plan.specs.PlanClaims.{AllOrNothing, PlanBeforeRoom};

use error::Refusal;
use observer::ObserverCounts;
use plan::TrafficPlan;
use rows::WrittenSheet;

// How many rows the packets of an accepted plan need. The rows rise, so those with a sequence of the plan stand
// together, from the place of the first up to the place of the sequence behind the last; these need none.
fn rows_needed(sequences: &[u64], used: usize, first: u64, count: u64) -> usize
    requires { (used ≤ length sequences.now) × (rising (take used sequences.now) ≡ true)
        × (count ≤ 2048) × (first + count ≤ top) }
    ensures { result + place (first + count) (take used sequences.now)
        ≡ count + place first (take used sequences.now) }
{
    let low = columns::find(sequences, used, first);
    let high = columns::find(sequences, used, first + count);
    (count as usize) + low - high
}

// Records the packets of a plan as sent, all or none, the first with this sequence. Refuses by 21, then as the
// generator judges the plan (16 to 20), then by 22.
pub fn record_sent_plan(
    sheet: &mut WrittenSheet,
    counts: &mut ObserverCounts,
    plan: TrafficPlan,
    next_sequence: u64,
) -> Result<(), Refusal>
    ensures same { SameWritten sheet.old sheet.new }
    ensures recorded { records (written_sheet sheet) counts result
        (λ o. record_sent_plan o plan next_sequence) }
{
    let lent = sheet.read();
    if !observer::well_formed(lent, *counts) {
        return Err(Refusal::MalformedObserver);
    }
    let interval = plan::judge_plan(plan, next_sequence).interval?;
    let needed = rows_needed(
        lent.sequences,
        counts.used,
        next_sequence,
        plan.packet_count,
    );
    if lent.capacity() - counts.used < needed {
        return Err(Refusal::ObserverFull);
    }
    for k in 0..plan.packet_count {
        // None is refused: the rows that they need are free.
        counts.used = rows::enter(
            sheet,
            counts.used,
            next_sequence + k,
            plan.first_send_timestamp_ns + k * interval,
        )
        .unwrap_or(counts.used);
    }
    Ok(())
}

// A plan is entered whole or not at all, and one that the generator refuses is refused so before 22 is looked at.
pub fn plan_all_or_nothing()
    ensures { AllOrNothing × PlanBeforeRoom }
{}
