// The observer: document 01's run sheet (leaf 6; `ContinuityObserver` of the Rust's traffic.rs). The Rust's maps are
// columns here, lent by the caller and sorted by sequence, and so are the counts beside them. Each call judges the
// columns first (21); the crate `rows` then changes the row. specs/ defines what a call answers and leaves, and its
// contract is that one equation (`records`): answer, counts and every column at exit, on refusals too. The crates above
// have the calls for returns and for whole plans.
#![tactic(auto)]

ghost use Rattle.std.specs.Prelude.{◌≡◌};
ghost use Rattle.error.specs.Answer.{answered};
ghost use Rattle.rows.specs.Columns.{read_sheet, written_sheet, SameWritten};
ghost use Rattle.observer.specs.Counts.{one_error_indication};
ghost use Rattle.observer.specs.Judge.{well_formed};
ghost use Rattle.observer.specs.Sending.{record_sent};
ghost use Rattle.observer.specs.Claims.{PutBack, MalformedIs, FreshIsWell, CallsKeepWell, RestKept, SearchFinds};
ghost use Rattle.observer.specs.Claims.{FullOnlyWhenFull, FullAtRow2049, SentAgain, BelowHighestMarked};
ghost use Rattle.observer.specs.Arrivals.{ArrivalKept, ArrivalKeptForGood, FirstReturnArrives, ResendParts};
ghost use Rattle.observer.specs.Answer.{taken, after_arrival, lent, records};

use error::Refusal;
use rows::{Arrival, Sheet, WrittenSheet};

// What stands beside the columns. Fresh: all 0. The used count is last, and the counts are first in each answer: copies
// then go along the pairs of numbers that were stored, and no load waits for two stores.
#[repr(C)]
#[derive(Clone, Copy, Debug, PartialEq, Eq)]
pub struct ObserverCounts {
    // Returns of a sequence that had returned before.
    pub duplicate_packets: u64,
    // First returns of a sequence below one that had returned before.
    pub out_of_order_packets: u64,
    // Error Indications on the return path.
    pub gtpu_error_indications: u64,
    // Rows in use, from the front.
    pub used: usize,
}

impl ObserverCounts {
    // Counts a return by what became of it, and answers whether it was taken.
    pub fn returned(&mut self, arrival: Result<Arrival, Refusal>) -> Result<(), Refusal>
        ensures answer { answered result ≡ taken (answered arrival) }
        ensures counts { self.new ≡ after_arrival self.old (answered arrival) }
    {
        match arrival? {
            Arrival::InOrder => {}
            Arrival::OutOfOrder => {
                self.out_of_order_packets = counter::one_more(self.out_of_order_packets);
            }
            Arrival::Duplicate => {
                self.duplicate_packets = counter::one_more(self.duplicate_packets);
            }
        }
        Ok(())
    }

    // Counts an Error Indication whose elements were accepted.
    pub fn error_indicated(&mut self)
        ensures { self.new ≡ one_error_indication self.old }
    {
        self.gtpu_error_indications = counter::one_more(self.gtpu_error_indications);
    }
}

// Whether no call refuses the columns and counts by 21: the used rows fit, rise, have marks of 0 or 1, and have arrival
// time 0 where they have mark 0.
pub fn well_formed(sheet: Sheet, counts: ObserverCounts) -> bool
    ensures { result ≡ well_formed (lent (read_sheet sheet) counts) }
{
    let used = counts.used;
    used <= sheet.capacity()
        && columns::sequences_rise(sheet.sequences, used)
        && columns::returns_known(sheet.marks, sheet.arrival_timestamps, used)
}

// Records a packet as sent: a new row, or the new send time of the row that its sequence has. Refuses by 21, 22.
pub fn record_sent(
    sheet: &mut WrittenSheet,
    counts: &mut ObserverCounts,
    sequence: u64,
    send_timestamp_ns: u64,
) -> Result<(), Refusal>
    ensures same { SameWritten sheet.old sheet.new }
    ensures recorded { records (written_sheet sheet) counts result
        (λ o. record_sent o sequence send_timestamp_ns) }
{
    if !well_formed(sheet.read(), *counts) {
        return Err(Refusal::MalformedObserver);
    }
    counts.used = rows::enter(sheet, counts.used, sequence, send_timestamp_ns)?;
    Ok(())
}

// Carries what makes a sheet malformed: one of the four causes of 21, and nothing else.
pub fn what_is_malformed()
    ensures { MalformedIs }
{}

// Carries that 21 is never due on a sheet that was fresh and that only these calls have written since.
pub fn calls_keep_well_formed()
    ensures { PutBack × FreshIsWell × CallsKeepWell }
{}

// Carries which call writes an arrival time, that every other leaves it, and that a resend parts it from latency and
// send time.
pub fn arrival_is_kept()
    ensures { ArrivalKept × ArrivalKeptForGood × FirstReturnArrives × ResendParts }
{}

// Carries that no call writes past the rows that it leaves in use.
pub fn rest_is_kept()
    ensures { RestKept }
{}

// Carries that 22 is said exactly when no row is free (with columns of 2,048 entries or more, at row 2,049), and never
// of a sequence that is on the sheet.
pub fn full_at_row_2049()
    ensures { FullOnlyWhenFull × FullAtRow2049 × SentAgain }
{}

// Carries that the search finds a sequence exactly where a used row has it, and that both readings of "out of order"
// agree.
pub fn search_finds()
    ensures { SearchFinds × BelowHighestMarked }
{}
