// A list of T-PDUs that came back, taken in one call: 21 is judged, and then each is read and recorded. The Rust has no
// such call: after 21 it is the single calls in turn (specs/Received.antt). The call reads each T-PDU itself: no caller
// can pass in a number or a sequence in the reader's place.
#![tactic(auto)]

ghost use Rattle.std.specs.Prelude.{◌≡◌, true};
ghost use Rattle.error.specs.Answer.{answered};
ghost use Rattle.error.specs.Outcome.{outcome_number};
ghost use Rattle.rows.specs.Columns.{SameMarked, columns_marked, marked_sheet};
ghost use Rattle.observer.specs.Judge.{well_formed, after_reading};
ghost use Rattle.observer.specs.Returning.{record_return};
ghost use Rattle.observer.specs.Answer.{observer_of, records};
ghost use Rattle.received_tpdus.specs.Received.{record_received_tpdus, records_returns};
ghost use Rattle.received_tpdus.specs.Claims.{EndToEnd};

use error::Refusal;
use observer::ObserverCounts;
use rows::MarkedSheet;

// Records what a T-PDU read as, on a sheet that was judged.
fn record_read(
    sheet: &mut MarkedSheet,
    counts: &mut ObserverCounts,
    return_timestamp_ns: u64,
    read: Result<u64, Refusal>,
) -> Result<(), Refusal>
    requires { well_formed (observer_of (columns_marked sheet.old) counts.old) ≡ true }
    ensures same { SameMarked sheet.old sheet.new }
    ensures recorded { records (marked_sheet sheet) counts result
        (λ o. after_reading o (answered read) (record_return o return_timestamp_ns)) }
{
    counts.returned(rows::arrive(sheet, counts.used, return_timestamp_ns, read?))
}

// The number of an answer: 0, or the refusal's.
fn answer_number(answer: Result<(), Refusal>) -> u8
    ensures { result ≡ outcome_number (answered answer) }
{
    match answer {
        Ok(()) => 0,
        Err(refusal) => refusal.number(),
    }
}

// Records T-PDUs that came back: T-PDU k has the k-th length, lies behind those before it, and came at the k-th time.
// Each is taken or refused as `record_received_tpdu` would, and its number, 0 for none, is written to `numbers`;
// `returned` gets the sequence that it reads as, 0 beside a refusal of the reader. The list is as long as the shortest
// of these columns. Refuses the whole list by 21, and leaves these columns too.
pub fn record_received_tpdus(
    sheet: &mut MarkedSheet,
    counts: &mut ObserverCounts,
    return_timestamps: &[u64],
    lengths: &[usize],
    tpdus: &[u8],
    returned: &mut [u64],
    numbers: &mut [u8],
) -> Result<usize, Refusal>
    ensures same { SameMarked sheet.old sheet.new }
    ensures recorded { records_returns (marked_sheet sheet) counts result returned numbers
        (λ o. record_received_tpdus o return_timestamps.now lengths.now tpdus.now) }
{
    if !observer::well_formed(sheet.read(), *counts) {
        return Err(Refusal::MalformedObserver);
    }
    let returns = return_timestamps
        .len()
        .min(lengths.len())
        .min(returned.len())
        .min(numbers.len());
    let mut rest = tpdus;
    // By index: a zip of these four columns is no plainer.
    for i in 0..returns {
        let (tpdu, behind) = rest.split_at(lengths[i].min(rest.len()));
        let read = return_calls::read_sequence(tpdu);
        returned[i] = read.unwrap_or(0);
        numbers[i] = answer_number(record_read(sheet, counts, return_timestamps[i], read));
        rest = behind;
    }
    Ok(returns)
}

// Carries that T-PDUs which lie end to end are taken apart as they were.
pub fn taken_apart_as_they_were()
    ensures { EndToEnd }
{}
