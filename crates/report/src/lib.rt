// The report on a run: document 01's leaf 7 (`ContinuityObserver::report` of the Rust's traffic.rs). One pass over the
// rows gathers the latencies, and one the runs of lost packets. What the report says is defined in specs/Report.antt.
#![tactic(auto)]

ghost use Rattle.std.specs.Prelude.{◌≡◌, ◌≤◌, ◌<◌, ◌*◌, ◌/◌, length};
ghost use Rattle.error.specs.Answer.{answered};
ghost use Rattle.evidence.specs.Latency.{latency_for};
ghost use Rattle.rows.specs.Columns.{read_sheet};
ghost use Rattle.observer.specs.Answer.{lent};
ghost use Rattle.report.specs.Report.{within_budget, reporting};
ghost use Rattle.report.specs.Claims.{LatencyOfTheRows};
ghost use Rattle.report.specs.Loops.{marked_of, Gathers, summary_of, longest_in, outage_in, AddsRun};

use error::Refusal;
use evidence::{LatencySummary, PacketContinuityBudget, PacketContinuityReport};
use observer::ObserverCounts;
use rows::Sheet;

// The latencies of the rows that returned: how many, the least, the greatest, and their sum. `least` is u64::MAX where
// there is none.
#[derive(Clone, Copy)]
struct Gathered {
    count: u64,
    least: u64,
    greatest: u64,
    sum: u128,
}

// A run of rows that did not return: how many, and when the first was sent.
#[derive(Clone, Copy)]
struct LostRun {
    packets: u64,
    since: u64,
}

// The longest run of rows that did not return, by count and by duration.
#[derive(Clone, Copy, Debug, PartialEq, Eq)]
pub struct LongestRuns {
    pub packets: u64,
    pub duration: u64,
}

impl LongestRuns {
    // The longest runs, with one more that ends at `until`, if there is one.
    fn with_run(self, run: Option<LostRun>, until: u64) -> Self
        ensures { AddsRun self run until result }
    {
        match run {
            None => self,
            Some(run) => Self {
                packets: self.packets.max(run.packets),
                duration: self.duration.max(until.saturating_sub(run.since)),
            },
        }
    }
}

// The latencies of the rows that are marked.
#[tactic(auto, using(crate::proofs::Latencies::least_min))]
fn gather(latencies: &[u64], marks: &[u8]) -> Gathered
    requires { (length latencies.now ≡ length marks.now) × (length latencies.now ≤ 2048) }
    ensures { Gathers (marked_of latencies.now marks.now) result }
{
    let mut gathered = Gathered {
        count: 0,
        least: u64::MAX,
        greatest: 0,
        sum: 0,
    };
    for (&latency, &mark) in latencies.iter().zip(marks) {
        if mark == 1 {
            gathered = Gathered {
                count: gathered.count + 1,
                least: gathered.least.min(latency),
                greatest: gathered.greatest.max(latency),
                sum: gathered.sum + latency as u128,
            };
        }
    }
    gathered
}

// A sum of n words divided by n, rounded down: long division with digits of 32 bits. The C interface needs it: with
// `sum / n` the archive asks for the compiler's division of 128 bits, and it may ask for no such function.
#[tactic(auto, using(crate::proofs::Division::mean_rules))]
fn mean(sum: u128, n: u64) -> u64
    requires { (sum < n * 18446744073709551616) × (n ≤ 2048) }
    ensures { result ≡ sum / n }
{
    let front = (sum / 4294967296) as u64;
    let back = front % n * 4294967296 + (sum % 4294967296) as u64;
    front / n * 4294967296 + back / n
}

// The summary of what was gathered, or none where nothing was.
fn summary(g: Gathered) -> Option<LatencySummary>
    requires { (g.count ≤ 2048) × (g.sum ≤ g.count * 18446744073709551615) }
    ensures { result ≡ latency_for (summary_of g.count g.least g.greatest g.sum) }
{
    if g.count == 0 {
        return None;
    }
    Some(LatencySummary {
        min_ns: g.least,
        max_ns: g.greatest,
        avg_ns: mean(g.sum, g.count),
    })
}

// The longest runs of unmarked rows.
fn longest_runs(send_timestamps: &[u64], marks: &[u8], end: u64) -> LongestRuns
    requires { length send_timestamps.now ≡ length marks.now }
    ensures packets { result.packets ≡ longest_in 0 marks.now }
    ensures duration { result.duration ≡ outage_in end 0 0 send_timestamps.now marks.now }
{
    let mut longest = LongestRuns {
        packets: 0,
        duration: 0,
    };
    let mut run: Option<LostRun> = None;
    for (&sent, &mark) in send_timestamps.iter().zip(marks) {
        if mark == 1 {
            longest = longest.with_run(run, sent);
            run = None;
        } else {
            let begun = run.unwrap_or(LostRun {
                packets: 0,
                since: sent,
            });
            run = Some(LostRun {
                packets: begun.packets + 1,
                since: begun.since,
            });
        }
    }
    longest.with_run(run, end)
}

// Whether losses are within a budget, and there was no Error Indication.
pub fn within_budget(
    budget: PacketContinuityBudget,
    lost: u64,
    worst: LongestRuns,
    indications: u64,
) -> bool
    ensures { result ≡ within_budget budget lost worst.packets worst.duration indications }
{
    lost <= budget.max_lost_packets
        && worst.packets <= budget.max_consecutive_lost_packets
        && worst.duration <= budget.outage_budget_ns
        && indications == 0
}

// The report on an observer, for a window and a budget. Refuses by 21.
#[tactic(auto, using(crate::proofs::Reporting::passing))]
pub fn report(
    sheet: Sheet,
    counts: ObserverCounts,
    window_start_ns: u64,
    window_end_ns: u64,
    budget: PacketContinuityBudget,
) -> Result<PacketContinuityReport, Refusal>
    ensures { answered result ≡ reporting (lent (read_sheet sheet) counts) window_start_ns window_end_ns budget }
{
    if !observer::well_formed(sheet, counts) {
        return Err(Refusal::MalformedObserver);
    }
    let marks = &sheet.marks[..counts.used];
    let gathered = gather(&sheet.latencies[..counts.used], marks);
    let worst = longest_runs(&sheet.send_timestamps[..counts.used], marks, window_end_ns);
    let sent = counts.used as u64;
    let lost = sent - gathered.count;
    Ok(PacketContinuityReport {
        window_start_ns,
        window_end_ns,
        sent_packets: sent,
        received_packets: gathered.count,
        lost_packets: lost,
        duplicate_packets: counts.duplicate_packets,
        out_of_order_packets: counts.out_of_order_packets,
        gtpu_error_indications: counts.gtpu_error_indications,
        max_consecutive_lost_packets: worst.packets,
        max_gap_duration_ns: worst.duration,
        latency: summary(gathered),
        budget,
        forwarding_proven: 0 < gathered.count,
        packet_continuity_proven: within_budget(budget, lost, worst, counts.gtpu_error_indications),
    })
}

// Carries that the latency of a report means what leaf 7 says of its rows.
pub fn latency_is_that_of_the_rows()
    ensures { LatencyOfTheRows }
{}
