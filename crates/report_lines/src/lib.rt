// A report in lines of at most 80 columns: the budget, the figures, and the verdict.
#![tactic(auto)]

use evidence::{PacketContinuityBudget, PacketContinuityReport};
use std::io;
use std::io::Write;
use text::Nanoseconds;
use verdict::Verdict;

pub fn print_budget<W: Write>(out: &mut W, budget: PacketContinuityBudget) -> io::Result<()> {
    writeln!(
        out,
        "budget:    at most {} lost, {} in a row, an outage of {}",
        budget.max_lost_packets,
        budget.max_consecutive_lost_packets,
        Nanoseconds(budget.outage_budget_ns)
    )
}

pub fn print_report<W: Write>(out: &mut W, report: PacketContinuityReport) -> io::Result<()> {
    writeln!(
        out,
        "probes:    sent {}, returned {}, lost {}, duplicates {}",
        report.sent_packets, report.received_packets, report.lost_packets, report.duplicate_packets
    )?;
    writeln!(
        out,
        "           out of order {}, error indications {}",
        report.out_of_order_packets, report.gtpu_error_indications
    )?;
    writeln!(
        out,
        "outage:    longest {}, most lost in a row {}",
        Nanoseconds(report.max_gap_duration_ns),
        report.max_consecutive_lost_packets
    )?;
    match report.latency {
        None => writeln!(out, "latency:   none, nothing returned"),
        Some(latency) => writeln!(
            out,
            "latency:   {} to {}, mean {}",
            Nanoseconds(latency.min_ns),
            Nanoseconds(latency.max_ns),
            Nanoseconds(latency.avg_ns)
        ),
    }
}

// The one line that a crew reads: each number in it is the verdict's.
pub fn print_verdict<W: Write>(out: &mut W, verdict: Verdict) -> io::Result<()> {
    write!(out, "VERDICT: ")?;
    match verdict {
        Verdict::Pass => writeln!(out, "PASS - the cutover kept to its budget"),
        Verdict::NothingReturned => writeln!(out, "FAIL - nothing came back"),
        Verdict::TooManyLost(n, most) => {
            writeln!(out, "FAIL - {n} lost, at most {most} allowed")
        }
        Verdict::TooManyInARow(n, most) => {
            writeln!(out, "FAIL - {n} lost in a row, at most {most} allowed")
        }
        Verdict::OutageTooLong(ns, most) => writeln!(
            out,
            "FAIL - outage {}, at most {} allowed",
            Nanoseconds(ns),
            Nanoseconds(most)
        ),
        Verdict::ErrorIndicated(n) => {
            writeln!(out, "FAIL - error indications {n}, none allowed")
        }
    }
}
