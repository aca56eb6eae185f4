// A report as parts of a JSON object (RFC 8259): the budget, the figures, and the verdict with its reason and the two
// numbers of the reason.
#![tactic(auto)]

use evidence::{PacketContinuityBudget, PacketContinuityReport};
use std::io;
use std::io::Write;
use text::NumberOr;
use verdict::Verdict;

pub fn print_budget<W: Write>(out: &mut W, budget: PacketContinuityBudget) -> io::Result<()> {
    writeln!(
        out,
        r#""budget": {{"max_lost_packets": {},
  "max_consecutive_lost_packets": {},
  "outage_budget_ns": {}}},"#,
        budget.max_lost_packets, budget.max_consecutive_lost_packets, budget.outage_budget_ns
    )
}

fn print_counts<W: Write>(out: &mut W, report: PacketContinuityReport) -> io::Result<()> {
    writeln!(
        out,
        r#"  "sent_packets": {}, "received_packets": {}, "lost_packets": {},
  "duplicate_packets": {}, "out_of_order_packets": {},
  "gtpu_error_indications": {},
  "max_consecutive_lost_packets": {},
  "max_gap_duration_ns": {},"#,
        report.sent_packets,
        report.received_packets,
        report.lost_packets,
        report.duplicate_packets,
        report.out_of_order_packets,
        report.gtpu_error_indications,
        report.max_consecutive_lost_packets,
        report.max_gap_duration_ns
    )
}

// Every figure of the report but its budget.
pub fn print_report<W: Write>(out: &mut W, report: PacketContinuityReport) -> io::Result<()> {
    writeln!(
        out,
        r#""report": {{"window_start_ns": {},
  "window_end_ns": {},"#,
        report.window_start_ns, report.window_end_ns
    )?;
    print_counts(out, report)?;
    match report.latency {
        None => writeln!(out, r#"  "latency": null,"#)?,
        Some(latency) => writeln!(
            out,
            r#"  "latency": {{"min_ns": {},
  "max_ns": {}, "avg_ns": {}}},"#,
            latency.min_ns, latency.max_ns, latency.avg_ns
        )?,
    }
    writeln!(
        out,
        r#"  "forwarding_proven": {},
  "packet_continuity_proven": {}}},"#,
        report.forwarding_proven, report.packet_continuity_proven
    )
}

// The number that was too large, and the most that is allowed.
fn numbers_of(verdict: Verdict) -> (Option<u64>, Option<u64>) {
    match verdict {
        Verdict::Pass | Verdict::NothingReturned => (None, None),
        Verdict::TooManyLost(n, most) => (Some(n), Some(most)),
        Verdict::TooManyInARow(n, most) => (Some(n), Some(most)),
        Verdict::OutageTooLong(n, most) => (Some(n), Some(most)),
        Verdict::ErrorIndicated(n) => (Some(n), Some(0)),
    }
}

pub fn print_verdict<W: Write>(out: &mut W, verdict: Verdict) -> io::Result<()> {
    let passed = matches!(verdict, Verdict::Pass);
    let reason = match verdict {
        Verdict::Pass => "the cutover kept to its budget",
        Verdict::NothingReturned => "nothing came back",
        Verdict::TooManyLost(_, _) => "too many lost",
        Verdict::TooManyInARow(_, _) => "too many lost in a row",
        Verdict::OutageTooLong(_, _) => "outage too long",
        Verdict::ErrorIndicated(_) => "error indications",
    };
    let (number, allowed) = numbers_of(verdict);
    writeln!(
        out,
        r#""verdict": {{"passed": {passed}, "reason": "{reason}",
  "number": {}, "allowed": {}}},"#,
        NumberOr(number, "null"),
        NumberOr(allowed, "null")
    )
}
