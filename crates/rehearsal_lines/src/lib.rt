// A rehearsal in lines of at most 80 columns, the last of them the verdict.
#![tactic(auto)]

mod timeline;

use error::Refusal;
use forecast::PlannedPackets;
use probe_fate::{Notes, Tally};
use reflector_answer::ReflectorStats;
use rehearsal_run::Rehearsed;
use scenario::Scenario;
use std::io::Write;
use std::{fmt, io};
use text::Nanoseconds;
use verdict::Verdict;
use word_names::{Effect, Number};

// A number of things: `1 probe`, `2 probes`.
#[derive(Clone, Copy)]
struct Counted(u64, &'static str);

impl fmt::Display for Counted {
    fn fmt<W: fmt::Write>(&self, f: &mut fmt::Formatter<W>) -> fmt::Result {
        let plural = if self.0 == 1 { "" } else { "s" };
        write!(f, "{} {}{plural}", self.0, self.1)
    }
}

// How big the plan will be. Accepted words always lead to packets.
fn print_forecast<W: Write>(
    out: &mut W,
    forecast: Result<Option<PlannedPackets>, Refusal>,
) -> io::Result<()> {
    match forecast {
        Ok(Some(packets)) => writeln!(
            out,
            "forecast:  {} bytes, last probe {} at {}",
            packets.bytes,
            packets.last.sequence,
            Nanoseconds(packets.last.send_timestamp_ns)
        ),
        Ok(None) => writeln!(out, "forecast:  0 bytes, no probe"),
        Err(_) => Ok(()),
    }
}

// What stands before the run: the plan, and how big it will be.
pub fn print_before<W: Write>(
    out: &mut W,
    scenario: &Scenario,
    forecast: Result<Option<PlannedPackets>, Refusal>,
) -> io::Result<()> {
    writeln!(
        out,
        "plan:      IPv{}, {}, {} per second",
        scenario.version().number(),
        Counted(u64::from(scenario.number(Number::Count)), "probe"),
        scenario.number(Number::Rate)
    )?;
    print_forecast(out, forecast)
}

fn latency(scenario: &Scenario, number: Number) -> Nanoseconds {
    Nanoseconds(u64::from(scenario.number(number)) * 1_000)
}

// What the path does.
fn print_path<W: Write>(out: &mut W, scenario: &Scenario) -> io::Result<()> {
    let before = latency(scenario, Number::LatencyUs);
    write!(out, "path:      there and back {before}")?;
    if scenario.window(Effect::Lose).is_some() {
        let after = latency(scenario, Number::LatencyAfterUs);
        write!(out, ", after the loss {after}")?;
    }
    writeln!(out)?;
    for effect in Effect::ALL {
        if let Some(window) = scenario.window(effect) {
            writeln!(out, "           {effect} {window}")?;
        }
    }
    Ok(())
}

fn print_reflector<W: Write>(out: &mut W, stats: ReflectorStats) -> io::Result<()> {
    writeln!(
        out,
        "reflector: received {}, echoed {}, error indications {}",
        stats.gpdu_received, stats.gpdu_forwarded, stats.error_indications_sent
    )
}

// What stands behind a refusal of the elements of an Error Indication. Such an indication is not counted, and the
// verdict does not know of it.
fn outside_verdict(refusal: Refusal) -> &'static str {
    match refusal {
        Refusal::TruncatedElement
        | Refusal::InvalidPeerAddressLength
        | Refusal::UnsupportedFixedLengthElement
        | Refusal::MissingTeidDataI
        | Refusal::MissingPeerAddress => ", not in the verdict",
        _ => "",
    }
}

// Every number of the card that came up, with its name and how often.
fn print_refusals<W: Write>(out: &mut W, notes: &Notes) -> io::Result<()> {
    if notes.refusals.iter().all(|tally| tally.is_none()) {
        return writeln!(out, "refused:   none");
    }
    for tally in &notes.refusals {
        if let Some(Tally { refusal, times }) = *tally {
            writeln!(
                out,
                "refused:   {} {refusal}, {}{}",
                refusal.number(),
                Counted(times, "time"),
                outside_verdict(refusal)
            )?;
        }
    }
    Ok(())
}

// The other lines.
pub fn print_rehearsal<W: Write>(
    out: &mut W,
    scenario: &Scenario,
    run: &Rehearsed,
    verdict: Verdict,
) -> io::Result<()> {
    print_path(out, scenario)?;
    report_lines::print_budget(out, run.report.budget)?;
    report_lines::print_report(out, run.report)?;
    print_reflector(out, run.stats)?;
    print_refusals(out, &run.notes)?;
    timeline::print_rows(
        out,
        run.notes.fates(scenario.number(Number::Count) as usize),
    )?;
    timeline::print_indication(out, run.indication)?;
    report_lines::print_verdict(out, verdict)
}
