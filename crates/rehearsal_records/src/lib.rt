// A rehearsal as records that a program reads: one JSON object (RFC 8259), or for each row of the run sheet a line of
// comma-separated values or of a log.
#![tactic(auto)]

pub mod csv;
pub mod log;
mod row;

use error::Refusal;
use forecast::PlannedPackets;
use probe_fate::{Fate, FirstIndication, Notes, Tally};
use reflector_answer::ReflectorStats;
use rehearsal_run::Rehearsed;
use row::Row;
use rows::Sheet;
use scenario::Scenario;
use std::io;
use std::io::Write;
use text::NumberOr;
use tunnel_text::Address;
use verdict::Verdict;
use word_names::{Effect, Number};

fn print_plan<W: Write>(out: &mut W, scenario: &Scenario, window_start_ns: u64) -> io::Result<()> {
    writeln!(
        out,
        r#"{{
"plan": {{"ip": {}, "count": {}, "rate": {},
  "first_send_timestamp_ns": {window_start_ns}}},"#,
        scenario.version().number(),
        scenario.number(Number::Count),
        scenario.number(Number::Rate)
    )
}

// How big the plan was to be. Accepted words always lead to packets; null stands for anything else.
fn print_forecast<W: Write>(
    out: &mut W,
    forecast: Result<Option<PlannedPackets>, Refusal>,
) -> io::Result<()> {
    match forecast {
        Ok(Some(packets)) => writeln!(
            out,
            r#""forecast": {{"bytes": {}, "last_sequence": {},
  "last_send_timestamp_ns": {}}},"#,
            packets.bytes, packets.last.sequence, packets.last.send_timestamp_ns
        ),
        Ok(None) | Err(_) => writeln!(out, r#""forecast": null,"#),
    }
}

// What the path does, by the words: the latency after the loss is null where nothing is lost, and so is a window that
// there is not.
fn print_path<W: Write>(out: &mut W, scenario: &Scenario) -> io::Result<()> {
    let after = match scenario.window(Effect::Lose) {
        Some(_) => Some(u64::from(scenario.number(Number::LatencyAfterUs))),
        None => None,
    };
    write!(
        out,
        r#""path": {{
  "latency-us": {}, "latency-after-us": {}"#,
        scenario.number(Number::LatencyUs),
        NumberOr(after, "null")
    )?;
    for effect in Effect::ALL {
        write!(out, ",\n  \"{effect}\": ")?;
        match scenario.window(effect) {
            Some(window) => write!(out, "[{}, {}]", window.first, window.last)?,
            None => write!(out, "null")?,
        }
    }
    writeln!(out, "}},")
}

fn print_reflector<W: Write>(out: &mut W, stats: ReflectorStats) -> io::Result<()> {
    writeln!(
        out,
        r#""reflector": {{"received": {}, "echoed": {},
  "error_indications": {}}},"#,
        stats.gpdu_received, stats.gpdu_forwarded, stats.error_indications_sent
    )
}

// The first Error Indication that was accepted: null, or the probe that it answers and the tunnel that it names.
fn print_indication<W: Write>(out: &mut W, first: Option<FirstIndication>) -> io::Result<()> {
    let Some(FirstIndication { probe, tunnel }) = first else {
        return writeln!(out, r#""error_indication": null,"#);
    };
    let bytes = tunnel.peer_address;
    let peer = Address {
        version: tunnel.version,
        bytes,
    };
    writeln!(
        out,
        r#""error_indication": {{"probe": {probe}, "teid": {},
  "peer": "{peer}"}},"#,
        tunnel.teid
    )
}

// The numbers of the card that came up.
fn print_refusals<W: Write>(out: &mut W, notes: &Notes) -> io::Result<()> {
    write!(out, r#""refused": ["#)?;
    let mut between = "";
    for tally in &notes.refusals {
        if let Some(Tally { refusal, times }) = *tally {
            write!(
                out,
                r#"{between}
  {{"number": {}, "name": "{refusal}",
    "times": {times}}}"#,
                refusal.number()
            )?;
            between = ",";
        }
    }
    writeln!(out, "],")
}

fn print_probe<W: Write>(out: &mut W, row: Row, fate: Fate) -> io::Result<()> {
    write!(
        out,
        r#"
  {{"probe": {}, "sent_ns": {}, "returned_ns": {},
    "latency_ns": {}, "fate": "{}", "refused": {}}}"#,
        row.sequence,
        row.sent_ns,
        NumberOr(row.returned_ns, "null"),
        NumberOr(row.latency_ns, "null"),
        row::fate_word(fate),
        NumberOr(row::refusal_number(fate), "null")
    )
}

// An entry for each row of the sheet.
fn print_probes<W: Write>(out: &mut W, sheet: Sheet, fates: &[Fate]) -> io::Result<()> {
    write!(out, r#""probes": ["#)?;
    for (k, fate) in fates.iter().enumerate() {
        if k > 0 {
            write!(out, ",")?;
        }
        print_probe(out, Row::of(sheet, k), *fate)?;
    }
    writeln!(out, "]\n}}")
}

// The object.
pub fn print_json<W: Write>(
    out: &mut W,
    scenario: &Scenario,
    forecast: Result<Option<PlannedPackets>, Refusal>,
    run: &Rehearsed,
    verdict: Verdict,
) -> io::Result<()> {
    print_plan(out, scenario, run.report.window_start_ns)?;
    print_forecast(out, forecast)?;
    print_path(out, scenario)?;
    report_json::print_budget(out, run.report.budget)?;
    report_json::print_report(out, run.report)?;
    report_json::print_verdict(out, verdict)?;
    print_reflector(out, run.stats)?;
    print_indication(out, run.indication)?;
    print_refusals(out, &run.notes)?;
    print_probes(
        out,
        run.sheet(),
        run.notes.fates(scenario.number(Number::Count) as usize),
    )
}
