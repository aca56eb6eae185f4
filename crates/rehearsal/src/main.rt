// Rehearses a cutover in memory, as its words say; without any, the default one; by the word `-`, one for each line of
// standard input. Its last line is `status N`, the exit status of the command `rehearse`, which runs it: 0 passed, 1
// failed, 2 words not accepted, 3 no run.
#![tactic(auto)]

mod words;

use exit_status::ExitStatus;
use rehearsal_records::{csv, log};
use rehearsal_run::{Columns, Rehearsed};
use scenario::{Format, Scenario};
use std::io::{Read, Write};
use std::{fmt, io};
use text::Given;
use verdict::Verdict;
use word_names::Number;

// The bytes of standard input that are read. Input that fills them is not accepted, since there may be more.
const INPUT_BYTES: usize = 65536;

// Prints a run in the format that the scenario asks for.
fn print_run<W: Write>(
    out: &mut W,
    scenario: &Scenario,
    run: &Rehearsed,
    verdict: Verdict,
) -> io::Result<()> {
    let rows = scenario.number(Number::Count) as usize;
    match scenario.format() {
        Format::Text => rehearsal_lines::print_rehearsal(out, scenario, run, verdict),
        Format::Json => {
            let forecast = rehearsal_run::forecast(scenario);
            rehearsal_records::print_json(out, scenario, forecast, run, verdict)
        }
        Format::Csv => csv::print_sheet(out, run.sheet(), run.notes.fates(rows)),
        Format::Log => log::print_rows(out, run.sheet(), rows),
    }
}

// Rehearses a scenario, prints the run, and answers its status.
fn rehearse<W: Write>(out: &mut W, scenario: &Scenario) -> io::Result<ExitStatus> {
    if let Format::Text = scenario.format() {
        rehearsal_lines::print_before(out, scenario, rehearsal_run::forecast(scenario))?;
    }
    let mut columns = Columns::fresh();
    match rehearsal_run::rehearse(scenario, &mut columns) {
        // Accepted words never lead here.
        Err(refusal) => {
            let number = refusal.number();
            writeln!(
                out,
                "rehearse: the plan was refused by number {number} of the card"
            )?;
            Ok(ExitStatus::NoRun)
        }
        Ok(run) => {
            let verdict = verdict::judge(run.report);
            print_run(out, scenario, &run, verdict)?;
            Ok(exit_status::of_verdict(verdict))
        }
    }
}

// Says why words or input are not accepted.
fn print_not_accepted<W: Write, D: fmt::Display + Drop>(
    out: &mut W,
    why: D,
) -> io::Result<ExitStatus> {
    writeln!(out, "rehearse: {why} (see --help)")?;
    Ok(ExitStatus::NotAccepted)
}

// Rehearses what the words ask for, with a separator between two, and answers the status.
fn rehearse_words<W: Write>(out: &mut W, words: &[u8], separator: u8) -> io::Result<ExitStatus> {
    match scenario_words::take_words(words, separator) {
        Ok(scenario) => rehearse(out, &scenario),
        Err(rejection) => print_not_accepted(out, rejection),
    }
}

fn print_status<W: Write>(out: &mut W, status: ExitStatus) -> io::Result<()> {
    writeln!(out, "status {}", status.number())
}

// One line of standard input: the words as they were given, one space apart; what their run prints; its status.
fn rehearse_line<W: Write>(out: &mut W, words: &[u8]) -> io::Result<ExitStatus> {
    let given = Given {
        word: words,
        most: 4096,
    };
    writeln!(out, "$ rehearse {given}")?;
    let status = rehearse_words(out, words, b' ')?;
    print_status(out, status)?;
    writeln!(out)?;
    Ok(status)
}

// Rehearses each line of a text, and answers the greatest status.
fn rehearse_lines<W: Write>(out: &mut W, text: &[u8]) -> io::Result<ExitStatus> {
    let mut worst = ExitStatus::Passed;
    let lines = text.strip_suffix(b"\n").unwrap_or(text);
    for words in lines.split(|byte| *byte == b'\n') {
        worst = worst.max(rehearse_line(out, words)?);
    }
    Ok(worst)
}

// Rehearses the lines of standard input.
fn rehearse_input<R: Read, W: Write>(input: &mut R, out: &mut W) -> io::Result<ExitStatus> {
    let mut room = [0; INPUT_BYTES];
    match text::read_full(input, &mut room) {
        0 => print_not_accepted(out, "standard input has no line"),
        INPUT_BYTES => print_not_accepted(out, "standard input has more than 65535 bytes"),
        n => rehearse_lines(out, &room[..n]),
    }
}

fn main(rt: HostRuntime) -> io::Result<()> {
    let mut room = [0; words::ROOM];
    let words = words::put_all(&rt, &mut room);
    let mut out = io::writer(&rt);
    let status = match words {
        // The words of the command line; `-` alone stands for standard input.
        Some([]) => rehearse(&mut out, &Scenario::default_cutover())?,
        Some([b'-', 0]) => rehearse_input(&mut rt.reader(), &mut out)?,
        Some([words @ .., _]) => rehearse_words(&mut out, words, 0)?,
        None => print_not_accepted(&mut out, "the words have more than 4000 bytes")?,
    };
    print_status(&mut out, status)
}
