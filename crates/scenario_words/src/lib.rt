// A scenario read from words, each `name=value`: every word is taken, or the first that is not accepted is told with
// the reason.
#![tactic(auto)]

use measurement::IpVersion;
use scenario::{Format, Limits, Scenario, Window};
use scenario_lines::Rejection;
use word_names::{Effect, Number, Word};

fn version_named(value: &[u8]) -> Option<IpVersion> {
    match text::number(value)? {
        4 => Some(IpVersion::V4),
        6 => Some(IpVersion::V6),
        _ => None,
    }
}

fn format_named(value: &[u8]) -> Option<Format> {
    match value {
        b"text" => Some(Format::Text),
        b"json" => Some(Format::Json),
        b"csv" => Some(Format::Csv),
        b"log" => Some(Format::Log),
        _ => None,
    }
}

// The window that `A` or `A..B` spells.
fn spelled_window(value: &[u8]) -> Option<Window> {
    let mut parts = value.splitn(2, |byte| *byte == b'.');
    let first = text::number(parts.next()?)?;
    let last = match parts.next() {
        None => first,
        Some(rest) => text::number(rest.strip_prefix(b".")?)?,
    };
    Some(Window { first, last })
}

// The window, where its probes are in order and numbered from 1.
fn judge_window(window: Window, given: &[u8]) -> Result<Window, Rejection<'_>> {
    if window.last < window.first {
        return Err(Rejection::BackwardWindow(given));
    }
    if window.first == 0 {
        return Err(Rejection::WindowFromZero(given));
    }
    Ok(window)
}

// Takes a word's value into a scenario.
fn take_value<'a>(
    scenario: &mut Scenario,
    word: Word,
    value: &'a [u8],
    given: &'a [u8],
) -> Result<(), Rejection<'a>> {
    let bad = Rejection::BadValue(word, value);
    match word {
        Word::Ip => scenario.set_version(version_named(value).ok_or(bad)?),
        Word::Format => scenario.set_format(format_named(value).ok_or(bad)?),
        Word::Number(number) => {
            let n = text::number(value).ok_or(bad)?;
            scenario.set_number(number, Limits::of(number).admit(n).ok_or(bad)?);
        }
        Word::Path(effect) => {
            let window = spelled_window(value).ok_or(bad)?;
            scenario.set_window(effect, judge_window(window, given)?);
        }
    }
    Ok(())
}

// Takes a word into a scenario.
fn take_word<'a>(scenario: &mut Scenario, given: &'a [u8]) -> Result<(), Rejection<'a>> {
    if given.is_empty() {
        return Err(Rejection::NoWord);
    }
    let mut parts = given.splitn(2, |byte| *byte == b'=');
    let name = parts.next().unwrap_or(&[]);
    let value = parts.next().unwrap_or(&[]);
    let word = Word::named(name).ok_or(Rejection::Unknown(given))?;
    if scenario.is_given(word) {
        return Err(Rejection::GivenTwice(word));
    }
    take_value(scenario, word, value, given)
}

// The first window that reaches past the count.
fn past_count(scenario: &Scenario) -> Option<Rejection<'static>> {
    let count = scenario.number(Number::Count);
    for effect in Effect::ALL {
        if let Some(window) = scenario.window(effect) {
            if u64::from(count) < window.last {
                return Some(Rejection::WindowPastCount(effect, window, count));
            }
        }
    }
    None
}

// The scenario of the words, with a separator between two. There is at least one: no bytes at all count as an empty
// word. What two words say together is judged last, since either may be given first.
pub fn take_words(words: &[u8], separator: u8) -> Result<Scenario, Rejection<'_>> {
    let mut scenario = Scenario::quiet();
    for word in words.split(|byte| *byte == separator) {
        take_word(&mut scenario, word)?;
    }
    let has_later_latency = scenario.is_given(Word::Number(Number::LatencyAfterUs));
    if has_later_latency && !scenario.is_given(Word::Path(Effect::Lose)) {
        return Err(Rejection::NoLoss);
    }
    match past_count(&scenario) {
        None => Ok(scenario),
        Some(rejection) => Err(rejection),
    }
}
