// A row of the run sheet, as records have it.
use probe_fate::Fate;
use rows::Sheet;

#[derive(Clone, Copy)]
pub struct Row {
    pub sequence: u64,
    pub sent_ns: u64,
    // None where the probe did not return.
    pub returned_ns: Option<u64>,
    pub latency_ns: Option<u64>,
}

fn number_at(column: &[u64], row: usize) -> u64 {
    column.get(row).copied().unwrap_or(0)
}

impl Row {
    // A row of the sheet, 0 past its end.
    pub fn of(sheet: Sheet, row: usize) -> Self {
        let returned = sheet.marks.get(row).is_some_and(|mark| *mark != 0);
        let returned_ns = number_at(sheet.arrival_timestamps, row);
        let latency_ns = number_at(sheet.latencies, row);
        Self {
            sequence: number_at(sheet.sequences, row),
            sent_ns: number_at(sheet.send_timestamps, row),
            returned_ns: returned.then_some(returned_ns),
            latency_ns: returned.then_some(latency_ns),
        }
    }
}

// What became of a probe, as a word of a record.
pub fn fate_word(fate: Fate) -> &'static str {
    match fate {
        Fate::Returned => "returned",
        Fate::Duplicate => "duplicate",
        Fate::OutOfOrder => "out-of-order",
        Fate::Lost => "lost",
        Fate::ErrorIndication => "error-indication",
        Fate::Refused(_) => "refused",
    }
}

// The number of the card by which a return was refused.
pub fn refusal_number(fate: Fate) -> Option<u64> {
    match fate {
        Fate::Refused(refusal) => Some(u64::from(refusal.number())),
        _ => None,
    }
}
