// What is counted while the records are replayed: a row of cells for each kind of record, and one for all. Its cells:
// how many records, how many agree, and for each number how many records have it.
use std::fmt;

// The row of all records: no call has this kind.
pub const ALL: u8 = 15;

const RECORDS: usize = 0;

const AGREED: usize = 1;

const NUMBERS: usize = 2;

// How many numbers are printed as refusals, from 1 on.
const REFUSALS: usize = 63;

const ROW_LENGTH: usize = 128;

// Rows for the kinds 0 to 15. They lie in one array: a number above 125, which only damaged data has, counts in the row
// behind, and what the program prints then may not change.
#[derive(Clone, Copy)]
pub struct Counts {
    cells: [u64; 2048],
}

// What is printed of a row.
#[derive(Clone, Copy)]
pub struct Row {
    records: u64,
    agreed: u64,
    refusals: usize,
}

impl Counts {
    pub fn new() -> Self {
        Self { cells: [0; 2048] }
    }

    fn raise(&mut self, row: u8, cell: usize) {
        let place = (usize::from(row) * ROW_LENGTH).wrapping_add(cell);
        if let Some(count) = self.cells.get_mut(place) {
            *count = count.wrapping_add(1);
        }
    }

    fn note_in_row(&mut self, row: u8, number: u8, agrees: bool) {
        self.raise(row, RECORDS);
        if agrees {
            self.raise(row, AGREED);
        }
        self.raise(row, NUMBERS + usize::from(number));
    }

    // Counts a record in the row of its kind and in that of all.
    pub fn note(&mut self, kind: u8, number: u8, agrees: bool) {
        self.note_in_row(kind, number, agrees);
        self.note_in_row(ALL, number, agrees);
    }

    pub fn row(&self, kind: u8) -> Row {
        let cells = self
            .cells
            .chunks_exact(ROW_LENGTH)
            .nth(usize::from(kind))
            .unwrap_or(&[]);
        let refused = cells.iter().skip(NUMBERS + 1).take(REFUSALS);
        Row {
            records: cells.get(RECORDS).copied().unwrap_or(0),
            agreed: cells.get(AGREED).copied().unwrap_or(0),
            refusals: refused.filter(|records| **records > 0).count(),
        }
    }
}

impl fmt::Display for Row {
    fn fmt<W: fmt::Write>(&self, f: &mut fmt::Formatter<W>) -> fmt::Result {
        write!(
            f,
            "{} records, {} agree, refusal numbers: {}",
            self.records, self.agreed, self.refusals
        )
    }
}
