// The run sheet as lines for a log, one for each row, with names before the values: a drive's log is matched with them
// by arrival.
use crate::row::Row;
use rows::Sheet;
use std::io;
use std::io::Write;
use text::NumberOr;

// The first `rows` rows.
pub fn print_rows<W: Write>(out: &mut W, sheet: Sheet, rows: usize) -> io::Result<()> {
    for k in 0..rows {
        let row = Row::of(sheet, k);
        writeln!(
            out,
            "sequence={} sent_ns={} returned_ns={} latency_ns={}",
            row.sequence,
            row.sent_ns,
            NumberOr(row.returned_ns, "-"),
            NumberOr(row.latency_ns, "-")
        )?;
    }
    Ok(())
}
