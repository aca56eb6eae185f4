// The run sheet in comma-separated values: a header line, and a line for each row.
use crate::row;
use crate::row::Row;
use probe_fate::Fate;
use rows::Sheet;
use std::io;
use std::io::Write;
use text::NumberOr;

pub fn print_sheet<W: Write>(out: &mut W, sheet: Sheet, fates: &[Fate]) -> io::Result<()> {
    writeln!(
        out,
        "probe,sent_ns,returned,returned_ns,latency_ns,fate,refused"
    )?;
    for (k, fate) in fates.iter().enumerate() {
        let row = Row::of(sheet, k);
        writeln!(
            out,
            "{},{},{},{},{},{},{}",
            row.sequence,
            row.sent_ns,
            u8::from(row.returned_ns.is_some()),
            NumberOr(row.returned_ns, ""),
            NumberOr(row.latency_ns, ""),
            row::fate_word(*fate),
            NumberOr(row::refusal_number(*fate), "")
        )?;
    }
    Ok(())
}
