// What became of each probe, as the proved calls answered, in marks: rows of 50, the number of the first probe in
// front; and the first Error Indication.
use probe_fate::{Fate, FirstIndication};
use std::io;
use std::io::Write;
use tunnel_text::{Address, Teid};

// The marks of a row.
const WIDTH: usize = 50;

fn mark(fate: Fate) -> char {
    match fate {
        Fate::Returned => '.',
        Fate::Duplicate => '+',
        Fate::OutOfOrder => '~',
        Fate::Lost => '_',
        Fate::ErrorIndication => 'E',
        Fate::Refused(_) => '!',
    }
}

pub fn print_rows<W: Write>(out: &mut W, fates: &[Fate]) -> io::Result<()> {
    for (row, fate) in fates.iter().enumerate() {
        if row % WIDTH == 0 {
            let front = if row == 0 {
                "timeline:  "
            } else {
                "\n           "
            };
            write!(out, "{front}{:4} ", row + 1)?;
        }
        write!(out, "{}", mark(*fate))?;
    }
    writeln!(out)?;
    writeln!(
        out,
        "           . returned  + duplicate  ~ out of order  ! refused"
    )?;
    writeln!(
        out,
        "           _ lost  E error indication  (one mark per probe)"
    )
}

// The first Error Indication, where there is one: the probe that it answers, and the tunnel that it names. The address
// that a rehearsal's reflector names is short, so that the line has at most 65 columns.
pub fn print_indication<W: Write>(out: &mut W, first: Option<FirstIndication>) -> io::Result<()> {
    let Some(FirstIndication { probe, tunnel }) = first else {
        return Ok(());
    };
    let bytes = tunnel.peer_address;
    let peer = Address {
        version: tunnel.version,
        bytes,
    };
    let teid = Teid(tunnel.teid);
    writeln!(
        out,
        "           first E, probe {probe}: TEID {teid}, peer {peer}"
    )
}
