// Replays a sample of the Rust's answers, without the Rust: each record of standard input is a call and what the Rust
// made of it, and the proved call must do the same, in number, values and every byte lent. README.md says how the
// sample was made and what is in a record.
#![tactic(auto)]

mod call;
mod record;
mod summary;

ghost use Rattle.std.specs.Prelude.{◌≡◌, length};

use call::Call;
use record::{Record, Records};
use std::io;
use std::io::Write;
use summary::Counts;

// Whether the call of this kind agrees with the rest of its record: none where no call has the kind, or can answer so.
fn agrees(record: Record) -> Option<bool> {
    let number = record.number;
    let data = record.data;
    match Call::try_from(record.kind).ok()? {
        Call::Checksum => Some(replay_packets::checksum(number, data)),
        Call::BuildMeasurementTpdu => Some(replay_packets::build(number, data)),
        Call::DecodeMeasurementTpdu => Some(replay_packets::decode(number, data)),
        Call::EchoTpdu => Some(replay_packets::echo(number, data)),
        Call::Generate => Some(replay_packets::generate(number, data)),
        Call::ValidateErrorIndicationIes => Some(replay_packets::elements(number, data)),
        Call::RecordSent => replay_sheets::record_sent(number, data),
        Call::RecordReceivedTpdu => replay_sheets::record_received_tpdu(number, data),
        Call::RecordReturnGtpuDatagram => replay_sheets::record_return_gtpu_datagram(number, data),
        Call::Report => replay_sheets::report(number, data),
        Call::RegisterSession => replay_sessions::register_session(number, data),
        Call::RemoveSession => replay_sessions::remove_session(number, data),
        Call::HandleDatagram => replay_sessions::handle_datagram(number, data),
    }
}

fn replay_record<W: Write>(out: &mut W, record: Record, counts: &mut Counts) -> io::Result<()> {
    let agreed = agrees(record).unwrap_or(false);
    counts.note(record.kind, record.number, agreed);
    if !agreed {
        writeln!(out, "differs: the record at byte {}", record.at)?;
    }
    Ok(())
}

// Replays every record, to the end or to one that is cut.
fn replay<W: Write>(out: &mut W, records: Records, counts: &mut Counts) -> io::Result<()> {
    for record in records {
        match record {
            Ok(record) => replay_record(out, record, counts)?,
            Err(cut) => writeln!(out, "cut: the record at byte {}", cut.at)?,
        }
    }
    Ok(())
}

// The last line also has the data's checksum. A change within 16 neighbouring bits changes it, unless it turns 16 equal
// bits.
fn print_lines<W: Write>(out: &mut W, counts: &Counts, data: &[u8]) -> io::Result<()> {
    for call in Call::ALL {
        writeln!(out, "{call}: {}", counts.row(call.kind()))?;
    }
    let checksum = testkit_packets::testkit_checksum(data);
    writeln!(
        out,
        "all: {}, checksum of the data 0x{checksum:04x}",
        counts.row(summary::ALL)
    )
}

// Room for the data, and for half as much again. It has a function of its own, since written in `main` the array is
// counted out in each goal there, and no proof closes.
fn room() -> [u8; 1048576]
    ensures { 1048576 ≡ length result }
{
    [0; 1048576]
}

fn main(rt: HostRuntime) -> io::Result<()> {
    let mut space = room();
    let n = text::read_full(&mut rt.reader(), &mut space);
    let data = &space[..n];
    let mut counts = Counts::new();
    let mut out = io::writer(&rt);
    replay(&mut out, Records::new(data), &mut counts)?;
    print_lines(&mut out, &counts, data)
}
