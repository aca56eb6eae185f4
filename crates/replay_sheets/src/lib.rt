// The calls on a run sheet, each on a record of the data. A record has how much of each column is lent (5 bytes) and
// the sheet before the call: the counts (25 bytes) and the columns, of 6 rows (198). A call that may change it then has
// the counts and the columns after the call; what the datagram was and its message's type (2 bytes, else 0); two
// numbers (16); and a payload. Every cell is compared, lent or not. There is no answer where the record has what no
// call can have: more cells lent than there are, or a flag above 1.
#![tactic(auto)]

use evidence::PacketContinuityBudget;
use observer::ObserverCounts;
use replay_data::Reader;
use rows::WrittenSheet;
use testkit_sheet::{TestkitContinuityReport, TestkitDatagramRecorded, TestkitRecorded};

#[derive(Clone, Copy, PartialEq)]
struct Columns {
    sequences: [u64; 6],
    send_timestamps: [u64; 6],
    latencies: [u64; 6],
    marks: [u8; 6],
    arrival_timestamps: [u64; 6],
}

fn read_columns(data: &mut Reader) -> Columns {
    Columns {
        sequences: data.numbers(),
        send_timestamps: data.numbers(),
        latencies: data.numbers(),
        marks: data.bytes(),
        arrival_timestamps: data.numbers(),
    }
}

fn read_counts(data: &mut Reader) -> ObserverCounts {
    ObserverCounts {
        used: usize::from(data.byte()),
        duplicate_packets: data.number(),
        out_of_order_packets: data.number(),
        gtpu_error_indications: data.number(),
    }
}

// The sheet before a call, and how many cells of each column are lent.
#[derive(Clone, Copy)]
struct LentSheet {
    cells: [u8; 5],
    counts: ObserverCounts,
    columns: Columns,
}

fn read_sheet(data: &mut Reader) -> LentSheet {
    LentSheet {
        cells: data.bytes(),
        counts: read_counts(data),
        columns: read_columns(data),
    }
}

fn lend_column<T>(column: &mut [T], cells: u8) -> Option<&mut [T]> {
    column.get_mut(..usize::from(cells))
}

// What a record of a call that may change the sheet has beside the columns: what the call is given, and what is due.
#[derive(Clone, Copy)]
struct Change<'a> {
    counts: ObserverCounts,
    number: u8,
    counts_due: ObserverCounts,
    outcome: u8,
    message_type: u8,
    first: u64,
    second: u64,
    payload: &'a [u8],
}

impl<'a> Change<'a> {
    fn recorded_due(&self) -> TestkitRecorded {
        TestkitRecorded {
            counts: self.counts_due,
            number: self.number,
        }
    }

    // The Rust does not tell which tunnel an accepted Error Indication names; every other answer names none.
    fn datagram_due(&self, recorded: TestkitDatagramRecorded) -> TestkitDatagramRecorded {
        let names_none = TestkitDatagramRecorded {
            counts: self.counts_due,
            number: self.number,
            outcome: self.outcome,
            message_type: self.message_type,
            peer_version: 4,
            refused_teid: 0,
            peer_address: [0; 16],
        };
        if self.outcome == testkit_sheet::OUTCOME_ERROR_INDICATION {
            let peer_address = recorded.peer_address;
            TestkitDatagramRecorded {
                peer_version: recorded.peer_version,
                refused_teid: recorded.refused_teid,
                peer_address,
                ..names_none
            }
        } else {
            names_none
        }
    }
}

// Whether a call answers as the record has it, and leaves every cell so. A number past the end reads as 0, but a record
// that ends before its last mark differs: the marks end 150 bytes into the columns.
fn changes<F: FnOnce(Change, &mut WrittenSheet) -> bool>(
    number: u8,
    mut data: Reader,
    call: F,
) -> Option<bool>
    requires { F.IsAlwaysCallable call }
{
    let sheet = read_sheet(&mut data);
    let counts_due = read_counts(&mut data);
    let has_marks_due = data.len() >= 150;
    let columns_due = read_columns(&mut data);
    let change = Change {
        counts: sheet.counts,
        number,
        counts_due,
        outcome: data.byte(),
        message_type: data.byte(),
        first: data.number(),
        second: data.number(),
        payload: data.rest(),
    };
    let [
        sequences,
        send_timestamps,
        latencies,
        marks,
        arrival_timestamps,
    ] = sheet.cells;
    let mut columns = sheet.columns;
    let mut lent = WrittenSheet {
        sequences: lend_column(&mut columns.sequences, sequences)?,
        send_timestamps: lend_column(&mut columns.send_timestamps, send_timestamps)?,
        latencies: lend_column(&mut columns.latencies, latencies)?,
        marks: lend_column(&mut columns.marks, marks)?,
        arrival_timestamps: lend_column(&mut columns.arrival_timestamps, arrival_timestamps)?,
    };
    let agrees = call(change, &mut lent);
    Some(agrees && has_marks_due && columns == columns_due)
}

// The two numbers are the sequence and the send time.
pub fn record_sent(number: u8, data: Reader) -> Option<bool> {
    changes(number, data, |change, sheet| {
        let recorded = testkit_sheet::testkit_record_sent(
            sheet.sequences,
            sheet.send_timestamps,
            sheet.latencies,
            sheet.marks,
            sheet.arrival_timestamps,
            change.counts,
            change.first,
            change.second,
        );
        recorded == change.recorded_due()
    })
}

// The first number is the return time, and the payload is the T-PDU. The two columns that are only read are lent anew
// by `&mut`: a `&` beside the others gets no proof.
pub fn record_received_tpdu(number: u8, data: Reader) -> Option<bool> {
    changes(number, data, |change, sheet| {
        let recorded = testkit_sheet::testkit_record_received_tpdu(
            &mut *sheet.sequences,
            &mut *sheet.send_timestamps,
            sheet.latencies,
            sheet.marks,
            sheet.arrival_timestamps,
            change.counts,
            change.first,
            change.payload,
        );
        recorded == change.recorded_due()
    })
}

// The first number is the return time, and the first byte of the second the message's type. Columns as above.
pub fn record_return_gtpu_datagram(number: u8, data: Reader) -> Option<bool> {
    changes(number, data, |change, sheet| {
        let [message_type, ..] = change.second.to_be_bytes();
        let recorded = testkit_sheet::testkit_record_return_gtpu_datagram(
            &mut *sheet.sequences,
            &mut *sheet.send_timestamps,
            sheet.latencies,
            sheet.marks,
            sheet.arrival_timestamps,
            change.counts,
            change.first,
            message_type,
            change.payload,
        );
        recorded == change.datagram_due(recorded)
    })
}

// The window's start and end and the budget (40 bytes), which the report repeats, and the rest of it (91).
fn report_due(number: u8, data: &mut Reader) -> Option<TestkitContinuityReport> {
    Some(TestkitContinuityReport {
        number,
        window_start_ns: data.number(),
        window_end_ns: data.number(),
        budget: PacketContinuityBudget {
            max_lost_packets: data.number(),
            max_consecutive_lost_packets: data.number(),
            outage_budget_ns: data.number(),
        },
        sent_packets: data.number(),
        received_packets: data.number(),
        lost_packets: data.number(),
        duplicate_packets: data.number(),
        out_of_order_packets: data.number(),
        gtpu_error_indications: data.number(),
        max_consecutive_lost_packets: data.number(),
        max_gap_duration_ns: data.number(),
        min_ns: data.number(),
        max_ns: data.number(),
        avg_ns: data.number(),
        has_latency: data.flag()?,
        forwarding_proven: data.flag()?,
        packet_continuity_proven: data.flag()?,
    })
}

// After the columns stands what `report_due` reads. A report changes no cell.
pub fn report(number: u8, mut data: Reader) -> Option<bool> {
    let LentSheet {
        cells,
        counts,
        mut columns,
    } = read_sheet(&mut data);
    let due = report_due(number, &mut data)?;
    let [
        sequences,
        send_timestamps,
        latencies,
        marks,
        arrival_timestamps,
    ] = cells;
    let report = testkit_sheet::testkit_report(
        lend_column(&mut columns.sequences, sequences)?,
        lend_column(&mut columns.send_timestamps, send_timestamps)?,
        lend_column(&mut columns.latencies, latencies)?,
        lend_column(&mut columns.marks, marks)?,
        lend_column(&mut columns.arrival_timestamps, arrival_timestamps)?,
        counts,
        due.window_start_ns,
        due.window_end_ns,
        due.budget,
    );
    Some(report == due)
}
