// The calls on packets, each on a record of the data: whether it answers what the Rust answered, and leaves every byte
// of the output as the record has it.
#![tactic(auto)]

use plan::TrafficPlan;
use replay_data::Reader;
use testkit_packets::{TestkitPlanForecast, TestkitTpdu, TestkitWritten};

// A list of bytes after its checksum. The call refuses nothing.
pub fn checksum(number: u8, mut data: Reader) -> bool {
    let due = data.word();
    number == 0 && testkit_packets::testkit_checksum(data.rest()) == due
}

// A flow, in 37 bytes.
#[derive(Clone, Copy)]
struct Flow {
    version: u8,
    src: [u8; 16],
    dst: [u8; 16],
    src_port: u16,
    dst_port: u16,
}

fn read_flow(data: &mut Reader) -> Flow {
    Flow {
        version: data.byte(),
        src: data.bytes(),
        dst: data.bytes(),
        src_port: data.word(),
        dst_port: data.word(),
    }
}

// How many bytes a call writes.
fn written_due(number: u8, data: &mut Reader) -> TestkitWritten {
    TestkitWritten {
        number,
        bytes: usize::from(data.word()),
    }
}

// A flow; a sequence and a time, 16 bytes; how many bytes are written; and the output afterwards.
pub fn build(number: u8, mut data: Reader) -> bool {
    let flow = read_flow(&mut data);
    let sequence = data.number();
    let send_timestamp_ns = data.number();
    let due = written_due(number, &mut data);
    replay_data::writes(data.rest(), |out| {
        let built = testkit_packets::testkit_build(
            flow.version,
            &flow.src,
            &flow.dst,
            flow.src_port,
            flow.dst_port,
            sequence,
            send_timestamp_ns,
            out,
        );
        built == due
    })
}

// What is read: a flow, a sequence and a time, 53 bytes; and the T-PDU.
pub fn decode(number: u8, mut data: Reader) -> bool {
    let flow = read_flow(&mut data);
    let due = TestkitTpdu {
        number,
        version: flow.version,
        src_port: flow.src_port,
        dst_port: flow.dst_port,
        sequence: data.number(),
        send_timestamp_ns: data.number(),
    };
    let mut src = replay_data::LENT_ADDRESS;
    let mut dst = replay_data::LENT_ADDRESS;
    let read = testkit_packets::testkit_decode(data.rest(), &mut src, &mut dst);
    read == due && src == flow.src && dst == flow.dst
}

// How many bytes are written, the output's length and the output afterwards; and the T-PDU.
pub fn echo(number: u8, mut data: Reader) -> bool {
    let due = written_due(number, &mut data);
    let length = usize::from(data.word());
    let out_due = data.take(length);
    replay_data::writes(out_due, |out| {
        testkit_packets::testkit_echo(data.rest(), out) == due
    })
}

fn read_plan(data: &mut Reader) -> TrafficPlan {
    TrafficPlan {
        packet_count: data.number(),
        target_rate_pps: data.number(),
        first_send_timestamp_ns: data.number(),
    }
}

// The forecast of a plan that is generated so. The last packet's sequence is one below the next sequence afterwards,
// and its time stands at the end of the bytes that are written. Where none is written there is no last packet.
fn forecast_due(generated: TestkitWritten, next_sequence: u64, out: &[u8]) -> TestkitPlanForecast {
    let written = out.get(..generated.bytes).unwrap_or(&[]);
    let last = written.last_chunk().map(|time| u64::from_be_bytes(*time));
    TestkitPlanForecast {
        number: generated.number,
        has_last: last.is_some(),
        bytes: generated.bytes,
        last_sequence: last.map_or(0, |_| next_sequence.wrapping_sub(1)),
        last_send_timestamp_ns: last.unwrap_or(0),
    }
}

// A flow; a plan's count, rate and first time, and the next sequence; the next sequence afterwards; how many bytes are
// written; and the output afterwards. The plan is forecast too. No record has 15, by which no forecast refuses.
pub fn generate(number: u8, mut data: Reader) -> bool {
    let flow = read_flow(&mut data);
    let plan = read_plan(&mut data);
    let next_sequence = data.number();
    let next_sequence_due = data.number();
    let due = written_due(number, &mut data);
    let out_due = data.rest();
    let forecast_due = forecast_due(due, next_sequence_due, out_due);
    let generates = replay_data::writes(out_due, |out| {
        let mut next_sequence = next_sequence;
        let generated = testkit_packets::testkit_generate(
            flow.version,
            &flow.src,
            &flow.dst,
            flow.src_port,
            flow.dst_port,
            plan,
            &mut next_sequence,
            out,
        );
        generated == due && next_sequence == next_sequence_due
    });
    generates
        && testkit_packets::testkit_forecast(flow.version, plan, next_sequence) == forecast_due
}

// The elements of an Error Indication. The Rust does not tell which tunnel they name; a refusal names none: version 4
// and TEID 0, and the address is as it was lent.
pub fn elements(number: u8, data: Reader) -> bool {
    let mut peer_address = replay_data::LENT_ADDRESS;
    let answer = testkit_packets::testkit_validate_elements(data.rest(), &mut peer_address);
    let names_no_tunnel = answer.version == 4
        && answer.teid == 0
        && peer_address == replay_data::LENT_ADDRESS;
    answer.number == number && (number == 0 || names_no_tunnel)
}
