// The library for C: every call of the interface, in one archive, libtestkit.a. What a call does and promises stands in
// the crate of its layer (testkit_packets, testkit_sheet, testkit_reflector), which Rattle code uses too. Rattle
// exports to C only what a static library itself defines, so each call stands here once more, under the same name and
// with the same clauses.
#![tactic(auto)]

ghost use Rattle.std.specs.Prelude.{◌≡◌, ◌+◌, true, eqb};
ghost use Rattle.checksum.specs.Sum.{sum_of, fold_of, checksum_of};
ghost use Rattle.checksum.specs.Claims.{Undamaged};
ghost use Rattle.measurement.specs.Answer.{writing, writing_of};
ghost use Rattle.measurement.specs.Flow.{version_numbered};
ghost use Rattle.measurement_packet.specs.Packet.{build_of};
ghost use Rattle.measurement_reading.specs.Read.{read_of};
ghost use Rattle.measurement_damage.specs.Echo.{echo_of};
ghost use Rattle.measurement_decode.specs.Numbers.{tpdu_numbers, source_left, destination_left};
ghost use Rattle.traffic.specs.Generate.{generate_of};
ghost use Rattle.forecast.specs.Forecast.{forecast_of};
ghost use Rattle.gtpu.specs.Indication.{indication_of};
ghost use Rattle.testkit_packets.specs.Interface.{version_of, flow_of, written_numbers, testkit_tpdu, GeneratedStep};
ghost use Rattle.testkit_packets.specs.Interface.{forecast_numbers, elements_numbers, address_left};
ghost use Rattle.observer.specs.Sending.{record_sent};
ghost use Rattle.observer.specs.Answer.{lent};
ghost use Rattle.sent_plan.specs.SendingPlan.{record_sent_plan};
ghost use Rattle.return_calls.specs.Returns.{record_received_tpdu, record_return_message};
ghost use Rattle.received_tpdus.specs.Received.{record_received_tpdus};
ghost use Rattle.report.specs.Report.{reporting};
ghost use Rattle.testkit_sheet.specs.Interface.{sheet, marked_sheet, written_sheet};
ghost use Rattle.testkit_sheet.specs.Interface.{report_numbers, Records, RecordsDatagram, RecordsReturns};
ghost use Rattle.testkit_sheet.specs.Verdict.{judging};
ghost use Rattle.reflector_sessions.specs.Table.{table_of};
ghost use Rattle.reflector_sessions.specs.Register.{register_session};
ghost use Rattle.reflector_sessions.specs.Remove.{remove_session};
ghost use Rattle.reflector.specs.Handle.{handle_datagram};
ghost use Rattle.testkit_reflector.specs.Interface.{RegistersNumbers, RemovesNumbers, AnswersNumbers};
ghost use Rattle.testkit_reflector.specs.Interface.{config_of, message_of};
ghost use Rattle.reflector_sessions.specs.Session.{value_of};

use evidence::PacketContinuityBudget;
use observer::ObserverCounts;
use plan::TrafficPlan;
use reflector_answer::ReflectorState;
use reflector_sessions::{LentSocketAddr, ReflectorSession};
use testkit_packets::{TestkitElements, TestkitPlanForecast, TestkitTpdu, TestkitWritten};
use testkit_reflector::{
    TestkitGtpuMessage, TestkitHandled, TestkitReflectorConfig, TestkitRegistered, TestkitRemoved,
};
use testkit_sheet::{
    TestkitContinuityReport, TestkitDatagramRecorded, TestkitRecorded, TestkitReturnsRecorded,
    TestkitVerdict,
};

// `testkit_packets::testkit_version`
#[unsafe(no_mangle)]
pub extern "C" fn testkit_version() -> u32
    ensures { result ≡ version_of 5 0 0 }
{
    testkit_packets::testkit_version()
}

// `testkit_packets::testkit_sum`
#[unsafe(no_mangle)]
pub extern "C" fn testkit_sum(start: u16, bytes: &[u8]) -> u16
    ensures { result ≡ fold_of (start + sum_of bytes.now) }
{
    testkit_packets::testkit_sum(start, bytes)
}

// `testkit_packets::testkit_checksum`
#[unsafe(no_mangle)]
pub extern "C" fn testkit_checksum(bytes: &[u8]) -> u16
    ensures { result ≡ checksum_of bytes.now }
{
    testkit_packets::testkit_checksum(bytes)
}

// `testkit_packets::testkit_verify`
#[unsafe(no_mangle)]
pub extern "C" fn testkit_verify(bytes: &[u8]) -> bool
    ensures says { result ≡ eqb (fold_of (sum_of bytes.now)) 65535 }
    ensures found { result ≡ true → Undamaged bytes.now }
{
    testkit_packets::testkit_verify(bytes)
}

// `testkit_packets::testkit_build`
#[unsafe(no_mangle)]
pub extern "C" fn testkit_build(
    version: u8,
    src: &[u8; 16],
    dst: &[u8; 16],
    src_port: u16,
    dst_port: u16,
    sequence: u64,
    send_timestamp_ns: u64,
    out: &mut [u8],
) -> TestkitWritten
    ensures answer { result ≡ written_numbers (writing (build_of
        (flow_of version src.now dst.now src_port dst_port)
        sequence send_timestamp_ns) out.old).outcome }
    ensures buffer { out.new
        ≡ (writing (build_of (flow_of version src.now dst.now src_port dst_port)
        sequence send_timestamp_ns) out.old).buffer }
{
    testkit_packets::testkit_build(
        version,
        src,
        dst,
        src_port,
        dst_port,
        sequence,
        send_timestamp_ns,
        out,
    )
}

// `testkit_packets::testkit_echo`
#[unsafe(no_mangle)]
pub extern "C" fn testkit_echo(tpdu: &[u8], out: &mut [u8]) -> TestkitWritten
    ensures answer { result ≡ written_numbers (writing_of (echo_of tpdu.now) out.old).outcome }
    ensures buffer { out.new ≡ (writing_of (echo_of tpdu.now) out.old).buffer }
{
    testkit_packets::testkit_echo(tpdu, out)
}

// `testkit_packets::testkit_decode`
#[unsafe(no_mangle)]
pub extern "C" fn testkit_decode(tpdu: &[u8], src: &mut [u8; 16], dst: &mut [u8; 16]) -> TestkitTpdu
    ensures answer { result ≡ testkit_tpdu (tpdu_numbers (read_of tpdu.now)) }
    ensures source { src.new ≡ source_left (read_of tpdu.now) src.old }
    ensures destination { dst.new ≡ destination_left (read_of tpdu.now) dst.old }
{
    testkit_packets::testkit_decode(tpdu, src, dst)
}

// `testkit_packets::testkit_generate`
#[unsafe(no_mangle)]
pub extern "C" fn testkit_generate(
    version: u8,
    src: &[u8; 16],
    dst: &[u8; 16],
    src_port: u16,
    dst_port: u16,
    plan: TrafficPlan,
    next_sequence: &mut u64,
    out: &mut [u8],
) -> TestkitWritten
    ensures { GeneratedStep result next_sequence.new out.new
        (generate_of (flow_of version src.now dst.now src_port dst_port) plan
        next_sequence.old out.old) }
{
    testkit_packets::testkit_generate(
        version,
        src,
        dst,
        src_port,
        dst_port,
        plan,
        next_sequence,
        out,
    )
}

// `testkit_packets::testkit_forecast`
#[unsafe(no_mangle)]
pub extern "C" fn testkit_forecast(
    version: u8,
    plan: TrafficPlan,
    next_sequence: u64,
) -> TestkitPlanForecast
    ensures { result ≡ forecast_numbers (forecast_of (version_numbered version) plan next_sequence) }
{
    testkit_packets::testkit_forecast(version, plan, next_sequence)
}

// `testkit_packets::testkit_validate_elements`
#[unsafe(no_mangle)]
pub extern "C" fn testkit_validate_elements(
    payload: &[u8],
    peer_address: &mut [u8; 16],
) -> TestkitElements
    ensures answer { result ≡ elements_numbers (indication_of payload.now) }
    ensures address { peer_address.new
        ≡ address_left (indication_of payload.now) peer_address.old }
{
    testkit_packets::testkit_validate_elements(payload, peer_address)
}

// `testkit_sheet::testkit_record_sent`
#[unsafe(no_mangle)]
pub extern "C" fn testkit_record_sent(
    sequences: &mut [u64],
    send_timestamps: &mut [u64],
    latencies: &mut [u64],
    marks: &mut [u8],
    arrival_timestamps: &mut [u64],
    counts: ObserverCounts,
    sequence: u64,
    send_timestamp_ns: u64,
) -> TestkitRecorded
    ensures { Records (written_sheet sequences send_timestamps latencies marks arrival_timestamps) counts result
        (λ o. record_sent o sequence send_timestamp_ns) }
{
    testkit_sheet::testkit_record_sent(
        sequences,
        send_timestamps,
        latencies,
        marks,
        arrival_timestamps,
        counts,
        sequence,
        send_timestamp_ns,
    )
}

// `testkit_sheet::testkit_record_received_tpdu`
#[unsafe(no_mangle)]
pub extern "C" fn testkit_record_received_tpdu(
    sequences: &[u64],
    send_timestamps: &[u64],
    latencies: &mut [u64],
    marks: &mut [u8],
    arrival_timestamps: &mut [u64],
    counts: ObserverCounts,
    return_timestamp_ns: u64,
    tpdu: &[u8],
) -> TestkitRecorded
    ensures { Records (marked_sheet sequences send_timestamps latencies marks arrival_timestamps) counts result
        (λ o. record_received_tpdu o return_timestamp_ns tpdu.now) }
{
    testkit_sheet::testkit_record_received_tpdu(
        sequences,
        send_timestamps,
        latencies,
        marks,
        arrival_timestamps,
        counts,
        return_timestamp_ns,
        tpdu,
    )
}

// `testkit_sheet::testkit_record_sent_plan`
#[unsafe(no_mangle)]
pub extern "C" fn testkit_record_sent_plan(
    sequences: &mut [u64],
    send_timestamps: &mut [u64],
    latencies: &mut [u64],
    marks: &mut [u8],
    arrival_timestamps: &mut [u64],
    counts: ObserverCounts,
    plan: TrafficPlan,
    next_sequence: u64,
) -> TestkitRecorded
    ensures { Records (written_sheet sequences send_timestamps latencies marks arrival_timestamps) counts result
        (λ o. record_sent_plan o plan next_sequence) }
{
    testkit_sheet::testkit_record_sent_plan(
        sequences,
        send_timestamps,
        latencies,
        marks,
        arrival_timestamps,
        counts,
        plan,
        next_sequence,
    )
}

// `testkit_sheet::testkit_record_received_tpdus`
#[unsafe(no_mangle)]
pub extern "C" fn testkit_record_received_tpdus(
    sequences: &[u64],
    send_timestamps: &[u64],
    latencies: &mut [u64],
    marks: &mut [u8],
    arrival_timestamps: &mut [u64],
    counts: ObserverCounts,
    return_timestamps: &[u64],
    lengths: &[usize],
    tpdus: &[u8],
    returned: &mut [u64],
    numbers: &mut [u8],
) -> TestkitReturnsRecorded
    ensures { RecordsReturns (marked_sheet sequences send_timestamps latencies marks arrival_timestamps) counts result
        returned numbers
        (λ o. record_received_tpdus o return_timestamps.now lengths.now tpdus.now) }
{
    testkit_sheet::testkit_record_received_tpdus(
        sequences,
        send_timestamps,
        latencies,
        marks,
        arrival_timestamps,
        counts,
        return_timestamps,
        lengths,
        tpdus,
        returned,
        numbers,
    )
}

// `testkit_sheet::testkit_record_return_gtpu_datagram`
#[unsafe(no_mangle)]
pub extern "C" fn testkit_record_return_gtpu_datagram(
    sequences: &[u64],
    send_timestamps: &[u64],
    latencies: &mut [u64],
    marks: &mut [u8],
    arrival_timestamps: &mut [u64],
    counts: ObserverCounts,
    return_timestamp_ns: u64,
    message_type: u8,
    payload: &[u8],
) -> TestkitDatagramRecorded
    ensures { RecordsDatagram (marked_sheet sequences send_timestamps latencies marks arrival_timestamps) counts result
        payload.now
        (λ o. record_return_message o return_timestamp_ns message_type payload.now) }
{
    testkit_sheet::testkit_record_return_gtpu_datagram(
        sequences,
        send_timestamps,
        latencies,
        marks,
        arrival_timestamps,
        counts,
        return_timestamp_ns,
        message_type,
        payload,
    )
}

// `testkit_sheet::testkit_report`
#[unsafe(no_mangle)]
pub extern "C" fn testkit_report(
    sequences: &[u64],
    send_timestamps: &[u64],
    latencies: &[u64],
    marks: &[u8],
    arrival_timestamps: &[u64],
    counts: ObserverCounts,
    window_start_ns: u64,
    window_end_ns: u64,
    budget: PacketContinuityBudget,
) -> TestkitContinuityReport
    ensures { result ≡ report_numbers
        (reporting (lent (sheet sequences send_timestamps latencies marks arrival_timestamps) counts)
        window_start_ns window_end_ns budget) }
{
    testkit_sheet::testkit_report(
        sequences,
        send_timestamps,
        latencies,
        marks,
        arrival_timestamps,
        counts,
        window_start_ns,
        window_end_ns,
        budget,
    )
}

// `testkit_sheet::testkit_judge_report`
#[unsafe(no_mangle)]
pub extern "C" fn testkit_judge_report(
    report: TestkitContinuityReport,
    budget: PacketContinuityBudget,
) -> TestkitVerdict
    ensures { result ≡ judging report budget }
{
    testkit_sheet::testkit_judge_report(report, budget)
}

// `testkit_reflector::testkit_register_session`
#[unsafe(no_mangle)]
pub extern "C" fn testkit_register_session(
    sessions: &mut [ReflectorSession],
    used: usize,
    max_sessions: usize,
    session: ReflectorSession,
) -> TestkitRegistered
    ensures { RegistersNumbers result sessions.new
        (register_session (table_of sessions.old used max_sessions) session) }
{
    testkit_reflector::testkit_register_session(sessions, used, max_sessions, session)
}

// `testkit_reflector::testkit_remove_session`
#[unsafe(no_mangle)]
pub extern "C" fn testkit_remove_session(
    sessions: &mut [ReflectorSession],
    used: usize,
    max_sessions: usize,
    local_teid: u32,
) -> TestkitRemoved
    ensures { RemovesNumbers result sessions.new
        (remove_session (table_of sessions.old used max_sessions) local_teid) }
{
    testkit_reflector::testkit_remove_session(sessions, used, max_sessions, local_teid)
}

// `testkit_reflector::testkit_handle_datagram`
#[unsafe(no_mangle)]
pub extern "C" fn testkit_handle_datagram(
    sessions: &[ReflectorSession],
    used: usize,
    config: TestkitReflectorConfig,
    state: ReflectorState,
    source: LentSocketAddr,
    message: TestkitGtpuMessage,
    payload: &[u8],
    out: &mut [u8],
) -> TestkitHandled
    ensures { AnswersNumbers result out.new
        (handle_datagram sessions.now used (config_of config) state (value_of source)
        (message_of message) payload.now out.old)
        out.old }
{
    testkit_reflector::testkit_handle_datagram(
        sessions, used, config, state, source, message, payload, out,
    )
}
