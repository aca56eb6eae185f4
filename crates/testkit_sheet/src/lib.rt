// The C interface to the run sheet, its report and the verdict on it: each call under the prefix `testkit_`, on numbers
// and lent columns, with the call's own contract. A slice passes as a pointer and a length; counts, plans and budgets
// go by value, as the crates below have them. A refusal is its number, and 0 is none.
#![tactic(auto)]

ghost use Rattle.std.specs.Prelude.{◌≡◌};
ghost use Rattle.error.specs.Answer.{answered};
ghost use Rattle.observer.specs.Sending.{record_sent};
ghost use Rattle.observer.specs.Answer.{lent};
ghost use Rattle.sent_plan.specs.SendingPlan.{record_sent_plan};
ghost use Rattle.return_calls.specs.Returns.{record_received_tpdu, record_return_message};
ghost use Rattle.return_calls.specs.Answer.{message_means, tunnel_told};
ghost use Rattle.received_tpdus.specs.Received.{record_received_tpdus};
ghost use Rattle.report.specs.Report.{reporting};
ghost use Rattle.testkit_sheet.specs.Interface.{sheet, marked_sheet, written_sheet};
ghost use Rattle.testkit_sheet.specs.Interface.{recorded_numbers, returns_numbers, datagram_numbers, report_numbers};
ghost use Rattle.testkit_sheet.specs.Interface.{Records, RecordsDatagram, RecordsReturns};
ghost use Rattle.testkit_sheet.specs.Claims.{OwnBudget, PassesByFigures, VerdictsTold, DatagramsTold};
ghost use Rattle.testkit_sheet.specs.Verdict.{held_to, verdict_numbers, judging};

use error::Refusal;
use evidence::{LatencySummary, PacketContinuityBudget, PacketContinuityReport};
use gtpu::GtpuMessage;
use measurement::IpVersion;
use observer::ObserverCounts;
use plan::TrafficPlan;
use report::LongestRuns;
use return_calls::GtpuReturnDatagramOutcome;
use rows::{MarkedSheet, Sheet, WrittenSheet};
use verdict::Verdict;

// What an observer's call answers: 0 or a refusal's number, and the counts as it leaves them.
#[repr(C)]
#[derive(Clone, Copy, Debug, PartialEq, Eq)]
pub struct TestkitRecorded {
    pub counts: ObserverCounts,
    pub number: u8,
}

impl TestkitRecorded {
    fn new(answer: Result<(), Refusal>, counts: ObserverCounts) -> Self
        ensures { result ≡ recorded_numbers (answered answer) counts }
    {
        match answer {
            Ok(()) => Self { counts, number: 0 },
            Err(refusal) => Self {
                counts,
                number: refusal.number(),
            },
        }
    }
}

// `observer::record_sent`
#[unsafe(no_mangle)]
pub extern "C" fn testkit_record_sent(
    sequences: &mut [u64],
    send_timestamps: &mut [u64],
    latencies: &mut [u64],
    marks: &mut [u8],
    arrival_timestamps: &mut [u64],
    mut counts: ObserverCounts,
    sequence: u64,
    send_timestamp_ns: u64,
) -> TestkitRecorded
    ensures { Records (written_sheet sequences send_timestamps latencies marks arrival_timestamps) counts result
        (λ o. record_sent o sequence send_timestamp_ns) }
{
    let mut sheet = WrittenSheet {
        sequences,
        send_timestamps,
        latencies,
        marks,
        arrival_timestamps,
    };
    let answer = observer::record_sent(&mut sheet, &mut counts, sequence, send_timestamp_ns);
    TestkitRecorded::new(answer, counts)
}

// `return_calls::record_received_tpdu`
#[unsafe(no_mangle)]
pub extern "C" fn testkit_record_received_tpdu(
    sequences: &[u64],
    send_timestamps: &[u64],
    latencies: &mut [u64],
    marks: &mut [u8],
    arrival_timestamps: &mut [u64],
    mut counts: ObserverCounts,
    return_timestamp_ns: u64,
    tpdu: &[u8],
) -> TestkitRecorded
    ensures { Records (marked_sheet sequences send_timestamps latencies marks arrival_timestamps) counts result
        (λ o. record_received_tpdu o return_timestamp_ns tpdu.now) }
{
    let mut sheet = MarkedSheet {
        sequences,
        send_timestamps,
        latencies,
        marks,
        arrival_timestamps,
    };
    let answer = return_calls::record_received_tpdu(
        &mut sheet,
        &mut counts,
        return_timestamp_ns,
        tpdu,
    );
    TestkitRecorded::new(answer, counts)
}

// `sent_plan::record_sent_plan`
#[unsafe(no_mangle)]
pub extern "C" fn testkit_record_sent_plan(
    sequences: &mut [u64],
    send_timestamps: &mut [u64],
    latencies: &mut [u64],
    marks: &mut [u8],
    arrival_timestamps: &mut [u64],
    mut counts: ObserverCounts,
    plan: TrafficPlan,
    next_sequence: u64,
) -> TestkitRecorded
    ensures { Records (written_sheet sequences send_timestamps latencies marks arrival_timestamps) counts result
        (λ o. record_sent_plan o plan next_sequence) }
{
    let mut sheet = WrittenSheet {
        sequences,
        send_timestamps,
        latencies,
        marks,
        arrival_timestamps,
    };
    let answer = sent_plan::record_sent_plan(&mut sheet, &mut counts, plan, next_sequence);
    TestkitRecorded::new(answer, counts)
}

// What a list of returns answers: 0 and how many returns it had, or the number of a refusal of the whole list and 0;
// and the counts afterwards.
#[repr(C)]
#[derive(Clone, Copy)]
pub struct TestkitReturnsRecorded {
    pub counts: ObserverCounts,
    pub number: u8,
    pub returns: usize,
}

impl TestkitReturnsRecorded {
    fn new(answer: Result<usize, Refusal>, counts: ObserverCounts) -> Self
        ensures { result ≡ returns_numbers (answered answer) counts }
    {
        match answer {
            Ok(returns) => Self {
                counts,
                number: 0,
                returns,
            },
            Err(refusal) => Self {
                counts,
                number: refusal.number(),
                returns: 0,
            },
        }
    }
}

// `received_tpdus::record_received_tpdus`
#[unsafe(no_mangle)]
pub extern "C" fn testkit_record_received_tpdus(
    sequences: &[u64],
    send_timestamps: &[u64],
    latencies: &mut [u64],
    marks: &mut [u8],
    arrival_timestamps: &mut [u64],
    mut counts: ObserverCounts,
    return_timestamps: &[u64],
    lengths: &[usize],
    tpdus: &[u8],
    returned: &mut [u64],
    numbers: &mut [u8],
) -> TestkitReturnsRecorded
    ensures { RecordsReturns (marked_sheet sequences send_timestamps latencies marks arrival_timestamps) counts result
        returned numbers
        (λ o. record_received_tpdus o return_timestamps.now lengths.now tpdus.now) }
{
    let mut sheet = MarkedSheet {
        sequences,
        send_timestamps,
        latencies,
        marks,
        arrival_timestamps,
    };
    let answer = received_tpdus::record_received_tpdus(
        &mut sheet,
        &mut counts,
        return_timestamps,
        lengths,
        tpdus,
        returned,
        numbers,
    );
    TestkitReturnsRecorded::new(answer, counts)
}

// What a datagram that came back was: numbers, since the C interface has no enum (include/testkit.h).
pub const OUTCOME_REFUSED: u8 = 0;

pub const OUTCOME_MEASUREMENT_TPDU: u8 = 1;

pub const OUTCOME_ERROR_INDICATION: u8 = 2;

pub const OUTCOME_ECHO_RESPONSE: u8 = 3;

pub const OUTCOME_IGNORED: u8 = 4;

// What is answered to a datagram: 0 or a refusal's number; what it was; the type of an ignored message, else 0; the
// counts; and the tunnel that an accepted Error Indication names, else zeros beside version 4.
#[repr(C)]
#[derive(Clone, Copy, Debug, PartialEq, Eq)]
pub struct TestkitDatagramRecorded {
    pub counts: ObserverCounts,
    pub number: u8,
    pub outcome: u8,
    pub message_type: u8,
    pub peer_version: u8,
    pub refused_teid: u32,
    pub peer_address: [u8; 16],
}

impl TestkitDatagramRecorded {
    fn new(answer: Result<GtpuReturnDatagramOutcome, Refusal>, counts: ObserverCounts) -> Self
        ensures { result ≡ datagram_numbers (message_means answer) (tunnel_told answer) counts }
    {
        let mut recorded = Self {
            counts,
            number: 0,
            outcome: OUTCOME_REFUSED,
            message_type: 0,
            peer_version: IpVersion::V4.number(),
            refused_teid: 0,
            peer_address: [0; 16],
        };
        match answer {
            Err(refusal) => recorded.number = refusal.number(),
            Ok(GtpuReturnDatagramOutcome::MeasurementTpdu) => {
                recorded.outcome = OUTCOME_MEASUREMENT_TPDU;
            }
            Ok(GtpuReturnDatagramOutcome::ErrorIndication(tunnel)) => {
                let peer_address = tunnel.peer_address;
                recorded.outcome = OUTCOME_ERROR_INDICATION;
                recorded.peer_version = tunnel.version.number();
                recorded.refused_teid = tunnel.teid;
                recorded.peer_address = peer_address;
            }
            Ok(GtpuReturnDatagramOutcome::EchoResponse) => {
                recorded.outcome = OUTCOME_ECHO_RESPONSE;
            }
            Ok(GtpuReturnDatagramOutcome::Ignored(message_type)) => {
                recorded.outcome = OUTCOME_IGNORED;
                recorded.message_type = message_type;
            }
        }
        recorded
    }
}

// `return_calls::record_return_gtpu_datagram`. Of the parsed header it uses only the type, so C passes only that.
#[unsafe(no_mangle)]
pub extern "C" fn testkit_record_return_gtpu_datagram(
    sequences: &[u64],
    send_timestamps: &[u64],
    latencies: &mut [u64],
    marks: &mut [u8],
    arrival_timestamps: &mut [u64],
    mut counts: ObserverCounts,
    return_timestamp_ns: u64,
    message_type: u8,
    payload: &[u8],
) -> TestkitDatagramRecorded
    ensures { RecordsDatagram (marked_sheet sequences send_timestamps latencies marks arrival_timestamps) counts result
        payload.now
        (λ o. record_return_message o return_timestamp_ns message_type payload.now) }
{
    let mut sheet = MarkedSheet {
        sequences,
        send_timestamps,
        latencies,
        marks,
        arrival_timestamps,
    };
    let message = GtpuMessage {
        message_type,
        teid: 0,
        sequence_number: None,
    };
    let answer = return_calls::record_return_gtpu_datagram(
        &mut sheet,
        &mut counts,
        return_timestamp_ns,
        message,
        payload,
    );
    TestkitDatagramRecorded::new(answer, counts)
}

// The report in numbers: 0 and the report, or a refusal's number and zeros.
#[repr(C)]
#[derive(Clone, Copy, Debug, PartialEq, Eq)]
pub struct TestkitContinuityReport {
    pub number: u8,
    pub window_start_ns: u64,
    pub window_end_ns: u64,
    pub sent_packets: u64,
    pub received_packets: u64,
    pub lost_packets: u64,
    pub duplicate_packets: u64,
    pub out_of_order_packets: u64,
    pub gtpu_error_indications: u64,
    pub max_consecutive_lost_packets: u64,
    pub max_gap_duration_ns: u64,
    pub has_latency: bool,
    pub min_ns: u64,
    pub max_ns: u64,
    pub avg_ns: u64,
    pub budget: PacketContinuityBudget,
    pub forwarding_proven: bool,
    pub packet_continuity_proven: bool,
}

impl From<Result<PacketContinuityReport, Refusal>> for TestkitContinuityReport {
    ghost from_gives = { λ answer numbers. numbers ≡ report_numbers (answered answer) };

    fn from(answer: Result<PacketContinuityReport, Refusal>) -> Self {
        match answer {
            Ok(report) => {
                let latency = report.latency.unwrap_or(LatencySummary {
                    min_ns: 0,
                    max_ns: 0,
                    avg_ns: 0,
                });
                let budget = report.budget;
                Self {
                    number: 0,
                    window_start_ns: report.window_start_ns,
                    window_end_ns: report.window_end_ns,
                    sent_packets: report.sent_packets,
                    received_packets: report.received_packets,
                    lost_packets: report.lost_packets,
                    duplicate_packets: report.duplicate_packets,
                    out_of_order_packets: report.out_of_order_packets,
                    gtpu_error_indications: report.gtpu_error_indications,
                    max_consecutive_lost_packets: report.max_consecutive_lost_packets,
                    max_gap_duration_ns: report.max_gap_duration_ns,
                    has_latency: report.latency.is_some(),
                    min_ns: latency.min_ns,
                    max_ns: latency.max_ns,
                    avg_ns: latency.avg_ns,
                    budget,
                    forwarding_proven: report.forwarding_proven,
                    packet_continuity_proven: report.packet_continuity_proven,
                }
            }
            Err(refusal) => Self {
                number: refusal.number(),
                window_start_ns: 0,
                window_end_ns: 0,
                sent_packets: 0,
                received_packets: 0,
                lost_packets: 0,
                duplicate_packets: 0,
                out_of_order_packets: 0,
                gtpu_error_indications: 0,
                max_consecutive_lost_packets: 0,
                max_gap_duration_ns: 0,
                has_latency: false,
                min_ns: 0,
                max_ns: 0,
                avg_ns: 0,
                budget: PacketContinuityBudget::zero_loss(),
                forwarding_proven: false,
                packet_continuity_proven: false,
            },
        }
    }
}

// `report::report`
#[unsafe(no_mangle)]
pub extern "C" fn testkit_report(
    sequences: &[u64],
    send_timestamps: &[u64],
    latencies: &[u64],
    marks: &[u8],
    arrival_timestamps: &[u64],
    counts: ObserverCounts,
    window_start_ns: u64,
    window_end_ns: u64,
    budget: PacketContinuityBudget,
) -> TestkitContinuityReport
    ensures { result ≡ report_numbers
        (reporting (lent (sheet sequences send_timestamps latencies marks arrival_timestamps) counts)
        window_start_ns window_end_ns budget) }
{
    let sheet = Sheet {
        sequences,
        send_timestamps,
        latencies,
        marks,
        arrival_timestamps,
    };
    report::report(sheet, counts, window_start_ns, window_end_ns, budget).into()
}

// What a verdict says: pass, or the first reason why not. Numbers, since the C interface has no enum.
pub const VERDICT_PASS: u8 = 0;

pub const VERDICT_NOTHING_RETURNED: u8 = 1;

pub const VERDICT_TOO_MANY_LOST: u8 = 2;

pub const VERDICT_TOO_MANY_IN_A_ROW: u8 = 3;

pub const VERDICT_OUTAGE_TOO_LONG: u8 = 4;

pub const VERDICT_ERROR_INDICATED: u8 = 5;

pub const VERDICT_NO_REPORT: u8 = 6;

// The verdict in numbers: the reason, the report's number that it is about and the budget's, 0 where it has none.
#[repr(C)]
#[derive(Clone, Copy)]
pub struct TestkitVerdict {
    pub reason: u8,
    pub measured: u64,
    pub allowed: u64,
}

impl From<Verdict> for TestkitVerdict {
    ghost from_gives = { λ verdict numbers. numbers ≡ verdict_numbers verdict };

    fn from(verdict: Verdict) -> Self {
        let (reason, measured, allowed) = match verdict {
            Verdict::Pass => (VERDICT_PASS, 0, 0),
            Verdict::NothingReturned => (VERDICT_NOTHING_RETURNED, 0, 0),
            Verdict::TooManyLost(lost, most) => (VERDICT_TOO_MANY_LOST, lost, most),
            Verdict::TooManyInARow(lost, most) => (VERDICT_TOO_MANY_IN_A_ROW, lost, most),
            Verdict::OutageTooLong(outage, most) => (VERDICT_OUTAGE_TOO_LONG, outage, most),
            Verdict::ErrorIndicated(indications) => (VERDICT_ERROR_INDICATED, indications, 0),
        };
        Self {
            reason,
            measured,
            allowed,
        }
    }
}

// The report that has these figures and this budget: what it says about forwarding and continuity is judged by them.
#[tactic(auto, unfolding(crate::specs::Verdict::latency_given))]
fn held_to(
    report: TestkitContinuityReport,
    budget: PacketContinuityBudget,
) -> PacketContinuityReport
    ensures { result ≡ held_to report budget }
{
    let summary = LatencySummary {
        min_ns: report.min_ns,
        max_ns: report.max_ns,
        avg_ns: report.avg_ns,
    };
    let worst = LongestRuns {
        packets: report.max_consecutive_lost_packets,
        duration: report.max_gap_duration_ns,
    };
    PacketContinuityReport {
        window_start_ns: report.window_start_ns,
        window_end_ns: report.window_end_ns,
        sent_packets: report.sent_packets,
        received_packets: report.received_packets,
        lost_packets: report.lost_packets,
        duplicate_packets: report.duplicate_packets,
        out_of_order_packets: report.out_of_order_packets,
        gtpu_error_indications: report.gtpu_error_indications,
        max_consecutive_lost_packets: report.max_consecutive_lost_packets,
        max_gap_duration_ns: report.max_gap_duration_ns,
        latency: report.has_latency.then_some(summary),
        budget,
        forwarding_proven: 0 < report.received_packets,
        packet_continuity_proven: report::within_budget(
            budget,
            report.lost_packets,
            worst,
            report.gtpu_error_indications,
        ),
    }
}

// `verdict::judge`, of the figures of a report against a budget that need not be its own.
#[tactic(auto, unfolding(crate::specs::Verdict::judging))]
#[unsafe(no_mangle)]
pub extern "C" fn testkit_judge_report(
    report: TestkitContinuityReport,
    budget: PacketContinuityBudget,
) -> TestkitVerdict
    ensures { result ≡ judging report budget }
{
    if report.number != 0 {
        return TestkitVerdict {
            reason: VERDICT_NO_REPORT,
            measured: 0,
            allowed: 0,
        };
    }
    verdict::judge(held_to(report, budget)).into()
}

// Carries that a report judged against its own budget gets the verdict that it gives by itself.
pub fn own_budget_gives_own_verdict()
    ensures { OwnBudget }
{}

// Carries that C is told PASS exactly where something returned and the figures are within the budget.
pub fn passes_by_figures()
    ensures { PassesByFigures }
{}

// Carries that the numbers tell verdicts apart, PASS from all others, and what datagrams were.
pub fn numbers_tell_apart()
    ensures { VerdictsTold × DatagramsTold }
{}
