// The C interface to packets: each call under the prefix `testkit_`, on numbers and lent buffers, with the call's own
// contract. A slice passes as a pointer and a length, an address as a pointer to its bytes, the generator's next
// sequence as a pointer to it. A refusal is its number, and 0 is none.
#![tactic(auto)]

ghost use Rattle.std.specs.Prelude.{◌≡◌, ◌+◌, true, eqb};
ghost use Rattle.checksum.specs.Sum.{sum_of, fold_of, checksum_of};
ghost use Rattle.checksum.specs.Claims.{Undamaged};
ghost use Rattle.error.specs.Answer.{answered};
ghost use Rattle.measurement.specs.Answer.{writing, writing_of};
ghost use Rattle.measurement.specs.Flow.{version_numbered};
ghost use Rattle.measurement_packet.specs.Packet.{build_of};
ghost use Rattle.measurement_reading.specs.Read.{read_of};
ghost use Rattle.measurement_damage.specs.Echo.{echo_of};
ghost use Rattle.measurement_decode.specs.Numbers.{tpdu_numbers, source_left, destination_left};
ghost use Rattle.traffic.specs.Generate.{generate_of};
ghost use Rattle.forecast.specs.Forecast.{forecast_of};
ghost use Rattle.forecast.specs.Answer.{forecast_means};
ghost use Rattle.gtpu.specs.Indication.{indication_of};
ghost use Rattle.testkit_packets.specs.Interface.{version_of, flow_of, written_numbers, testkit_tpdu, GeneratedStep};
ghost use Rattle.testkit_packets.specs.Interface.{without_last, forecast_numbers, elements_numbers, address_left};
ghost use Rattle.testkit_packets.specs.Claims.{ElementsReadBack};

use error::Refusal;
use forecast::PlannedPackets;
use gtpu::RefusedTunnel;
use measurement::{InnerIpFlow, IpVersion};
use measurement_decode::TpduNumbers;
use plan::TrafficPlan;

// The version of the interface. The major version rises if a program may have to be changed, otherwise the minor if
// something was added, otherwise the patch (include/testkit.h).
pub const VERSION_MAJOR: u32 = 5;

pub const VERSION_MINOR: u32 = 0;

pub const VERSION_PATCH: u32 = 0;

// The version in one number.
#[unsafe(no_mangle)]
pub extern "C" fn testkit_version() -> u32
    ensures { result ≡ version_of 5 0 0 }
{
    VERSION_MAJOR * 65536 + VERSION_MINOR * 256 + VERSION_PATCH
}

// What a call that writes into a lent buffer answers: 0 and how many bytes it wrote, or a refusal's number and 0 bytes.
#[repr(C)]
#[derive(Clone, Copy, Debug, PartialEq, Eq)]
pub struct TestkitWritten {
    pub number: u8,
    pub bytes: usize,
}

impl From<Result<usize, Refusal>> for TestkitWritten {
    ghost from_gives = { λ answer written. written ≡ written_numbers (answered answer) };

    fn from(answer: Result<usize, Refusal>) -> Self {
        match answer {
            Ok(bytes) => Self { number: 0, bytes },
            Err(refusal) => Self {
                number: refusal.number(),
                bytes: 0,
            },
        }
    }
}

// What reading answers: 0 and the values, or a refusal's number and zeros beside version 4. `version` is 4 or 6.
#[repr(C)]
#[derive(Clone, Copy, Debug, PartialEq, Eq)]
pub struct TestkitTpdu {
    pub number: u8,
    pub version: u8,
    pub src_port: u16,
    pub dst_port: u16,
    pub sequence: u64,
    pub send_timestamp_ns: u64,
}

impl From<Result<TpduNumbers, Refusal>> for TestkitTpdu {
    ghost from_gives = { λ answer tpdu. tpdu ≡ testkit_tpdu (answered answer) };

    fn from(answer: Result<TpduNumbers, Refusal>) -> Self {
        match answer {
            Ok(values) => Self {
                number: 0,
                version: values.version.number(),
                src_port: values.src_port,
                dst_port: values.dst_port,
                sequence: values.sequence,
                send_timestamp_ns: values.send_timestamp_ns,
            },
            Err(refusal) => Self {
                number: refusal.number(),
                version: IpVersion::V4.number(),
                src_port: 0,
                dst_port: 0,
                sequence: 0,
                send_timestamp_ns: 0,
            },
        }
    }
}

// What a plan will be: 0 and its bytes, with the last packet's sequence and send time where it has one; or a refusal's
// number and zeros.
#[repr(C)]
#[derive(Clone, Copy, Debug, PartialEq, Eq)]
pub struct TestkitPlanForecast {
    pub number: u8,
    pub has_last: bool,
    pub bytes: usize,
    pub last_sequence: u64,
    pub last_send_timestamp_ns: u64,
}

impl TestkitPlanForecast {
    // No last packet: 0, or a refusal's number.
    fn without_last(number: u8) -> Self
        ensures { result ≡ without_last number 0 }
    {
        Self {
            number,
            has_last: false,
            bytes: 0,
            last_sequence: 0,
            last_send_timestamp_ns: 0,
        }
    }
}

impl From<Result<Option<PlannedPackets>, Refusal>> for TestkitPlanForecast {
    ghost from_gives = { λ answer forecast. forecast ≡ forecast_numbers (forecast_means answer) };

    fn from(answer: Result<Option<PlannedPackets>, Refusal>) -> Self {
        match answer {
            Ok(Some(packets)) => Self {
                number: 0,
                has_last: true,
                bytes: packets.bytes,
                last_sequence: packets.last.sequence,
                last_send_timestamp_ns: packets.last.send_timestamp_ns,
            },
            Ok(None) => Self::without_last(0),
            Err(refusal) => Self::without_last(refusal.number()),
        }
    }
}

// What the walk over elements answers: 0, the version of the peer's address and the TEID; or a refusal's number,
// version 4 and TEID 0. `version` is 4 or 6.
#[repr(C)]
#[derive(Clone, Copy, Debug, PartialEq, Eq)]
pub struct TestkitElements {
    pub number: u8,
    pub version: u8,
    pub teid: u32,
}

impl From<Result<RefusedTunnel, Refusal>> for TestkitElements {
    ghost from_gives = { λ answer elements. elements ≡ elements_numbers (answered answer) };

    fn from(answer: Result<RefusedTunnel, Refusal>) -> Self {
        match answer {
            Ok(tunnel) => Self {
                number: 0,
                version: tunnel.version.number(),
                teid: tunnel.teid,
            },
            Err(refusal) => Self {
                number: refusal.number(),
                version: IpVersion::V4.number(),
                teid: 0,
            },
        }
    }
}

// The flow that C passes in parts.
fn flow_of(version: u8, src: &[u8; 16], dst: &[u8; 16], src_port: u16, dst_port: u16) -> InnerIpFlow
    ensures { result ≡ flow_of version src.now dst.now src_port dst_port }
{
    InnerIpFlow {
        version: version.into(),
        src: *src,
        dst: *dst,
        src_port,
        dst_port,
    }
}

// `checksum::sum`
#[unsafe(no_mangle)]
pub extern "C" fn testkit_sum(start: u16, bytes: &[u8]) -> u16
    ensures { result ≡ fold_of (start + sum_of bytes.now) }
{
    checksum::sum(u64::from(start), bytes)
}

// `checksum::checksum`
#[unsafe(no_mangle)]
pub extern "C" fn testkit_checksum(bytes: &[u8]) -> u16
    ensures { result ≡ checksum_of bytes.now }
{
    checksum::checksum(bytes)
}

// `checksum::verify`
#[unsafe(no_mangle)]
pub extern "C" fn testkit_verify(bytes: &[u8]) -> bool
    ensures says { result ≡ eqb (fold_of (sum_of bytes.now)) 65535 }
    ensures found { result ≡ true → Undamaged bytes.now }
{
    checksum::verify(bytes)
}

// `measurement_build::build_measurement_tpdu`
#[unsafe(no_mangle)]
pub extern "C" fn testkit_build(
    version: u8,
    src: &[u8; 16],
    dst: &[u8; 16],
    src_port: u16,
    dst_port: u16,
    sequence: u64,
    send_timestamp_ns: u64,
    out: &mut [u8],
) -> TestkitWritten
    ensures answer { result ≡ written_numbers (writing (build_of
        (flow_of version src.now dst.now src_port dst_port)
        sequence send_timestamp_ns) out.old).outcome }
    ensures buffer { out.new
        ≡ (writing (build_of (flow_of version src.now dst.now src_port dst_port)
        sequence send_timestamp_ns) out.old).buffer }
{
    let flow = flow_of(version, src, dst, src_port, dst_port);
    measurement_build::build_measurement_tpdu(flow, sequence, send_timestamp_ns, out).into()
}

// `measurement_echo::echo_tpdu`
#[unsafe(no_mangle)]
pub extern "C" fn testkit_echo(tpdu: &[u8], out: &mut [u8]) -> TestkitWritten
    ensures answer { result ≡ written_numbers (writing_of (echo_of tpdu.now) out.old).outcome }
    ensures buffer { out.new ≡ (writing_of (echo_of tpdu.now) out.old).buffer }
{
    measurement_echo::echo_tpdu(tpdu, out).into()
}

// `measurement_decode::decode_into`
#[unsafe(no_mangle)]
pub extern "C" fn testkit_decode(tpdu: &[u8], src: &mut [u8; 16], dst: &mut [u8; 16]) -> TestkitTpdu
    ensures answer { result ≡ testkit_tpdu (tpdu_numbers (read_of tpdu.now)) }
    ensures source { src.new ≡ source_left (read_of tpdu.now) src.old }
    ensures destination { dst.new ≡ destination_left (read_of tpdu.now) dst.old }
{
    measurement_decode::decode_into(tpdu, src, dst).into()
}

// `traffic::generate_from`
#[unsafe(no_mangle)]
pub extern "C" fn testkit_generate(
    version: u8,
    src: &[u8; 16],
    dst: &[u8; 16],
    src_port: u16,
    dst_port: u16,
    plan: TrafficPlan,
    next_sequence: &mut u64,
    out: &mut [u8],
) -> TestkitWritten
    ensures { GeneratedStep result next_sequence.new out.new
        (generate_of (flow_of version src.now dst.now src_port dst_port) plan
        next_sequence.old out.old) }
{
    let flow = flow_of(version, src, dst, src_port, dst_port);
    traffic::generate_from(next_sequence, flow, plan, out).into()
}

// `forecast::forecast`
#[unsafe(no_mangle)]
pub extern "C" fn testkit_forecast(
    version: u8,
    plan: TrafficPlan,
    next_sequence: u64,
) -> TestkitPlanForecast
    ensures { result ≡ forecast_numbers (forecast_of (version_numbered version) plan next_sequence) }
{
    forecast::forecast(version.into(), plan, next_sequence).into()
}

// `gtpu::validate_error_indication_ies`, with the peer's address in a lent array, which a refusal leaves as it was.
#[unsafe(no_mangle)]
pub extern "C" fn testkit_validate_elements(
    payload: &[u8],
    peer_address: &mut [u8; 16],
) -> TestkitElements
    ensures answer { result ≡ elements_numbers (indication_of payload.now) }
    ensures address { peer_address.new
        ≡ address_left (indication_of payload.now) peer_address.old }
{
    let answer = gtpu::validate_error_indication_ies(payload);
    if let Ok(tunnel) = answer {
        peer_address.copy_from_slice(&tunnel.peer_address);
    }
    answer.into()
}

// Carries that C can tell from the answer and the lent address which tunnel was named, or the refusal.
pub fn elements_read_back()
    ensures { ElementsReadBack }
{}
