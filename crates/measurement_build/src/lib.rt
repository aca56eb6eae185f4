// Building a measurement T-PDU into a lent buffer (leaf 3; `build_measurement_tpdu` of the Rust's measurement.rs).
#![tactic(auto)]

ghost use Rattle.std.specs.Prelude.{◌≡◌, ℕ, ◌+◌, ◌-◌, ◌/◌, ◌%◌, ◌^◌, ◌<◌, ◌≤◌, ◌++◌, length, take, drop};
ghost use Rattle.field.specs.Field.{bytes_at};
ghost use Rattle.checksum.specs.Sum.{sum_of, fold_of};
ghost use Rattle.measurement.specs.Answer.{wrote, writing};
ghost use Rattle.measurement.specs.declared.IpVersion.TheVariants.{V4};
ghost use Rattle.measurement_packet.specs.Packet.{ipv4_header, ipv6, nonzero, udp_segment, build_of};
ghost use Rattle.measurement_build.specs.Segment.{segment_over};

use error::Refusal;
use measurement::{InnerIpFlow, IpVersion, MeasurementHeader, layout};

// The IPv4 header's sum less the pseudo-header's. The addresses are in both and cancel out.
const IPV4_MORE: u64 = 0x4500 + 52 + 0x4011 - (measurement::UDP_PROTOCOL as u64) - 32;

// The sum of the words that every UDP segment has: the length, and the probe's tag.
const UDP_SAME: u64 = 32 + 0x4f50 + 0x4344 + 0x5054 + 0x4b31;

// The IPv4 header, row by row as in the diagram of RFC 791, section 3.1; the comments name the fields as it does. There
// are no Options. `pseudo`, added to any sum, folds to the same as the words of the pseudo-header.
fn write_ipv4_header(pseudo: u64, src: [u8; 16], dst: [u8; 16], out: &mut [u8])
    requires { (20 ≤ length out.old) × (pseudo < 2 ^ 36) }
    ensures { out.new
        ≡ ipv4_header (65535 - fold_of (0x8514 + pseudo)) (bytes_at 4 0 src) (bytes_at 4 0 dst)
        ++ drop 20 out.old }
{
    // Version, IHL, Type of Service, Total Length
    out[layout::IP_VERSION] = 0x45;
    out[layout::IPV4_TYPE_OF_SERVICE] = 0;
    out[layout::IPV4_TOTAL_LENGTH] = 0;
    out[layout::IPV4_TOTAL_LENGTH + 1] = 52;
    // Identification, Flags, Fragment Offset
    out[layout::IPV4_IDENTIFICATION] = 0;
    out[layout::IPV4_IDENTIFICATION + 1] = 0;
    out[layout::IPV4_FLAGS_AND_FRAGMENT_OFFSET] = 0;
    out[layout::IPV4_FLAGS_AND_FRAGMENT_OFFSET + 1] = 0;
    // Time to Live, Protocol, Header Checksum (0 until the sum is known)
    out[layout::IPV4_TIME_TO_LIVE] = 64;
    out[layout::IPV4_PROTOCOL] = measurement::UDP_PROTOCOL;
    out[layout::IPV4_HEADER_CHECKSUM] = 0;
    out[layout::IPV4_HEADER_CHECKSUM + 1] = 0;
    // Source Address
    out[layout::IPV4_SOURCE_ADDRESS] = src[0];
    out[layout::IPV4_SOURCE_ADDRESS + 1] = src[1];
    out[layout::IPV4_SOURCE_ADDRESS + 2] = src[2];
    out[layout::IPV4_SOURCE_ADDRESS + 3] = src[3];
    // Destination Address
    out[layout::IPV4_DESTINATION_ADDRESS] = dst[0];
    out[layout::IPV4_DESTINATION_ADDRESS + 1] = dst[1];
    out[layout::IPV4_DESTINATION_ADDRESS + 2] = dst[2];
    out[layout::IPV4_DESTINATION_ADDRESS + 3] = dst[3];
    // The sum of these fields, from their values: `IPV4_MORE + pseudo` folds to it. Then the Header Checksum.
    let sum = checksum::fold_u64(IPV4_MORE + pseudo);
    let checksum = 65535 - sum;
    out[layout::IPV4_HEADER_CHECKSUM] = field::high(checksum);
    out[layout::IPV4_HEADER_CHECKSUM + 1] = field::low(checksum);
}

// Copies `bytes` to the place `at` of `out`.
fn put(out: &mut [u8], at: usize, bytes: &[u8])
    requires { at + length bytes.now ≤ length out.old }
    ensures { out.new
        ≡ take at out.old
        ++ (bytes.now ++ drop (at + length bytes.now) out.old) }
{
    out[at..at + bytes.len()].copy_from_slice(bytes);
}

// The IPv6 header.
fn write_ipv6_header(src: [u8; 16], dst: [u8; 16], out: &mut [u8])
    requires { 40 ≤ length out.old }
    ensures { out.new ≡ ipv6 (bytes_at 16 0 src) (bytes_at 16 0 dst) ++ drop 40 out.old }
{
    // Version, traffic class and flow label (4), payload length (2), next header, hop limit.
    let first = [0x60, 0, 0, 0, 0, 32, measurement::UDP_PROTOCOL, 64];
    put(out, layout::IP_VERSION, &first);
    put(out, layout::IPV6_SOURCE_ADDRESS, &src);
    put(out, layout::IPV6_DESTINATION_ADDRESS, &dst);
}

// The checksum of a UDP segment from its sum: all ones where it would be 0.
fn nonzero_checksum(sum: u16) -> u16
    ensures { result ≡ nonzero (65535 - sum) }
{
    let checksum = 65535 - sum;
    if checksum == 0 {
        return 65535;
    }
    checksum
}

// The sum of a number's two halves: in any sum it folds to the same as the number.
fn halves(x: u64) -> u64
    ensures { (result ≡ x % 4294967296 + x / 4294967296) × (result < 2 ^ 33) }
{
    (x & 0xffff_ffff) + (x >> 32)
}

// A number that, added to any sum, folds to the same as the words of a UDP segment with a checksum field of 0.
fn segment_words(src_port: u16, dst_port: u16, header: MeasurementHeader) -> u64
    ensures { ((n : ℕ) → fold_of (n + result)
        ≡ fold_of (n + sum_of (udp_segment 0 src_port dst_port header.sequence header.send_timestamp_ns)))
        × (result < 2 ^ 35) }
{
    UDP_SAME
        + (src_port as u64)
        + (dst_port as u64)
        + halves(header.sequence)
        + halves(header.send_timestamp_ns)
}

// The UDP header and the probe, in the part of the buffer that starts after the IP header. `pseudo` is as for the IPv4
// header.
fn write_udp_segment(
    pseudo: u64,
    src_port: u16,
    dst_port: u16,
    header: MeasurementHeader,
    out: &mut [u8],
)
    requires { (32 ≤ length out.old) × (pseudo < 2 ^ 36) }
    ensures { out.new
        ≡ segment_over pseudo src_port dst_port header.sequence header.send_timestamp_ns
        ++ drop 32 out.old }
{
    let sum = checksum::fold_u64(pseudo + segment_words(src_port, dst_port, header));
    let checksum = nonzero_checksum(sum);
    // Source port, destination port, length, checksum.
    let ports = [
        field::high(src_port),
        field::low(src_port),
        field::high(dst_port),
        field::low(dst_port),
        0,
        32,
        field::high(checksum),
        field::low(checksum),
    ];
    let probe = header.encode();
    put(out, layout::UDP_SOURCE_PORT, &ports);
    put(out, layout::UDP_HEADER_BYTES, &probe);
}

// Builds the T-PDU at the front of `out`, and answers how many bytes it has.
pub fn build_measurement_tpdu(
    flow: InnerIpFlow,
    sequence: u64,
    send_timestamp_ns: u64,
    out: &mut [u8],
) -> Result<usize, Refusal>
    ensures { wrote result out.new
        ≡ writing (build_of flow sequence send_timestamp_ns) out.old }
{
    match flow.version {
        IpVersion::V4 => build_ipv4_tpdu(
            flow.src,
            flow.dst,
            flow.src_port,
            flow.dst_port,
            sequence,
            send_timestamp_ns,
            out,
        ),
        IpVersion::V6 => {
            if out.len() < measurement::IPV6_TPDU_BYTES {
                return Err(Refusal::OutputTooShort);
            }
            let header = MeasurementHeader {
                sequence,
                send_timestamp_ns,
            };
            write_ipv6_header(flow.src, flow.dst, out);
            let pseudo = measurement::pseudo_header_words(flow.version, flow.src, flow.dst, 32);
            write_udp_segment(
                pseudo,
                flow.src_port,
                flow.dst_port,
                header,
                &mut out[layout::IPV6_HEADER_BYTES..],
            );
            Ok(measurement::IPV6_TPDU_BYTES)
        }
    }
}

// The same for an IPv4 flow given in parts, for a caller that has the addresses in arrays.
pub fn build_ipv4_tpdu(
    src: [u8; 16],
    dst: [u8; 16],
    src_port: u16,
    dst_port: u16,
    sequence: u64,
    send_timestamp_ns: u64,
    out: &mut [u8],
) -> Result<usize, Refusal>
    ensures { wrote result out.new
        ≡ writing (build_of
        (record { version = V4; src = src; dst = dst; src_port = src_port; dst_port = dst_port })
        sequence send_timestamp_ns) out.old }
{
    if out.len() < measurement::IPV4_TPDU_BYTES {
        return Err(Refusal::OutputTooShort);
    }
    let header = MeasurementHeader {
        sequence,
        send_timestamp_ns,
    };
    let pseudo = measurement::pseudo_header_words(IpVersion::V4, src, dst, 32);
    write_ipv4_header(pseudo, src, dst, out);
    write_udp_segment(
        pseudo,
        src_port,
        dst_port,
        header,
        &mut out[layout::IPV4_HEADER_BYTES..],
    );
    Ok(measurement::IPV4_TPDU_BYTES)
}
