// Reading a measurement T-PDU (leaf 4; `decode_measurement_tpdu` of the Rust's measurement.rs). A T-PDU is judged
// first; its values are read only if it is accepted. A struct handed up through several functions would be copied each
// time. The tests stand in the order of the rows in specs/Read.antt of measurement_reading. A slice is sliced again
// where it is passed on, as in `checksum::sum`.
#![tactic(auto)]

ghost use Rattle.std.specs.Prelude.{◌≡◌, ℕ, ◌+◌, ◌*◌, ◌%◌, ◌^◌, ◌<◌, ◌≤◌, false, List, length};
ghost use Rattle.error.specs.Answer.{answered};
ghost use Rattle.field.specs.Field.{bytes_at, field};
ghost use Rattle.checksum.specs.Sum.{sum_of, fold_of};
ghost use Rattle.measurement.specs.Flow.{address_length, address, padded};
ghost use Rattle.measurement.specs.declared.IpVersion.{IpVersion};
ghost use Rattle.measurement_reading.specs.Read.{length_wrong, sum_wrong, tpdu_of, read_probe, read_udp};
ghost use Rattle.measurement_reading.specs.Read.{is_fragment, read_ipv4, read_ipv6, read_of};
ghost use Rattle.measurement_decode.specs.Part.{Part, Addresses, HasProbe};
ghost use Rattle.measurement_decode.specs.Numbers.{verdict, values_of, tpdu_numbers, source_left, destination_left};

use error::Refusal;
use measurement::{DecodedTpdu, InnerIpFlow, IpVersion, MeasurementHeader, layout};

// The least IPv6 packet that is read: both headers.
const IPV6_UDP_BYTES: usize = layout::IPV6_HEADER_BYTES + layout::UDP_HEADER_BYTES;

// What reading gives beside the addresses. No two neighbouring fields have the same width: such a pair would be copied
// by one wide load, which waits for both stores.
#[derive(Clone, Copy)]
pub struct TpduNumbers {
    pub sequence: u64,
    pub src_port: u16,
    pub send_timestamp_ns: u64,
    pub version: IpVersion,
    pub dst_port: u16,
}

// The value of the 2 bytes from `at` on.
fn read_u16(bytes: &[u8], at: usize) -> u16
    requires { (at < 256) × (at + 2 ≤ length bytes.now) }
    ensures { result ≡ field 2 at bytes.now }
{
    field::word(bytes[at], bytes[at + 1])
}

// The value of the 8 bytes from `at` on, as two halves: the compiler turns these into one load.
fn read_u64(bytes: &[u8], at: usize) -> u64
    requires { (at < 256) × (at + 8 ≤ length bytes.now) }
    ensures { result ≡ field 8 at bytes.now }
{
    let high = field::wide(bytes[at]) * 0x100_0000_0000_0000
        + field::wide(bytes[at + 1]) * 0x1_0000_0000_0000
        + field::wide(bytes[at + 2]) * 0x100_0000_0000
        + field::wide(bytes[at + 3]) * 0x1_0000_0000;
    let low = field::wide(bytes[at + 4]) * 0x100_0000
        + field::wide(bytes[at + 5]) * 0x1_0000
        + field::wide(bytes[at + 6]) * 0x100
        + field::wide(bytes[at + 7]);
    high + low
}

// Whether the UDP length is under 8 or past its part.
fn length_wrong(udp: &[u8]) -> bool
    requires { 8 ≤ length udp.now }
    ensures { result ≡ length_wrong udp.now }
{
    let n = read_u16(&udp[..], layout::UDP_LENGTH) as usize;
    n < layout::UDP_HEADER_BYTES || udp.len() < n
}

// A number that, added to any sum, folds to the same as the words of the address. Four bytes are added at once. The sum
// in `measurement` is of an array: over slices it would be a public function with a `requires`.
#[tactic(auto, using(crate::proofs::Laws::four_at_least, crate::proofs::Laws::sixteen))]
fn address_sum(version: IpVersion, bytes: &[u8]) -> u64
    requires { address_length version ≤ length bytes.now }
    ensures { ((n : ℕ) → fold_of (n + result) ≡ fold_of (n + sum_of (address version bytes.now)))
        × (result < 2 ^ 34) }
{
    let front = field::double_word(bytes[0], bytes[1], bytes[2], bytes[3]) as u64;
    match version {
        IpVersion::V4 => front,
        IpVersion::V6 => {
            front
                + (field::double_word(bytes[4], bytes[5], bytes[6], bytes[7]) as u64)
                + (field::double_word(bytes[8], bytes[9], bytes[10], bytes[11]) as u64)
                + (field::double_word(bytes[12], bytes[13], bytes[14], bytes[15]) as u64)
        }
    }
}

// Whether the sum over the pseudo-header and the segment is wrong, for a part whose UDP length is right. `addresses`
// folds to the same as the words of both addresses. Padding behind the segment is not summed.
fn sum_wrong(addresses: u64, udp: &[u8]) -> bool
    requires { (addresses < 2 ^ 35) × Part udp.now × (length_wrong udp.now ≡ false) }
    ensures { (v : IpVersion) (src dst : List ℕ) → Addresses v src dst addresses → result
        ≡ sum_wrong v src dst udp.now }
{
    let length = read_u16(&udp[..], layout::UDP_LENGTH) as usize;
    let pseudo = addresses + (measurement::UDP_PROTOCOL as u64) + (length as u64);
    checksum::sum(pseudo, &udp[..length]) != 65535
}

// 13 and 14, for a part whose UDP length is right.
#[tactic(auto, using(crate::proofs::Laws::judging, measurement_reading::proofs::Rows::length_right))]
fn judge_probe(udp: &[u8]) -> Result<(), Refusal>
    requires { Part udp.now × (length_wrong udp.now ≡ false) }
    ensures { (v : IpVersion) (src dst : List ℕ)
        → answered result ≡ verdict (read_probe v src dst udp.now) }
{
    let end = read_u16(&udp[..], layout::UDP_LENGTH) as usize;
    let payload = &udp[layout::UDP_HEADER_BYTES..end];
    if payload.len() < layout::PROBE_BYTES {
        return Err(Refusal::TruncatedMeasurementHeader);
    }
    if read_u64(payload, layout::PROBE_TAG) != measurement::MEASUREMENT_MAGIC {
        return Err(Refusal::MeasurementMagicMismatch);
    }
    Ok(())
}

// A part without a checksum, whose UDP length is right: in IPv6 there has to be one.
#[tactic(auto, using(crate::proofs::Laws::judging))]
fn judge_unsummed(version: IpVersion, udp: &[u8]) -> Result<(), Refusal>
    requires { Part udp.now × (length_wrong udp.now ≡ false) × (field 2 6 udp.now ≡ 0) }
    ensures { (src dst : List ℕ) → answered result ≡ verdict (read_udp version src dst udp.now) }
{
    match version {
        IpVersion::V4 => judge_probe(&udp[..]),
        IpVersion::V6 => Err(Refusal::Ipv6UdpChecksumIsZero),
    }
}

// The part that stands behind the IP header, of either version.
#[tactic(auto, using(crate::proofs::Laws::judging))]
fn judge_udp(version: IpVersion, addresses: u64, udp: &[u8]) -> Result<(), Refusal>
    requires { (addresses < 2 ^ 35) × Part udp.now }
    ensures { (src dst : List ℕ) → Addresses version src dst addresses → answered result
        ≡ verdict (read_udp version src dst udp.now) }
{
    if length_wrong(&udp[..]) {
        return Err(Refusal::InvalidUdpLength);
    }
    if read_u16(&udp[..], layout::UDP_CHECKSUM) == 0 {
        return judge_unsummed(version, &udp[..]);
    }
    if sum_wrong(addresses, &udp[..]) {
        return Err(Refusal::InvalidUdpChecksum);
    }
    judge_probe(&udp[..])
}

// The lower four bits of a byte: of the first one, the IPv4 header's length in words.
fn low_half(byte: u8) -> usize
    ensures { (result ≡ byte % 16) × (result < 16) }
{
    (byte & 0x0f) as usize
}

// Whether a packet is a fragment (RFC 791, section 3.1). The remainder leaves out the upper two of the 16 bits, which
// are the reserved bit and Don't Fragment; More Fragments and the fragment offset are tested as one number.
fn is_fragment(tpdu: &[u8]) -> bool
    requires { 20 ≤ length tpdu.now }
    ensures { result ≡ is_fragment tpdu.now }
{
    read_u16(&tpdu[..], layout::IPV4_FLAGS_AND_FRAGMENT_OFFSET) % 0x4000 != 0
}

// IPv4: options are stepped over, and what lies past the total length is ignored.
#[tactic(auto, unfolding(measurement_reading::specs::Read::ihl), using(crate::proofs::Laws::judging))]
fn judge_ipv4(tpdu: &[u8]) -> Result<(), Refusal>
    ensures { answered result ≡ verdict (read_ipv4 tpdu.now) }
{
    if tpdu.len() < layout::IPV4_HEADER_BYTES {
        return Err(Refusal::TruncatedIpv4Header);
    }
    let ihl = low_half(tpdu[layout::IPV4_IHL]);
    if ihl < 5 {
        return Err(Refusal::InvalidIpv4Ihl);
    }
    let start = ihl * 4;
    if tpdu.len() < start + layout::UDP_HEADER_BYTES {
        return Err(Refusal::TruncatedIpv4UdpPacket);
    }
    let end = read_u16(&tpdu[..], layout::IPV4_TOTAL_LENGTH) as usize;
    if end < start + layout::UDP_HEADER_BYTES || tpdu.len() < end {
        return Err(Refusal::InvalidIpv4TotalLength);
    }
    if tpdu[layout::IPV4_PROTOCOL] != measurement::UDP_PROTOCOL {
        return Err(Refusal::PayloadIsNotUdp);
    }
    if checksum::checksum(&tpdu[..start]) != 0 {
        return Err(Refusal::InvalidIpv4HeaderChecksum);
    }
    if is_fragment(&tpdu[..]) {
        return Err(Refusal::Ipv4Fragment);
    }
    let addresses = address_sum(
        IpVersion::V4,
        &tpdu[layout::IPV4_SOURCE_ADDRESS..layout::IPV4_DESTINATION_ADDRESS],
    ) + address_sum(
        IpVersion::V4,
        &tpdu[layout::IPV4_DESTINATION_ADDRESS..layout::IPV4_HEADER_BYTES],
    );
    judge_udp(IpVersion::V4, addresses, &tpdu[start..end])
}

#[tactic(auto, using(crate::proofs::Laws::judging))]
fn judge_ipv6(tpdu: &[u8]) -> Result<(), Refusal>
    ensures { answered result ≡ verdict (read_ipv6 tpdu.now) }
{
    if tpdu.len() < IPV6_UDP_BYTES {
        return Err(Refusal::TruncatedIpv6UdpPacket);
    }
    if tpdu[layout::IPV6_NEXT_HEADER] != measurement::UDP_PROTOCOL {
        return Err(Refusal::PayloadIsNotUdp);
    }
    let length = read_u16(&tpdu[..], layout::IPV6_PAYLOAD_LENGTH) as usize;
    let end = length + layout::IPV6_HEADER_BYTES;
    if length < layout::UDP_HEADER_BYTES || tpdu.len() < end {
        return Err(Refusal::InvalidIpv6PayloadLength);
    }
    let addresses = address_sum(
        IpVersion::V6,
        &tpdu[layout::IPV6_SOURCE_ADDRESS..layout::IPV6_DESTINATION_ADDRESS],
    ) + address_sum(
        IpVersion::V6,
        &tpdu[layout::IPV6_DESTINATION_ADDRESS..layout::IPV6_HEADER_BYTES],
    );
    judge_udp(
        IpVersion::V6,
        addresses,
        &tpdu[layout::IPV6_HEADER_BYTES..end],
    )
}

// The first cause of refusal, if there is one.
#[tactic(auto, using(crate::proofs::Laws::judging))]
fn judge(tpdu: &[u8]) -> Result<(), Refusal>
    ensures { answered result ≡ verdict (read_of tpdu.now) }
{
    if tpdu.is_empty() {
        return Err(Refusal::TruncatedIpHeader);
    }
    match tpdu[layout::IP_VERSION] >> 4 {
        4 => judge_ipv4(&tpdu[..]),
        6 => judge_ipv6(&tpdu[..]),
        _ => Err(Refusal::UnsupportedIpVersion),
    }
}

// The address of this width at a place, in the 16 bytes of a flow: the rest is 0.
fn padded_address(tpdu: &[u8], at: usize, width: usize) -> [u8; 16]
    requires { (width ≤ 16) × (at < 256) × (at + width ≤ length tpdu.now) }
    ensures { result ≡ padded (bytes_at width at tpdu.now) }
{
    let mut address = [0; 16];
    let end = at + width;
    address[..width].copy_from_slice(&tpdu[at..end]);
    address
}

// The values of a part that was accepted.
#[tactic(auto, using(measurement_reading::proofs::Rows::length_right, crate::proofs::Laws::payload_long))]
fn values(version: IpVersion, udp: &[u8]) -> TpduNumbers
    requires { HasProbe udp.now }
    ensures { (src dst : List ℕ) → result ≡ values_of (tpdu_of version src dst udp.now) }
{
    let end = read_u16(&udp[..], layout::UDP_LENGTH) as usize;
    let payload = &udp[layout::UDP_HEADER_BYTES..end];
    TpduNumbers {
        sequence: read_u64(payload, layout::PROBE_SEQUENCE),
        src_port: read_u16(&udp[..], layout::UDP_SOURCE_PORT),
        send_timestamp_ns: read_u64(payload, layout::PROBE_SEND_TIME),
        version,
        dst_port: read_u16(&udp[..], layout::UDP_DESTINATION_PORT),
    }
}

// Reads a T-PDU: its addresses into lent arrays, which a refusal leaves as they were, and the rest in numbers.
#[tactic(auto, unfolding(measurement_reading::specs::Read::ihl), using(crate::proofs::Laws::reading))]
pub fn decode_into(
    tpdu: &[u8],
    src: &mut [u8; 16],
    dst: &mut [u8; 16],
) -> Result<TpduNumbers, Refusal>
    ensures answer { answered result ≡ tpdu_numbers (read_of tpdu.now) }
    ensures source { src.new ≡ source_left (read_of tpdu.now) src.old }
    ensures destination { dst.new ≡ destination_left (read_of tpdu.now) dst.old }
{
    judge(&tpdu[..])?;
    if tpdu[layout::IP_VERSION] >> 4 == 4 {
        *src = padded_address(&tpdu[..], layout::IPV4_SOURCE_ADDRESS, 4);
        *dst = padded_address(&tpdu[..], layout::IPV4_DESTINATION_ADDRESS, 4);
        let start = low_half(tpdu[layout::IPV4_IHL]) * 4;
        let end = read_u16(&tpdu[..], layout::IPV4_TOTAL_LENGTH) as usize;
        return Ok(values(IpVersion::V4, &tpdu[start..end]));
    }
    *src = padded_address(&tpdu[..], layout::IPV6_SOURCE_ADDRESS, 16);
    *dst = padded_address(&tpdu[..], layout::IPV6_DESTINATION_ADDRESS, 16);
    let end = (read_u16(&tpdu[..], layout::IPV6_PAYLOAD_LENGTH) as usize)
        + layout::IPV6_HEADER_BYTES;
    Ok(values(IpVersion::V6, &tpdu[layout::IPV6_HEADER_BYTES..end]))
}

// Reads a T-PDU: its flow, sequence and send time, or the first cause of refusal.
#[tactic(auto, using(crate::proofs::Callers::answering))]
pub fn decode_measurement_tpdu(tpdu: &[u8]) -> Result<DecodedTpdu, Refusal>
    ensures { answered result ≡ read_of tpdu.now }
{
    let mut src = [0; 16];
    let mut dst = [0; 16];
    let read = decode_into(tpdu, &mut src, &mut dst)?;
    Ok(DecodedTpdu {
        flow: InnerIpFlow {
            version: read.version,
            src,
            dst,
            src_port: read.src_port,
            dst_port: read.dst_port,
        },
        measurement: MeasurementHeader {
            sequence: read.sequence,
            send_timestamp_ns: read.send_timestamp_ns,
        },
    })
}
