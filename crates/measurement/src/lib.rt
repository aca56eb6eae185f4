// Measurement T-PDUs (leaves 3 and 4; the Rust's measurement.rs): the types, and what building and reading share.
// What they give is defined in measurement_packet and measurement_reading; that the two fit together is proved in
// measurement_damage. The calls are in measurement_build, measurement_decode and measurement_echo.
#![tactic(auto)]

ghost use Rattle.std.specs.Prelude.{◌≡◌, ℕ, ◌+◌, ◌^◌, ◌<◌};
ghost use Rattle.field.specs.Field.{value_of};
ghost use Rattle.checksum.specs.Sum.{sum_of, fold_of};
ghost use Rattle.measurement.specs.Flow.{version_numbered, version_number, address, reversed_of, InRange};
ghost use Rattle.measurement.specs.Pseudo.{udp_protocol, pseudo_header};
ghost use Rattle.measurement.specs.Probe.{measurement_magic, probe};
ghost use Rattle.measurement.specs.Claims.{VersionsNumbered};

pub mod layout; // layout.rt: where each field stands

// The bytes of an address, and those of a T-PDU as it is built.
pub const ADDRESS_BYTES: usize = 16;

pub const IPV4_TPDU_BYTES: usize = 52;

pub const IPV6_TPDU_BYTES: usize = 72;

// The protocol number of UDP, and the tag of a probe as a number. `udp_protocol` and `measurement_magic` prove that
// they are those of the definitions.
pub const UDP_PROTOCOL: u8 = 17;

pub const MEASUREMENT_MAGIC: u64 = 0x4f50_4344_5054_4b31;

// The version of an IP header, under the number that the header has for it.
#[derive(Clone, Copy, Debug, PartialEq, Eq)]
pub enum IpVersion {
    V4 = 4,
    V6 = 6,
}

// The version that a number stands for: 4 is IPv4, every other number IPv6. The card has no number for a flow or an
// address of a third version (2 is for a T-PDU).
impl From<u8> for IpVersion {
    ghost from_gives = { λ number version. version ≡ version_numbered number };

    #[tactic(auto, unfolding(crate::specs::Flow::version_numbered))]
    fn from(number: u8) -> Self {
        match number {
            4 => IpVersion::V4,
            _ => IpVersion::V6,
        }
    }
}

impl IpVersion {
    // Its number, 4 or 6.
    pub fn number(self) -> u8
        ensures { result ≡ version_number self }
    {
        self as u8
    }
}

// An inner IP/UDP flow. Of an IPv4 address only the first 4 bytes count.
#[derive(Clone, Copy)]
pub struct InnerIpFlow {
    pub version: IpVersion,
    pub src: [u8; ADDRESS_BYTES],
    pub dst: [u8; ADDRESS_BYTES],
    pub src_port: u16,
    pub dst_port: u16,
}

impl InnerIpFlow {
    // The flow with source and destination exchanged.
    pub fn reversed(self) -> Self
        ensures { result ≡ reversed_of self }
    {
        let version = self.version;
        let src = self.dst;
        let dst = self.src;
        Self {
            version,
            src,
            dst,
            src_port: self.dst_port,
            dst_port: self.src_port,
        }
    }
}

// What a probe carries.
#[derive(Clone, Copy)]
pub struct MeasurementHeader {
    pub sequence: u64,
    pub send_timestamp_ns: u64,
}

impl MeasurementHeader {
    // The 24 bytes of the probe.
    pub fn encode(self) -> [u8; 24]
        ensures { result ≡ probe self.sequence self.send_timestamp_ns }
    {
        let mut probe = [0; layout::PROBE_BYTES];
        probe[..layout::PROBE_SEQUENCE].copy_from_slice(&MEASUREMENT_MAGIC.to_be_bytes());
        probe[layout::PROBE_SEQUENCE..layout::PROBE_SEND_TIME].copy_from_slice(
            &self.sequence.to_be_bytes(),
        );
        probe[layout::PROBE_SEND_TIME..].copy_from_slice(&self.send_timestamp_ns.to_be_bytes());
        probe
    }
}

// What reading a T-PDU gives.
#[derive(Clone, Copy)]
pub struct DecodedTpdu {
    pub flow: InnerIpFlow,
    pub measurement: MeasurementHeader,
}

// The number that stands for UDP in either IP header: RFC 768, "Protocol Number".
pub fn udp_protocol() -> u8
    ensures { result ≡ udp_protocol }
{
    UDP_PROTOCOL
}

// The first 8 bytes of a probe, read as one number.
pub fn measurement_magic() -> u64
    ensures { result ≡ value_of measurement_magic }
{
    MEASUREMENT_MAGIC
}

// Carries that whatever the code is handed is in range: each flow, sequence and time meets the hypothesis of the
// theorems about packets.
pub fn every_value_is_in_range(flow: InnerIpFlow, sequence: u64, send_timestamp_ns: u64)
    ensures { InRange flow sequence send_timestamp_ns }
{}

// A number that, added to any sum, folds to the same as the words of the address. Four bytes are added at once.
fn address_sum(version: IpVersion, bytes: [u8; 16]) -> u64
    ensures { ((n : ℕ) → fold_of (n + result) ≡ fold_of (n + sum_of (address version bytes))) × (result < 2 ^ 34) }
{
    let front = field::double_word(bytes[0], bytes[1], bytes[2], bytes[3]) as u64;
    match version {
        IpVersion::V4 => front,
        IpVersion::V6 => {
            front
                + (field::double_word(bytes[4], bytes[5], bytes[6], bytes[7]) as u64)
                + (field::double_word(bytes[8], bytes[9], bytes[10], bytes[11]) as u64)
                + (field::double_word(bytes[12], bytes[13], bytes[14], bytes[15]) as u64)
        }
    }
}

// A number that, added to any sum, folds to the same as the words of a UDP checksum's pseudo-header: RFC 768; RFC 8200,
// section 8.1.
pub fn pseudo_header_words(version: IpVersion, src: [u8; 16], dst: [u8; 16], udp_length: u16) -> u64
    ensures { ((n : ℕ) → fold_of (n + result)
        ≡ fold_of (n + sum_of (pseudo_header version (address version src) (address version dst) udp_length)))
        × (result < 2 ^ 36) }
{
    (UDP_PROTOCOL as u64)
        + (udp_length as u64)
        + address_sum(version, src)
        + address_sum(version, dst)
}

// Carries that a version comes back from its number, and that no number but 4 stands for IPv4.
pub fn versions_read_back()
    ensures { VersionsNumbered }
{}
