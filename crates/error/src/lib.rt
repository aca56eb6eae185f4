// The refusals: document 01's card of numbers (leaf 1), and above 37 the new numbers of document 02. The Rust's
// error.rs has an enum with texts; here each cause of the card is a variant of its own, named in the Rust's words where
// it has any. specs/Number.antt says what each number means, and `numbers` proves that the two lists agree. Numbers up
// to 50 are kept for this list.
#![tactic(auto)]

ghost use Rattle.std.specs.Prelude.{◌≡◌};
ghost use Rattle.error.specs.Answer.{number_of};
ghost use Rattle.error.specs.Number.{numbers_of};

use std::error::Error;
use std::fmt;

// Why a call refuses, and the number of that cause on the card.
#[derive(Clone, Copy, Debug, PartialEq, Eq)]
pub enum Refusal {
    TruncatedIpHeader = 1,
    UnsupportedIpVersion = 2,
    TruncatedIpv4Header = 3,
    InvalidIpv4Ihl = 4,
    InvalidIpv4TotalLength = 5,
    PayloadIsNotUdp = 6,
    InvalidIpv4HeaderChecksum = 7,
    TruncatedIpv6UdpPacket = 8,
    InvalidIpv6PayloadLength = 9,
    InvalidUdpLength = 10,
    Ipv6UdpChecksumIsZero = 11,
    InvalidUdpChecksum = 12,
    TruncatedMeasurementHeader = 13,
    MeasurementMagicMismatch = 14,
    OutputTooShort = 15,
    TargetRateIsZero = 16,
    TargetRateExceedsResolution = 17,
    TooManyPackets = 18,
    SequenceOverflow = 19,
    SendTimestampOverflow = 20,
    MalformedObserver = 21,
    ObserverFull = 22,
    SequenceWasNotSent = 23,
    TimestampReversed = 24,
    TruncatedElement = 25,
    InvalidPeerAddressLength = 26,
    UnsupportedFixedLengthElement = 27,
    MissingTeidDataI = 28,
    MissingPeerAddress = 29,
    InvalidReflectorCapacity = 30,
    MalformedReflectorTable = 31,
    InvalidReflectorSession = 32,
    ReflectorSessionConflict = 33,
    ReflectorSessionCapacityExceeded = 34,
    EchoRequestTeidNotZero = 35,
    EchoRequestMissingSequence = 36,
    UnsupportedMessageType = 37,
    Ipv4Fragment = 38,
    TruncatedIpv4UdpPacket = 39,
}

impl Refusal {
    // The number on the card.
    pub fn number(self) -> u8
        ensures { result ≡ number_of self }
    {
        self as u8
    }
}

// The name on the card (docs/CARD.md).
impl fmt::Display for Refusal {
    fn fmt<W: fmt::Write>(&self, f: &mut fmt::Formatter<W>) -> fmt::Result {
        f.write_str(match self {
            Refusal::TruncatedIpHeader => "TRUNCATED_IP_HEADER",
            Refusal::UnsupportedIpVersion => "UNSUPPORTED_IP_VERSION",
            Refusal::TruncatedIpv4Header => "TRUNCATED_IPV4_HEADER",
            Refusal::InvalidIpv4Ihl => "INVALID_IPV4_IHL",
            Refusal::InvalidIpv4TotalLength => "INVALID_IPV4_TOTAL_LENGTH",
            Refusal::PayloadIsNotUdp => "PAYLOAD_IS_NOT_UDP",
            Refusal::InvalidIpv4HeaderChecksum => "INVALID_IPV4_HEADER_CHECKSUM",
            Refusal::TruncatedIpv6UdpPacket => "TRUNCATED_IPV6_UDP_PACKET",
            Refusal::InvalidIpv6PayloadLength => "INVALID_IPV6_PAYLOAD_LENGTH",
            Refusal::InvalidUdpLength => "INVALID_UDP_LENGTH",
            Refusal::Ipv6UdpChecksumIsZero => "IPV6_UDP_CHECKSUM_IS_ZERO",
            Refusal::InvalidUdpChecksum => "INVALID_UDP_CHECKSUM",
            Refusal::TruncatedMeasurementHeader => "TRUNCATED_MEASUREMENT_HEADER",
            Refusal::MeasurementMagicMismatch => "MEASUREMENT_MAGIC_MISMATCH",
            Refusal::OutputTooShort => "OUTPUT_TOO_SHORT",
            Refusal::TargetRateIsZero => "TARGET_RATE_IS_ZERO",
            Refusal::TargetRateExceedsResolution => "TARGET_RATE_EXCEEDS_RESOLUTION",
            Refusal::TooManyPackets => "TOO_MANY_PACKETS",
            Refusal::SequenceOverflow => "SEQUENCE_OVERFLOW",
            Refusal::SendTimestampOverflow => "SEND_TIMESTAMP_OVERFLOW",
            Refusal::MalformedObserver => "MALFORMED_OBSERVER",
            Refusal::ObserverFull => "OBSERVER_FULL",
            Refusal::SequenceWasNotSent => "SEQUENCE_WAS_NOT_SENT",
            Refusal::TimestampReversed => "TIMESTAMP_REVERSED",
            Refusal::TruncatedElement => "TRUNCATED_ELEMENT",
            Refusal::InvalidPeerAddressLength => "INVALID_PEER_ADDRESS_LENGTH",
            Refusal::UnsupportedFixedLengthElement => "UNSUPPORTED_FIXED_LENGTH_ELEMENT",
            Refusal::MissingTeidDataI => "MISSING_TEID_DATA_I",
            Refusal::MissingPeerAddress => "MISSING_PEER_ADDRESS",
            Refusal::InvalidReflectorCapacity => "INVALID_REFLECTOR_CAPACITY",
            Refusal::MalformedReflectorTable => "MALFORMED_REFLECTOR_TABLE",
            Refusal::InvalidReflectorSession => "INVALID_REFLECTOR_SESSION",
            Refusal::ReflectorSessionConflict => "REFLECTOR_SESSION_CONFLICT",
            Refusal::ReflectorSessionCapacityExceeded => "REFLECTOR_SESSION_CAPACITY_EXCEEDED",
            Refusal::EchoRequestTeidNotZero => "ECHO_REQUEST_TEID_NOT_ZERO",
            Refusal::EchoRequestMissingSequence => "ECHO_REQUEST_MISSING_SEQUENCE",
            Refusal::UnsupportedMessageType => "UNSUPPORTED_MESSAGE_TYPE",
            Refusal::Ipv4Fragment => "IPV4_FRAGMENT",
            Refusal::TruncatedIpv4UdpPacket => "TRUNCATED_IPV4_UDP_PACKET",
        })
    }
}

impl Error for Refusal {}

// Every number of the card, in order.
pub fn numbers() -> [u8; 39]
    ensures { result ≡ numbers_of }
{
    [
        Refusal::TruncatedIpHeader.number(),
        Refusal::UnsupportedIpVersion.number(),
        Refusal::TruncatedIpv4Header.number(),
        Refusal::InvalidIpv4Ihl.number(),
        Refusal::InvalidIpv4TotalLength.number(),
        Refusal::PayloadIsNotUdp.number(),
        Refusal::InvalidIpv4HeaderChecksum.number(),
        Refusal::TruncatedIpv6UdpPacket.number(),
        Refusal::InvalidIpv6PayloadLength.number(),
        Refusal::InvalidUdpLength.number(),
        Refusal::Ipv6UdpChecksumIsZero.number(),
        Refusal::InvalidUdpChecksum.number(),
        Refusal::TruncatedMeasurementHeader.number(),
        Refusal::MeasurementMagicMismatch.number(),
        Refusal::OutputTooShort.number(),
        Refusal::TargetRateIsZero.number(),
        Refusal::TargetRateExceedsResolution.number(),
        Refusal::TooManyPackets.number(),
        Refusal::SequenceOverflow.number(),
        Refusal::SendTimestampOverflow.number(),
        Refusal::MalformedObserver.number(),
        Refusal::ObserverFull.number(),
        Refusal::SequenceWasNotSent.number(),
        Refusal::TimestampReversed.number(),
        Refusal::TruncatedElement.number(),
        Refusal::InvalidPeerAddressLength.number(),
        Refusal::UnsupportedFixedLengthElement.number(),
        Refusal::MissingTeidDataI.number(),
        Refusal::MissingPeerAddress.number(),
        Refusal::InvalidReflectorCapacity.number(),
        Refusal::MalformedReflectorTable.number(),
        Refusal::InvalidReflectorSession.number(),
        Refusal::ReflectorSessionConflict.number(),
        Refusal::ReflectorSessionCapacityExceeded.number(),
        Refusal::EchoRequestTeidNotZero.number(),
        Refusal::EchoRequestMissingSequence.number(),
        Refusal::UnsupportedMessageType.number(),
        Refusal::Ipv4Fragment.number(),
        Refusal::TruncatedIpv4UdpPacket.number(),
    ]
}
