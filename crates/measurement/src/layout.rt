// Where each field of a T-PDU starts, in bytes from the front of its own header: the fields of the diagrams in RFC 791,
// section 3.1, RFC 8200, section 3, and RFC 768, in their order, and those of the probe. The definitions have the same
// list (specs/Layout.antt), and `offsets` proves that the two agree. A field of two bytes has its upper byte first, so
// the lower stands at the next place.
ghost use Rattle.std.specs.Prelude.{◌≡◌};
ghost use Rattle.measurement.specs.Layout.{offsets_of};

// The upper four bits of the first byte, in either IP header.
pub const IP_VERSION: usize = 0;

// The lower four bits of the same byte.
pub const IPV4_IHL: usize = 0;

pub const IPV4_TYPE_OF_SERVICE: usize = 1;

pub const IPV4_TOTAL_LENGTH: usize = 2;

pub const IPV4_IDENTIFICATION: usize = 4;

pub const IPV4_FLAGS_AND_FRAGMENT_OFFSET: usize = 6;

pub const IPV4_TIME_TO_LIVE: usize = 8;

pub const IPV4_PROTOCOL: usize = 9;

pub const IPV4_HEADER_CHECKSUM: usize = 10;

pub const IPV4_SOURCE_ADDRESS: usize = 12;

pub const IPV4_DESTINATION_ADDRESS: usize = 16;

// The end of a header without options.
pub const IPV4_HEADER_BYTES: usize = 20;

pub const IPV6_PAYLOAD_LENGTH: usize = 4;

pub const IPV6_NEXT_HEADER: usize = 6;

pub const IPV6_SOURCE_ADDRESS: usize = 8;

pub const IPV6_DESTINATION_ADDRESS: usize = 24;

pub const IPV6_HEADER_BYTES: usize = 40;

pub const UDP_SOURCE_PORT: usize = 0;

pub const UDP_DESTINATION_PORT: usize = 2;

pub const UDP_LENGTH: usize = 4;

pub const UDP_CHECKSUM: usize = 6;

pub const UDP_HEADER_BYTES: usize = 8;

pub const PROBE_TAG: usize = 0;

pub const PROBE_SEQUENCE: usize = 8;

pub const PROBE_SEND_TIME: usize = 16;

pub const PROBE_BYTES: usize = 24;

// Every offset, header by header.
pub fn offsets() -> [usize; 26]
    ensures { result ≡ offsets_of }
{
    [
        IP_VERSION,
        IPV4_IHL,
        IPV4_TYPE_OF_SERVICE,
        IPV4_TOTAL_LENGTH,
        IPV4_IDENTIFICATION,
        IPV4_FLAGS_AND_FRAGMENT_OFFSET,
        IPV4_TIME_TO_LIVE,
        IPV4_PROTOCOL,
        IPV4_HEADER_CHECKSUM,
        IPV4_SOURCE_ADDRESS,
        IPV4_DESTINATION_ADDRESS,
        IPV4_HEADER_BYTES,
        IPV6_PAYLOAD_LENGTH,
        IPV6_NEXT_HEADER,
        IPV6_SOURCE_ADDRESS,
        IPV6_DESTINATION_ADDRESS,
        IPV6_HEADER_BYTES,
        UDP_SOURCE_PORT,
        UDP_DESTINATION_PORT,
        UDP_LENGTH,
        UDP_CHECKSUM,
        UDP_HEADER_BYTES,
        PROBE_TAG,
        PROBE_SEQUENCE,
        PROBE_SEND_TIME,
        PROBE_BYTES,
    ]
}
