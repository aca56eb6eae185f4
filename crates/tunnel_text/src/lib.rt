// A tunnel as text: its TEID in hexadecimal, and the address of its peer. IPv4 is written in dotted decimal, IPv6 as
// section 4 of RFC 5952 recommends. Section 5, dotted decimal within IPv6, is left out: a peer has an address of one
// version.
#![tactic(auto)]

use measurement::{ADDRESS_BYTES, IpVersion};
use std::fmt;
use std::net::{Ipv4Addr, Ipv6Addr};

// A TEID, in eight hexadecimal digits.
#[derive(Clone, Copy)]
pub struct Teid(pub u32);

impl fmt::Display for Teid {
    fn fmt<W: fmt::Write>(&self, f: &mut fmt::Formatter<W>) -> fmt::Result {
        write!(f, "0x{:08x}", self.0)
    }
}

// The address of a peer: of an IPv4 address the first 4 bytes count.
#[derive(Clone, Copy)]
pub struct Address {
    pub version: IpVersion,
    pub bytes: [u8; ADDRESS_BYTES],
}

fn write_ipv6<W: fmt::Write>(f: &mut fmt::Formatter<W>, address: Ipv6Addr) -> fmt::Result {
    if address.to_ipv4_mapped().is_none() {
        return write!(f, "{address}");
    }
    // std writes this prefix with dotted decimal behind it.
    let [.., high, low] = address.segments();
    write!(f, "::ffff:{high:x}:{low:x}")
}

impl fmt::Display for Address {
    fn fmt<W: fmt::Write>(&self, f: &mut fmt::Formatter<W>) -> fmt::Result {
        match self.version {
            IpVersion::V4 => {
                let [a, b, c, d, ..] = self.bytes;
                let address = Ipv4Addr::new(a, b, c, d);
                write!(f, "{address}")
            }
            IpVersion::V6 => write_ipv6(f, Ipv6Addr::from(self.bytes)),
        }
    }
}
