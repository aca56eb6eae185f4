// Addresses and TEIDs as `tunnel_text` prints them. In front of each address stand its bytes in hexadecimal, so that
// another program can say what it should be.
#![tactic(auto)]

use measurement::IpVersion;
use std::io;
use std::io::Write;
use tunnel_text::{Address, Teid};

// An IPv6 address, by its 8 groups.
fn print_ipv6<W: Write>(out: &mut W, high: u64, low: u64) -> io::Result<()> {
    let [a, b, c, d, e, f, g, h] = high.to_be_bytes();
    let [i, j, k, l, m, n, o, p] = low.to_be_bytes();
    let address = Address {
        version: IpVersion::V6,
        bytes: [a, b, c, d, e, f, g, h, i, j, k, l, m, n, o, p],
    };
    writeln!(out, "{high:016x}{low:016x} {address}")
}

// The first 4 of the 16 bytes count, and the others are not printed.
fn print_ipv4<W: Write>(out: &mut W, number: u32) -> io::Result<()> {
    let mut bytes = [0xff; 16];
    bytes[..4].copy_from_slice(&number.to_be_bytes());
    let address = Address {
        version: IpVersion::V4,
        bytes,
    };
    writeln!(out, "{number:08x} {address}")
}
// Section 4.1 of RFC 5952: no zeros in front of a group, and one 0 for a zero group. 4.3: lower case.
fn print_single_groups<W: Write>(out: &mut W) -> io::Result<()> {
    print_ipv6(out, 0x2001_0db8_0000_0000, 0x0000_0000_0000_0001)?;
    print_ipv6(out, 0x0001_0010_0100_1000, 0x000a_00ab_0abc_abcd)?;
    print_ipv6(out, 0x2001_0db8_aaaa_bbbb, 0xcccc_dddd_eeee_0001)?;
    print_ipv6(out, 0xabcd_efab_cdef_abcd, 0xefab_cdef_abcd_efab)?;
    print_ipv6(out, 0xffff_ffff_ffff_ffff, 0xffff_ffff_ffff_ffff)
}

// Section 4.2.1: two colons stand for as many groups as they can. 4.2.2: they do not stand for one group.
fn print_one_run<W: Write>(out: &mut W) -> io::Result<()> {
    print_ipv6(out, 0x2001_0db8_0000_0000, 0x0000_0000_0002_0001)?;
    print_ipv6(out, 0x2001_0db8_0000_0001, 0x0001_0001_0001_0001)?;
    print_ipv6(out, 0x0000_0001_0002_0003, 0x0004_0005_0006_0007)?;
    print_ipv6(out, 0x0001_0002_0003_0004, 0x0005_0006_0007_0000)?;
    print_ipv6(out, 0x0000_0001_0000_0002, 0x0000_0003_0000_0004)?;
    print_ipv6(out, 0x0000_0000_0001_0002, 0x0003_0004_0005_0006)?;
    print_ipv6(out, 0x0001_0002_0003_0000, 0x0000_0004_0005_0006)?;
    print_ipv6(out, 0x0001_0002_0003_0004, 0x0005_0006_0000_0000)?;
    print_ipv6(out, 0x0000_0000_0000_0000, 0x0000_0000_0000_0000)?;
    print_ipv6(out, 0x0000_0000_0000_0000, 0x0000_0000_0000_0001)?;
    print_ipv6(out, 0x0001_0000_0000_0000, 0x0000_0000_0000_0000)?;
    print_ipv6(out, 0x2001_0db8_0000_0000, 0x0000_0000_0000_0003)
}

// Section 4.2.3: of several runs the longest, and of equal ones the first.
fn print_several_runs<W: Write>(out: &mut W) -> io::Result<()> {
    print_ipv6(out, 0x2001_0000_0000_0001, 0x0000_0000_0000_0001)?;
    print_ipv6(out, 0x2001_0db8_0000_0000, 0x0001_0000_0000_0001)?;
    print_ipv6(out, 0x2001_0000_0000_0000, 0x0001_0000_0000_0001)?;
    print_ipv6(out, 0x0000_0000_0001_0002, 0x0003_0004_0000_0000)?;
    print_ipv6(out, 0x0000_0000_0001_0000, 0x0000_0000_0002_0003)?;
    print_ipv6(out, 0x0000_0001_0000_0000, 0x0002_0000_0000_0000)?;
    print_ipv6(out, 0x0000_0000_0001_0000, 0x0000_0001_0000_0000)?;
    print_ipv6(out, 0x0000_0001_0002_0000, 0x0000_0003_0004_0000)
}

fn main(rt: HostRuntime) -> io::Result<()> {
    let mut out = io::writer(&rt);
    print_single_groups(&mut out)?;
    print_one_run(&mut out)?;
    print_several_runs(&mut out)?;
    print_ipv4(&mut out, 0x00_00_00_00)?;
    print_ipv4(&mut out, 0xc0_00_02_03)?;
    print_ipv4(&mut out, 0x01_0a_64_ff)?;
    print_ipv4(&mut out, 0xff_ff_ff_ff)?;
    writeln!(out, "{}", Teid(0))?;
    writeln!(out, "{}", Teid(0x1002))?;
    writeln!(out, "{}", Teid(0xffff_ffff))
}
