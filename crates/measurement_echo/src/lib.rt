// The echo of a measurement T-PDU (leaf 4; `echo_tpdu` of the Rust's measurement.rs).
#![tactic(auto)]

ghost use Rattle.std.specs.Prelude.{◌≡◌, ℕ, replicate};
ghost use Rattle.measurement.specs.Answer.{wrote, writing, writing_of};
ghost use Rattle.measurement.specs.declared.InnerIpFlow.{InnerIpFlow};
ghost use Rattle.measurement.specs.declared.IpVersion.TheVariants.{V4};
ghost use Rattle.measurement_packet.specs.Packet.{build_of};
ghost use Rattle.measurement_damage.specs.Echo.{echo_of};
ghost use Rattle.measurement_echo.specs.Block.{InBlock};

use error::Refusal;
use measurement::{InnerIpFlow, IpVersion};

// Copies a T-PDU of this many bytes out of the block that it was built in: where it does not fit, the output is
// untouched.
fn copy_out(count: usize, block: &[u8], out: &mut [u8]) -> Result<usize, Refusal>
    requires { InBlock count block.now }
    ensures { (flow : InnerIpFlow) (sequence time : ℕ)
        → wrote (Ok count) block.now ≡ writing (build_of flow sequence time) (replicate 72 0)
        → wrote result out.new ≡ writing (build_of flow sequence time) out.old }
{
    if out.len() < count {
        return Err(Refusal::OutputTooShort);
    }
    out[..count].copy_from_slice(&block[..count]);
    Ok(count)
}

// A T-PDU made in a block of 72 zero bytes, whose bytes are then copied out.
fn write_from_block(
    flow: InnerIpFlow,
    sequence: u64,
    send_timestamp_ns: u64,
    out: &mut [u8],
) -> Result<usize, Refusal>
    ensures { wrote result out.new
        ≡ writing (build_of flow sequence send_timestamp_ns) out.old }
{
    let mut block = [0; 72];
    let count = measurement_build::build_measurement_tpdu(
        flow,
        sequence,
        send_timestamp_ns,
        &mut block,
    )?;
    copy_out(count, &block, out)
}

// `write_from_block` for IPv4, from parts. Only the four bytes of the address are read from each array, in the width in
// which they were stored; a flow would be copied by wider loads, which wait for those stores. With the length known,
// the compiler keeps the block in registers.
fn write_ipv4_from_block(
    src: [u8; 16],
    dst: [u8; 16],
    src_port: u16,
    dst_port: u16,
    sequence: u64,
    send_timestamp_ns: u64,
    out: &mut [u8],
) -> Result<usize, Refusal>
    ensures { wrote result out.new
        ≡ writing (build_of
        (record { version = V4; src = src; dst = dst; src_port = src_port; dst_port = dst_port })
        sequence send_timestamp_ns) out.old }
{
    let mut block = [0; 72];
    let count = measurement_build::build_ipv4_tpdu(
        src,
        dst,
        src_port,
        dst_port,
        sequence,
        send_timestamp_ns,
        &mut block,
    )?;
    copy_out(count, &block, out)
}

// Reads a T-PDU and writes its echo to the front of `out`: source and destination exchanged, sequence and time kept.
#[tactic(auto, using(crate::proofs::Block::echoing))]
pub fn echo_tpdu(tpdu: &[u8], out: &mut [u8]) -> Result<usize, Refusal>
    ensures { wrote result out.new ≡ writing_of (echo_of tpdu.now) out.old }
{
    let mut src = [0; 16];
    let mut dst = [0; 16];
    let read = measurement_decode::decode_into(tpdu, &mut src, &mut dst)?;
    match read.version {
        IpVersion::V4 => write_ipv4_from_block(
            dst,
            src,
            read.dst_port,
            read.src_port,
            read.sequence,
            read.send_timestamp_ns,
            out,
        ),
        IpVersion::V6 => {
            let reversed = InnerIpFlow {
                version: IpVersion::V6,
                src: dst,
                dst: src,
                src_port: read.dst_port,
                dst_port: read.src_port,
            };
            write_from_block(reversed, read.sequence, read.send_timestamp_ns, out)
        }
    }
}
