// The packets that a traffic plan asks for (leaf 5; `TrafficEngine` of the Rust's traffic.rs). How a plan is judged is
// defined in the crate `plan`, what the generator leaves in specs/Generate.antt.
#![tactic(auto)]

ghost use Rattle.std.specs.Prelude.{◌≡◌, ◌+◌, ◌*◌, ◌++◌, drop};
ghost use Rattle.measurement_packet.specs.Packet.{ip_header_length};
ghost use Rattle.plan.specs.Plan.{packets_of};
ghost use Rattle.traffic.specs.Claims.{SuccessIsComplete, RoomDecides, RefusalLeaves};
ghost use Rattle.traffic.specs.Generate.{first_sequence, end_to_end, generated, generate_of};
ghost use Rattle.traffic.specs.Fits.{Fits};

use error::Refusal;
use measurement::{InnerIpFlow, IpVersion};
use plan::TrafficPlan;

// The length of each packet.
#[tactic(auto, unfolding(measurement_packet::specs::Packet::ip_header_length))]
pub fn packet_length(version: IpVersion) -> usize
    ensures { result ≡ ip_header_length version + 32 }
{
    match version {
        IpVersion::V4 => measurement::IPV4_TPDU_BYTES,
        IpVersion::V6 => measurement::IPV6_TPDU_BYTES,
    }
}

// The packets of an accepted plan, end to end. Each is a part of `out` (tried: what std promises of `chunks_exact_mut`
// says nothing of the bytes once its borrow is over, so the proof did not close).
fn write_packets(
    flow: InnerIpFlow,
    plan: TrafficPlan,
    interval: u64,
    next_sequence: u64,
    out: &mut [u8],
)
    requires { Fits flow plan interval next_sequence out.old }
    ensures { out.new ≡ end_to_end flow (packets_of plan next_sequence)
        ++ drop (plan.packet_count * (ip_header_length flow.version + 32)) out.old }
{
    let size = packet_length(flow.version);
    let mut at = 0;
    for k in 0..plan.packet_count {
        let sequence = next_sequence + k;
        let time = plan.first_send_timestamp_ns + k * interval;
        let _ = measurement_build::build_measurement_tpdu(flow, sequence, time, &mut out[at..]);
        at += size;
    }
}

// The packets of a plan, from the next sequence in the caller's record, end to end at the front of `out`. Every cause
// is judged before the first byte is written. The record is changed, by 19 and 20 too (leaf 5).
pub fn generate_from(
    next_sequence: &mut u64,
    flow: InnerIpFlow,
    plan: TrafficPlan,
    out: &mut [u8],
) -> Result<usize, Refusal>
    ensures { generated result next_sequence.new out.new
        ≡ generate_of flow plan next_sequence.old out.old }
{
    let judged = plan::judge_plan(plan, *next_sequence);
    let interval = match judged.interval {
        Ok(interval) => interval,
        Err(why) => {
            *next_sequence = judged.next_sequence;
            return Err(why);
        }
    };
    let length = plan.packet_count as usize * packet_length(flow.version);
    if out.len() < length {
        return Err(Refusal::OutputTooShort);
    }
    write_packets(flow, plan, interval, *next_sequence, out);
    *next_sequence = judged.next_sequence;
    Ok(length)
}

// The generator's own record: the sequence of the next packet.
#[derive(Clone, Copy, Debug, PartialEq, Eq)]
pub struct TrafficEngine {
    pub next_sequence: u64,
}

impl TrafficEngine {
    // An engine that starts at sequence 0.
    pub fn new() -> Self
        ensures { result.next_sequence ≡ first_sequence }
    {
        Self { next_sequence: 0 }
    }

    // An engine that starts at this sequence.
    pub fn with_first_sequence(first_sequence: u64) -> Self
        ensures { result.next_sequence ≡ first_sequence }
    {
        Self {
            next_sequence: first_sequence,
        }
    }

    // `generate_from`, with the engine's own next sequence.
    pub fn generate(
        &mut self,
        flow: InnerIpFlow,
        plan: TrafficPlan,
        out: &mut [u8],
    ) -> Result<usize, Refusal>
        ensures { generated result self.new.next_sequence out.new
            ≡ generate_of flow plan self.old.next_sequence out.old }
    {
        generate_from(&mut self.next_sequence, flow, plan, out)
    }
}

// Carries that a success has every packet of the plan. That each reads back is proved in the crate tally.
pub fn success_is_complete()
    ensures { SuccessIsComplete }
{}

// Carries that an accepted plan is refused only for want of room, and what a refusal leaves.
pub fn refused_only_for_want_of_room()
    ensures { RoomDecides × RefusalLeaves }
{}
