// Traffic plans and how they are judged (leaf 5; `TrafficPlan` of the Rust's traffic.rs). One judge serves every call
// that is handed a plan. specs/Plan.antt defines why a plan is refused and which packets it asks for.
#![tactic(auto)]

ghost use Rattle.std.specs.Prelude.{◌≡◌, ◌<◌};
ghost use Rattle.error.specs.Answer.{answered};
ghost use Rattle.plan.specs.Plan.{interval_of, judge_packets, judge_plan};
ghost use Rattle.plan.specs.Claims.{AcceptedIfAcceptable, AcceptableIfAccepted, SequenceDecides, TimeDecides};
ghost use Rattle.plan.specs.Claims.{RateThenCount, PlanNumbers, PacketsOrdered, Intervals, Examples};
ghost use Rattle.plan.specs.Judge.{InTime, Timed, Judges};

use error::Refusal;

// The most packets that a plan may ask for.
pub const MAXIMUM_PACKETS: u64 = 2048;

// A plan of packets.
#[repr(C)]
#[derive(Clone, Copy, Debug, PartialEq, Eq)]
pub struct TrafficPlan {
    pub packet_count: u64,
    pub target_rate_pps: u64,
    pub first_send_timestamp_ns: u64,
}

impl TrafficPlan {
    // The time from one packet to the next, or why there is none.
    #[tactic(auto, using(crate::proofs::Judged::rate_rules))]
    pub fn interval_ns(self) -> Result<u64, Refusal>
        ensures { answered result ≡ interval_of self.target_rate_pps }
    {
        if self.target_rate_pps == 0 {
            return Err(Refusal::TargetRateIsZero);
        }
        match 1_000_000_000 / self.target_rate_pps {
            0 => Err(Refusal::TargetRateExceedsResolution),
            interval => Ok(interval),
        }
    }
}

// A plan's judgement: its interval, or why it has none; and the next sequence afterwards.
#[derive(Clone, Copy, Debug, PartialEq, Eq)]
pub struct JudgedPlan {
    pub interval: Result<u64, Refusal>,
    pub next_sequence: u64,
}

// How many of `count` packets have a send time that fits.
#[tactic(auto, using(crate::proofs::Judged::in_time_some, crate::proofs::Judged::in_time_all))]
fn packets_in_time(first: u64, interval: u64, count: u64) -> u64
    requires { 0 < interval }
    ensures { InTime first interval count result }
{
    let last = (u64::MAX - first) / interval;
    if last < count { last + 1 } else { count }
}

// The packets judged in closed form: the sequence fails first at packet u64::MAX - next_sequence, the time at packet
// `in_time`.
fn judge_packets(plan: TrafficPlan, interval: u64, next_sequence: u64) -> JudgedPlan
    requires { Timed plan interval }
    ensures { Judges plan result (judge_packets plan next_sequence) }
{
    let count = plan.packet_count;
    let in_sequence = u64::MAX - next_sequence;
    let in_time = packets_in_time(plan.first_send_timestamp_ns, interval, count);
    if in_sequence < count && in_sequence <= in_time {
        return JudgedPlan {
            interval: Err(Refusal::SequenceOverflow),
            next_sequence: next_sequence + in_sequence,
        };
    }
    if in_time < count {
        return JudgedPlan {
            interval: Err(Refusal::SendTimestampOverflow),
            next_sequence: next_sequence + in_time + 1,
        };
    }
    JudgedPlan {
        interval: Ok(interval),
        next_sequence: next_sequence + count,
    }
}

// A plan judged whole: 16 to 20.
pub fn judge_plan(plan: TrafficPlan, next_sequence: u64) -> JudgedPlan
    ensures { Judges plan result (judge_plan plan next_sequence) }
{
    match plan.interval_ns() {
        Ok(_) if MAXIMUM_PACKETS < plan.packet_count => JudgedPlan {
            interval: Err(Refusal::TooManyPackets),
            next_sequence,
        },
        Ok(interval) => judge_packets(plan, interval, next_sequence),
        Err(why) => JudgedPlan {
            interval: Err(why),
            next_sequence,
        },
    }
}

// Carries which plans are accepted, and which packets an accepted plan has.
pub fn accepted_exactly_if_acceptable()
    ensures { AcceptedIfAcceptable × AcceptableIfAccepted × PacketsOrdered }
{}

// Carries that the rate decides before the count, and the count before the packets; that the lowest packet that fails
// decides, its sequence before its time; and that only 16 to 20 refuse a plan.
pub fn lowest_failing_packet_decides()
    ensures { RateThenCount × SequenceDecides × TimeDecides × PlanNumbers }
{}

// Carries the worked examples of intervals and plans.
pub fn worked_examples()
    ensures { Intervals × Examples }
{}
