// How big a plan will be: its bytes, its last sequence and its last send time, without building a packet (document 02,
// job 12). The Rust has no such call. The judge is the generator's, and nothing is lent, so nothing can change.
// specs/Forecast.antt defines the outcome; that it is the generator's is proved in the crate tally.
#![tactic(auto)]

ghost use Rattle.std.specs.Prelude.{◌≡◌};
ghost use Rattle.forecast.specs.Forecast.{forecast_of};
ghost use Rattle.forecast.specs.Answer.{forecast_means};
ghost use Rattle.forecast.specs.Claims.{LastOfPackets, NoPackets, EnoughForEvery};
ghost use Rattle.forecast.specs.Claims.{ForecastNumbers, Examples};

use error::Refusal;
use measurement::{IpVersion, MeasurementHeader};
use plan::TrafficPlan;

// All packets of a plan: how many bytes they have together, and what the last of them carries.
#[derive(Clone, Copy)]
pub struct PlannedPackets {
    pub bytes: usize,
    pub last: MeasurementHeader,
}

// How big a plan will be, or none where its count is 0. Refuses by 16 to 20, in the generator's order.
pub fn forecast(
    version: IpVersion,
    plan: TrafficPlan,
    next_sequence: u64,
) -> Result<Option<PlannedPackets>, Refusal>
    ensures { forecast_means result ≡ forecast_of version plan next_sequence }
{
    let interval = plan::judge_plan(plan, next_sequence).interval?;
    if plan.packet_count == 0 {
        return Ok(None);
    }
    let last = plan.packet_count - 1;
    Ok(Some(PlannedPackets {
        bytes: plan.packet_count as usize * traffic::packet_length(version),
        last: MeasurementHeader {
            sequence: next_sequence + last,
            send_timestamp_ns: plan.first_send_timestamp_ns + last * interval,
        },
    }))
}

// Carries the figures of an accepted plan in numbers, that a plan without packets has no last one, how many bytes are
// enough for every plan, and which numbers refuse.
pub fn figures_of_a_plan()
    ensures { LastOfPackets × NoPackets × EnoughForEvery × ForecastNumbers }
{}

// Carries the worked examples.
pub fn worked_examples()
    ensures { Examples }
{}
