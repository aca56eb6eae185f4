// The packets of a rehearsal, by an engine (leaf 5), and how big they will be.
#![tactic(auto)]

ghost use Rattle.std.specs.Prelude.{◌≡◌};
ghost use Rattle.error.specs.Answer.{answered};
ghost use Rattle.traffic.specs.Generate.{generate_of};
ghost use Rattle.forecast.specs.Answer.{forecast_means};
ghost use Rattle.forecast.specs.Forecast.{forecast_of};

use error::Refusal;
use forecast::PlannedPackets;
use measurement::InnerIpFlow;
use plan::TrafficPlan;
use traffic::TrafficEngine;

// The plan's packets, by an engine that is lent its own record, and how many bytes they have. The first has sequence 1.
pub fn generate(flow: InnerIpFlow, plan: TrafficPlan, out: &mut [u8]) -> Result<usize, Refusal>
    ensures { (answered result ≡ (generate_of flow plan 1 out.old).outcome)
        × (out.new ≡ (generate_of flow plan 1 out.old).buffer) }
{
    let mut engine = TrafficEngine::with_first_sequence(1);
    engine.generate(flow, plan, out)
}

// How big the plan will be, from that first sequence on.
pub fn forecast(flow: InnerIpFlow, plan: TrafficPlan) -> Result<Option<PlannedPackets>, Refusal>
    ensures { forecast_means result ≡ forecast_of flow.version plan 1 }
{
    forecast::forecast(flow.version, plan, 1)
}
