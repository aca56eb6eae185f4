// One probe through the reflector and back: what it sends is damaged as the scenario says, recorded on the run sheet by
// the proved call, and noted.
#![tactic(auto)]

ghost use Rattle.rows.specs.Columns.{SameMarked};

use error::Refusal;
use measurement::{IPV4_TPDU_BYTES, IPV6_TPDU_BYTES, IpVersion};
use observer::ObserverCounts;
use probe_fate::{Fate, FirstIndication, Notes};
use reflector_answer::{REFLECTOR_BYTES, ReflectorAction, ReflectorState};
use return_calls::GtpuReturnDatagramOutcome;
use rows::MarkedSheet;
use scenario::Scenario;

// What changes from return to return, beside the columns.
#[derive(Clone, Copy)]
pub struct Progress {
    pub counts: ObserverCounts,
    pub state: ReflectorState,
    pub indication: Option<FirstIndication>,
    pub notes: Notes,
}

// What became of a return, by the answer and by the counter that rose.
fn fate(
    before: ObserverCounts,
    recorded: Result<GtpuReturnDatagramOutcome, Refusal>,
    after: ObserverCounts,
) -> Fate {
    match recorded {
        Err(refusal) => Fate::Refused(refusal),
        Ok(GtpuReturnDatagramOutcome::ErrorIndication(_)) => Fate::ErrorIndication,
        Ok(_) if before.duplicate_packets < after.duplicate_packets => Fate::Duplicate,
        Ok(_) if before.out_of_order_packets < after.out_of_order_packets => Fate::OutOfOrder,
        Ok(_) => Fate::Returned,
    }
}

// The packet of a probe: they lie end to end.
fn packet_of(version: IpVersion, packets: &[u8], probe: u64) -> &[u8] {
    let bytes = match version {
        IpVersion::V4 => IPV4_TPDU_BYTES,
        IpVersion::V6 => IPV6_TPDU_BYTES,
    };
    let first = rehearsal_path::row(probe).saturating_mul(bytes);
    let rest = packets.get(first..).unwrap_or(&[]);
    &rest[..bytes.min(rest.len())]
}

// A probe reaches the reflector, and what it sends comes back at a time and is recorded.
pub fn deliver(
    scenario: &Scenario,
    packets: &[u8],
    probe: u64,
    time: u64,
    sheet: &mut MarkedSheet,
    progress: &mut Progress,
)
    ensures { SameMarked sheet.old sheet.new }
{
    let mut out = [0; REFLECTOR_BYTES];
    let packet = packet_of(scenario.version(), packets, probe);
    let known = !rehearsal_path::is_indicated(scenario, probe);
    let reflected = rehearsal_reflector::reflect(
        scenario.version(),
        known,
        &mut progress.state,
        packet,
        &mut out,
    );
    // The reflector answers each packet of the plan.
    let Ok(ReflectorAction::Send(sent)) = reflected else {
        return;
    };
    return_damage::damage(scenario, probe, &mut out);
    let length = return_damage::length_back(scenario, probe, sent.bytes);
    let payload = out.get(..length).unwrap_or(&[]);
    let before = progress.counts;
    let recorded = return_calls::record_return_gtpu_datagram(
        sheet,
        &mut progress.counts,
        time,
        sent.message,
        payload,
    );
    if let Ok(GtpuReturnDatagramOutcome::ErrorIndication(tunnel)) = recorded {
        let later = FirstIndication { probe, tunnel };
        progress.indication = probe_fate::keep_first(progress.indication, later);
    }
    let fate = fate(before, recorded, progress.counts);
    progress.notes.note(rehearsal_path::row(probe), fate);
}
