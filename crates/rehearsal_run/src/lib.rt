// A rehearsal of a cutover in memory: a plan's probes go through the reflector and back over a path that does what the
// scenario says, and what came back is recorded in the order of arrival. Packets, echoes, the run sheet and the report
// come from the proved calls; this crate itself is proved only to be safe and to end.
#![tactic(auto)]

ghost use Rattle.rows.specs.Columns.{SameMarked};

use error::Refusal;
use evidence::{PacketContinuityBudget, PacketContinuityReport};
use forecast::PlannedPackets;
use observer::ObserverCounts;
use plan::TrafficPlan;
use probe_delivery::Progress;
use probe_fate::{FirstIndication, Notes};
use reflector_answer::ReflectorStats;
use rehearsal_path::Path;
use rows::{MarkedSheet, Sheet, WrittenSheet};
use scenario::Scenario;
use word_names::Number;

// The first probe is sent at 1 s, so that a return can be early.
const FIRST_SEND_NS: u64 = 1_000_000_000;

// The rows of the run sheet.
const ROWS: usize = 2048;

// Room for the packets of the largest plan.
const PACKET_BYTES: usize = 147_456;

// Room for the keys of the largest plan's returns and for one more, so that `put_in_order` puts all of them.
const KEYS: usize = 4097;

fn plan_of(scenario: &Scenario) -> TrafficPlan {
    TrafficPlan {
        packet_count: u64::from(scenario.number(Number::Count)),
        target_rate_pps: u64::from(scenario.number(Number::Rate)),
        first_send_timestamp_ns: FIRST_SEND_NS,
    }
}

fn budget_of(scenario: &Scenario) -> PacketContinuityBudget {
    PacketContinuityBudget {
        max_lost_packets: u64::from(scenario.number(Number::MaxLost)),
        max_consecutive_lost_packets: u64::from(scenario.number(Number::MaxRun)),
        outage_budget_ns: u64::from(scenario.number(Number::MaxOutageMs)) * 1_000_000,
    }
}

// How big the plan will be, before anything is generated.
pub fn forecast(scenario: &Scenario) -> Result<Option<PlannedPackets>, Refusal> {
    let flow = rehearsal_reflector::flow(scenario.version());
    rehearsal_packets::forecast(flow, plan_of(scenario))
}

// Puts what comes back in its order, and has it recorded, one return after the other.
fn travel(scenario: &Scenario, packets: &[u8], sheet: &mut MarkedSheet, progress: &mut Progress)
    ensures { SameMarked sheet.old sheet.new }
{
    let path = Path {
        scenario,
        send_timestamps: sheet.send_timestamps,
    };
    let mut keys = [0; KEYS];
    let mut order = [0; KEYS];
    path.list_returns(&mut keys);
    let returns = return_order::put_in_order(&keys, &mut order);
    for key in &order[..returns] {
        let probe = rehearsal_path::probe_of(return_order::number_of(*key));
        let time = return_order::time_of(*key);
        probe_delivery::deliver(scenario, packets, probe, time, sheet, progress);
    }
}

// The end of the measurement window: one interval after the last send time.
fn window_end(scenario: &Scenario, send_timestamps: &[u64]) -> u64 {
    let path = Path {
        scenario,
        send_timestamps,
    };
    let last = path.send_time(u64::from(scenario.number(Number::Count)));
    match scenario.number(Number::Rate) {
        0 => 0,
        rate => last.wrapping_add(1_000_000_000 / u64::from(rate)),
    }
}

// The columns of the run sheet. The caller lends them, so that they stand on the stack once.
#[derive(Clone, Copy)]
pub struct Columns {
    sequences: [u64; ROWS],
    send_timestamps: [u64; ROWS],
    latencies: [u64; ROWS],
    marks: [u8; ROWS],
    arrival_timestamps: [u64; ROWS],
}

impl Columns {
    pub fn fresh() -> Self {
        Self {
            sequences: [0; ROWS],
            send_timestamps: [0; ROWS],
            latencies: [0; ROWS],
            marks: [0; ROWS],
            arrival_timestamps: [0; ROWS],
        }
    }
}

// What a rehearsal leaves: the run sheet, the report, and what was noted beside them.
#[derive(Clone, Copy)]
pub struct Rehearsed<'a> {
    pub report: PacketContinuityReport,
    pub stats: ReflectorStats,
    pub indication: Option<FirstIndication>,
    pub notes: Notes,
    sheet: Sheet<'a>,
}

impl<'a> Rehearsed<'a> {
    pub fn sheet(&self) -> Sheet<'a> {
        self.sheet
    }
}

// Nothing was sent, and nothing came back.
fn start() -> Progress {
    Progress {
        counts: ObserverCounts {
            duplicate_packets: 0,
            out_of_order_packets: 0,
            gtpu_error_indications: 0,
            used: 0,
        },
        state: rehearsal_reflector::fresh(),
        indication: None,
        notes: Notes::fresh(),
    }
}

// Rehearses a scenario on a fresh run sheet: the plan's probes are entered as sent, and travel.
pub fn rehearse<'a>(
    scenario: &Scenario,
    columns: &'a mut Columns,
) -> Result<Rehearsed<'a>, Refusal> {
    let plan = plan_of(scenario);
    let mut packets = [0; PACKET_BYTES];
    rehearsal_packets::generate(
        rehearsal_reflector::flow(scenario.version()),
        plan,
        &mut packets,
    )?;
    let mut progress = start();
    let mut written = WrittenSheet {
        sequences: &mut columns.sequences,
        send_timestamps: &mut columns.send_timestamps,
        latencies: &mut columns.latencies,
        marks: &mut columns.marks,
        arrival_timestamps: &mut columns.arrival_timestamps,
    };
    sent_plan::record_sent_plan(&mut written, &mut progress.counts, plan, 1)?;
    let mut marked = MarkedSheet {
        sequences: &columns.sequences,
        send_timestamps: &columns.send_timestamps,
        latencies: &mut columns.latencies,
        marks: &mut columns.marks,
        arrival_timestamps: &mut columns.arrival_timestamps,
    };
    travel(scenario, &packets, &mut marked, &mut progress);
    let sheet = Sheet {
        sequences: &columns.sequences,
        send_timestamps: &columns.send_timestamps,
        latencies: &columns.latencies,
        marks: &columns.marks,
        arrival_timestamps: &columns.arrival_timestamps,
    };
    let report = report::report(
        sheet,
        progress.counts,
        FIRST_SEND_NS,
        window_end(scenario, sheet.send_timestamps),
        budget_of(scenario),
    )?;
    Ok(Rehearsed {
        report,
        stats: progress.state.stats,
        indication: progress.indication,
        notes: progress.notes,
        sheet,
    })
}
