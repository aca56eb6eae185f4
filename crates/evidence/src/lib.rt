// What a run is held to, and how late its packets were (leaf 1; the Rust's evidence.rs without its schema, flow name,
// serde and redaction).
#![tactic(auto)]

ghost use Rattle.std.specs.Prelude.{◌≡◌};
ghost use Rattle.evidence.specs.Budget.{zero_loss};

// The most that a run may lose.
#[repr(C)]
#[derive(Clone, Copy, Debug, PartialEq, Eq)]
pub struct PacketContinuityBudget {
    // Lost packets in the measurement window.
    pub max_lost_packets: u64,
    // Packets lost one after the other.
    pub max_consecutive_lost_packets: u64,
    // The duration of a run of lost packets.
    pub outage_budget_ns: u64,
}

impl PacketContinuityBudget {
    // The budget that allows no loss at all.
    pub fn zero_loss() -> Self
        ensures { result ≡ zero_loss }
    {
        Self {
            max_lost_packets: 0,
            max_consecutive_lost_packets: 0,
            outage_budget_ns: 0,
        }
    }
}

// The latencies of the packets that returned, in nanoseconds: the least, the greatest, and the mean rounded down.
#[derive(Clone, Copy, Debug, PartialEq, Eq)]
pub struct LatencySummary {
    pub min_ns: u64,
    pub max_ns: u64,
    pub avg_ns: u64,
}

// The report on a run: its numbers and two verdicts (leaf 7 says how each is reached).
#[derive(Clone, Copy, Debug, PartialEq, Eq)]
pub struct PacketContinuityReport {
    // The measurement window.
    pub window_start_ns: u64,
    pub window_end_ns: u64,
    // Sequences that were sent, that returned, and the difference.
    pub sent_packets: u64,
    pub received_packets: u64,
    pub lost_packets: u64,
    // Returns of a sequence that had returned before.
    pub duplicate_packets: u64,
    // First returns of a sequence below one that had returned before.
    pub out_of_order_packets: u64,
    // Error Indications on the return path.
    pub gtpu_error_indications: u64,
    // The longest run of lost packets by count, and the longest by duration: not always the same run.
    pub max_consecutive_lost_packets: u64,
    pub max_gap_duration_ns: u64,
    // None where no packet returned.
    pub latency: Option<LatencySummary>,
    // What the run was held to.
    pub budget: PacketContinuityBudget,
    // Some packet returned.
    pub forwarding_proven: bool,
    // The losses are within the budget, and there was no Error Indication.
    pub packet_continuity_proven: bool,
}
