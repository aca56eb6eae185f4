// What is proved of whole runs, on the contracts of functions that do nothing: document 01's tally and the claims are
// in specs/, the proofs in proofs/.
#![tactic(auto)]

ghost use Rattle.tally.specs.Demand.{Demand3};
ghost use Rattle.tally.specs.Attained.{Attained};
ghost use Rattle.tally.specs.Cases.{EightCases};
ghost use Rattle.tally.specs.Batches.{Batches};
ghost use Rattle.tally.specs.Malformed.{MalformedFirst};
ghost use Rattle.tally.specs.Generated.{PacketsReadBack};
ghost use Rattle.tally.specs.Forecast.{ForecastIsTheGenerators};

// Demand 3, whole.
pub fn demand_3()
    ensures { Demand3 }
{}

// What demand 3 supposes can be met.
pub fn demand_3_is_attained()
    ensures { Attained }
{}

// Document 01's eight proved cases.
pub fn eight_cases()
    ensures { EightCases }
{}

// Runs that are made with the batch calls are runs of the single calls, of which demand 3 speaks.
pub fn batch_calls_are_single_calls()
    ensures { Batches }
{}

// On a malformed sheet every call refuses by 21 and leaves all as it was.
pub fn malformed_sheet_is_refused()
    ensures { MalformedFirst }
{}

// Each packet that a plan generates reads back, at its place, to its flow, sequence and time.
pub fn every_packet_reads_back()
    ensures { PacketsReadBack }
{}

// The forecast's refusals and figures are the generator's.
pub fn forecast_is_the_generators()
    ensures { ForecastIsTheGenerators }
{}
