// Reading a T-PDU (leaf 4): the definition is in specs/, and the call that reads one is in measurement_decode. What is
// proved of it (specs/Claims.antt, specs/Fragments.antt, specs/Padding.antt) is on the contracts of functions that do
// nothing.
#![tactic(auto)]

ghost use Rattle.measurement_reading.specs.Claims.{ReadingNumbers, CutIsNot4, CutExamples};
ghost use Rattle.measurement_reading.specs.Fragments.{FragmentsNotRead, RefusedAsFragment};
ghost use Rattle.measurement_reading.specs.Padding.{JudgedByRfcs, PaddingIgnored, PaddingExamples};

// Reading refuses by 1 to 14, 38 or 39.
pub fn refuses_by_its_numbers()
    ensures { ReadingNumbers }
{}

// A packet that is cut before its UDP header ends is told from one whose IHL is below 5.
pub fn cut_is_not_ihl()
    ensures { CutIsNot4 × CutExamples }
{}

// No fragment is read; 38 is given exactly where a packet is a fragment and no earlier cause holds.
pub fn fragments_are_refused()
    ensures { FragmentsNotRead × RefusedAsFragment }
{}

// A UDP part is judged as the RFCs have it, in both versions.
pub fn udp_is_judged_by_rfcs()
    ensures { JudgedByRfcs }
{}

// Padding behind a UDP segment changes no answer.
pub fn padding_is_ignored()
    ensures { PaddingIgnored × PaddingExamples }
{}
