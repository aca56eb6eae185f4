// What is proved of building, reading and echoing together (specs/Claims.antt, specs/Fragments.antt,
// specs/Padding.antt), on the contracts of functions that do nothing. The echo is defined here; the call that echoes is
// in measurement_echo.
#![tactic(auto)]

ghost use Rattle.measurement_damage.specs.Claims.{ReadsBack, EchoIsReversed, EchoOfEcho};
ghost use Rattle.measurement_damage.specs.Claims.{DamageFound, SentIsRead, LegsChained};
ghost use Rattle.measurement_damage.specs.Fragments.{BuiltWithFlags, FragmentsNotEchoed};
ghost use Rattle.measurement_damage.specs.Padding.{BuiltWithPadding, PaddingNotEchoed};

// A built packet reads back to its flow, sequence and time.
pub fn built_packet_reads_back()
    ensures { ReadsBack }
{}

// The echo of a built packet is the build of the reversed flow, and the echo of that echo is the packet itself.
pub fn echo_is_reversed()
    ensures { EchoIsReversed × EchoOfEcho }
{}

// Demand 3, first sentence; and a T-PDU of which no bit turned is read as what its leg began with.
pub fn damage_is_found()
    ensures { DamageFound × SentIsRead }
{}

// Over any number of echoes, with one span that may turn on each leg: what arrives is the undamaged T-PDU, echoed as
// often, with at most one span turned.
pub fn legs_are_chained()
    ensures { LegsChained }
{}

// A built IPv4 packet with other flags is read, unless they make it a fragment, which is refused by 38.
pub fn flags_decide()
    ensures { BuiltWithFlags }
{}

// No fragment is echoed.
pub fn fragments_are_not_echoed()
    ensures { FragmentsNotEchoed }
{}

// A built packet that was padded on its way is read and echoed as it was built.
pub fn padded_packet_reads_back()
    ensures { BuiltWithPadding }
{}

// Padding changes no echo.
pub fn padding_is_not_echoed()
    ensures { PaddingNotEchoed }
{}
