// A T-PDU as it is built (leaf 3): the definitions are in specs/, and the call that builds one is in measurement_build.
#![tactic(auto)]

ghost use Rattle.measurement_packet.specs.Claims.{ChecksumsVerify};

// The checksums of a built packet are right by the RFCs.
pub fn checksums_verify()
    ensures { ChecksumsVerify }
{}
