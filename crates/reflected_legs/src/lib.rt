// Demand 3's legs, "routes included": a T-PDU's way through reflectors, over the definitions that the contract of
// `handle_datagram` names.
#![tactic(auto)]

ghost use Rattle.reflected_legs.specs.Claims.{RoutesIncluded};

// A route does not end a leg, and an echo does: ways through reflectors are those of demand 3.
pub fn routes_keep_the_leg()
    ensures { RoutesIncluded }
{}
