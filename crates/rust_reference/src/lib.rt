// The Rust itself as definitions (specs/: a file for each of its files, each function in its own shape), and demand 2's
// "the results equal the Rust's" as theorems about them. That the definitions match the Rust is checked by reading both
// side by side, and by running both (compare/).
#![tactic(auto)]

ghost use Rattle.rust_reference.specs.Claims.{EqualsTheRust};

// Carries demand 2: where no added refusal is due and what is read is compared (specs/Compared.antt), the results equal
// the Rust's.
pub fn equals_the_rust()
    ensures { EqualsTheRust }
{}
