// Test 15: the LDC columns of an ECC cluster. `steps` is for the crates of this repository.
#![tactic(auto)]

pub mod steps;
