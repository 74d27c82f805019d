// Tests 12 to 16 of an ECC cluster, one after the other. `steps` is for the crates of this repository.
#![tactic(auto)]

pub mod steps;
