// Sums of a number's bits, modulo 2. `steps` is for the crates of this repository.
#![tactic(auto)]

pub mod steps;
