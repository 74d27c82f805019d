// LDC code words, completed by their parity. `steps` is for the crates of this repository.
#![tactic(auto)]

pub mod steps;
