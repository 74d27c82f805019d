// The states of the modulating machine, and what a pair of data bits gives in each. `steps` is for the crates of this repository.
#![tactic(auto)]

pub mod steps;
