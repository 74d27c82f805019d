// The bits of a frame that are not put yet. `steps` is for the crates of this repository.
#![tactic(auto)]

pub mod steps;
