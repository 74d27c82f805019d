// The pass over a sector: error-detection code (13.3) and scrambling (13.4) together. `steps` is for the crates of this repository.
#![tactic(auto)]

pub mod steps;
