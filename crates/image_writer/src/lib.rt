// The image of an accepted input: frames, the sync that follows, and two zero bits. `steps` is for the crates of this repository.
#![tactic(auto)]

pub mod steps;
