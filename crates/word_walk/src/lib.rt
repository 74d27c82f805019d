// What a word of a frame needs, pair by pair (document 02, W-212). `steps` is for the crates of this repository.
#![tactic(auto)]

pub mod steps;
