// 13.15: the words of a frame, taken apart. `steps` is for the crates of this repository.
#![tactic(auto)]

pub mod steps;
