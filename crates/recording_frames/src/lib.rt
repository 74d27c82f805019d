// 13.16: the frames of a recording strictly read from any bit on, test 11. `steps` is for the crates of this repository.
#![tactic(auto)]

pub mod steps;
