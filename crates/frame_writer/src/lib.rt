// 13.15, 13.17: a recording frame written. `steps` is for the crates of this repository.
#![tactic(auto)]

pub mod steps;
