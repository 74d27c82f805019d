// 13.16: a recording written from any bit on. `steps` is for the crates of this repository.
#![tactic(auto)]

pub mod steps;
