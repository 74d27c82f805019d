// 13.11, 13.12: the BIS block of a cluster, written. `steps` is for the crates of this repository.
#![tactic(auto)]

pub mod steps;
