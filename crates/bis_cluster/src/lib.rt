// 13.13: the BIS cluster, put into the ECC cluster and taken out of it. `steps` is for the crates of this repository.
#![tactic(auto)]

pub mod steps;
