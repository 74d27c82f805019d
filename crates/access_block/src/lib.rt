// 13.9, 13.10: address fields and access block, written. `steps` is for the crates of this repository.
#![tactic(auto)]

pub mod steps;
