// 13.15, 13.17.4: recording frames read strictly. `steps` is for the crates of this repository.
#![tactic(auto)]

pub mod steps;
