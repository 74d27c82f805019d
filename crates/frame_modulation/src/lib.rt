// 13.17.2: a frame modulated, between the bits around it. `steps` is for the crates of this repository.
#![tactic(auto)]

pub mod steps;
