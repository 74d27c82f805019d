// 13.2 to 13.14: the ECC cluster of user bytes, a PSN and side data, written. `steps` is for the crates of this repository.
#![tactic(auto)]

pub mod steps;
