// Tests 6 to 8: the PSN and the dc words of what is to be written. `steps` is for the crates of this repository.
#![tactic(auto)]

pub mod steps;
