// The table by which data bits are modulated a byte at a time, made of the rows of Figure 38. `steps` is for the crates of this repository.
#![tactic(auto)]

pub mod steps;
