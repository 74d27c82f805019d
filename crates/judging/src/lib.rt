// Document 01's tests 9 to 16, one by one. `steps` makes them, for the crates of this repository.
#![tactic(auto)]

pub mod steps;
