// What is printed for a sheet's file, as bytes. `steps` is for the crates of this repository.
#![tactic(auto)]

pub mod steps;
