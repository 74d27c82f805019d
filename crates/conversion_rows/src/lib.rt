// The rows of Figure 38 (13.17.2), and what each gives. `steps` is for the crates of this repository.
#![tactic(auto)]

pub mod steps;
