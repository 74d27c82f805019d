// 13.17.2: groups of a frame read by the automaton. `steps` is for the crates of this repository.
#![tactic(auto)]

pub mod steps;
