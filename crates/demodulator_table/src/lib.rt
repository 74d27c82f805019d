// 13.17.2: the automaton's table by which two and three groups are read at once, made and read. `steps` is for the crates of this repository.
#![tactic(auto)]

pub mod steps;
