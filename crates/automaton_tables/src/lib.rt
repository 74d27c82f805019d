// 13.17.2: the automaton's transitions and ends as constant tables, as the definition has them. `steps` is for the crates of this repository.
#![tactic(auto)]

pub mod steps;
