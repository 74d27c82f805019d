// 13.15: the words of a frame, woven of a row and a dc word. `steps` is for the crates of this repository.
#![tactic(auto)]

pub mod steps;
