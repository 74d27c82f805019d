// What is given beside what was read in an image: the marker's verdict. `steps` is for the crates of this repository.
#![tactic(auto)]

pub mod steps;
