// The rows of the table of remainders: made of a byte, or of the row with one zero less, and put. `steps` is for the crates of this repository.
#![tactic(auto)]

pub mod steps;
