// Code words of 32 parity bytes, eight bytes a step, by a lent table of remainders: their parity and the test of their roots. `steps` is for the
// crates of this repository.
#![tactic(auto)]

pub mod steps;
