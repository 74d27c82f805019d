// An ECC cluster strictly read: tests 12 to 16, then what it was made of. `steps` reads it, for the crates of this repository.
#![tactic(auto)]

pub mod steps;
