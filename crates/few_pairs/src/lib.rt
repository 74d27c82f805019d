// Data bits to modulation bits by the rows of Figure 38 (13.17.2), a few pairs at a time. `steps` is for the crates of this repository.
#![tactic(auto)]

pub mod steps;
