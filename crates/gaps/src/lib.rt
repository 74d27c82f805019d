// Gap lengths counted in bits (document 01, the tally). The steps are for the crates of this repository.
#![tactic(auto)]

pub mod steps;

// The answer to the tally's input: refused, or the counts of the gap lengths 1 to 8.
#[derive(Clone, Copy)]
pub struct Tally {
    pub accepted: bool,
    pub counts: [u32; 8],
}
