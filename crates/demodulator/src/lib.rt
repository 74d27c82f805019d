// The 17PP demodulator (13.17.2): strict, by the automaton. `steps` reads frames, for the crates of this repository.
#![tactic(auto)]

pub mod steps;

// The words of two frames.
#[derive(Clone, Copy)]
pub struct TwoWords {
    pub first: Option<[u64; 29]>,
    pub second: Option<[u64; 29]>,
}
