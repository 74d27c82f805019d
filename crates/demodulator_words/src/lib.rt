// 13.17.2: the words of 46 data bits that a frame is read as. `steps` is for the crates of this repository.
#![tactic(auto)]

pub mod steps;

// A word of 46 data bits, and what is held of the next.
#[derive(Clone, Copy)]
pub struct Next {
    pub word: u64,
    pub held: u64,
}
