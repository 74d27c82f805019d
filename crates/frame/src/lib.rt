// Recording frames (13.15, 13.17.4): a row of 155 bytes and a dc word, 1,932 modulation bits; what is read and handed on. No functions.
#![tactic(auto)]

// The dc words of two frames, none where no 1,268 bits give the frame and # of the next sync. That has no number of its own: 11 is the reader's
// answer.
#[derive(Clone, Copy)]
pub struct TwoRead {
    pub first: Option<u32>,
    pub second: Option<u32>,
}

// What a frame hands on to the next: # of its sync.
#[derive(Clone, Copy)]
pub struct State {
    pub hash: bool,
}
