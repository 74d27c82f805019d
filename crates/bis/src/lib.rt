// 13.9 to 13.13: the BIS block and what is read in it, as definitions. No code.
#![tactic(auto)]

use address::Psn;

// The BIS block by its columns, 24 code words of 62 bytes.
pub type Block = [[u8; 62]; 24];

// The address fields of units 0 to 15.
pub type Fields = [[u8; 9]; 16];

// The PSN of a cluster by its sixteen AUNs. It has no number of its own: 14 is the reader's answer.
#[derive(Clone, Copy)]
pub enum PsnFound {
    Found(Psn),
    NotFound,
}
