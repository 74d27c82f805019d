// 13.8: where the bytes of the LDC block stand in the LDC cluster. `steps` is for the crates of this repository.
#![tactic(auto)]

pub mod steps;

// A row, 0 to 495, and a column, 0 to 151, of the LDC cluster.
#[derive(Clone, Copy)]
pub struct Place {
    pub row: usize,
    pub column: usize,
}
