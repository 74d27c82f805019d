// What is kept of a sheet's file: the first 64 PSNs, their lines and how many there are, and the first line that is no PSN.
// `steps`, for the crates of this repository, reads it byte by byte, however long it is.
#![tactic(auto)]

pub mod steps;

use address::Psn;

// A line that is being read: its first eight bytes, how many there are, and the length of what stands on it, 9 where it is longer.
#[derive(Clone, Copy)]
pub struct Line {
    pub text: [u8; 8],
    pub held: usize,
    pub size: usize,
}

// Entries. count is 65 where there are more than 64; wrong is the first line that is no PSN.
#[derive(Clone, Copy)]
pub struct SheetEntries {
    pub psns: [Psn; address_sheet::SHEET],
    pub lines: [usize; address_sheet::SHEET],
    pub count: usize,
    pub wrong: Option<usize>,
}

// What was read of a file, with the number of lines that ended.
#[derive(Clone, Copy)]
pub struct SheetFile {
    pub line: Line,
    pub before: usize,
    pub entries: SheetEntries,
}
