// The text of records for the queue: a record a line, and for each line what is printed. `steps`, for the crates of this repository, reads it byte by
// byte, however long it is.
#![tactic(auto)]

pub mod steps;

use order_queue::Queue;
use texts::Text;

// A line that is being read: its first twelve bytes, and how many there are, 13 where it is longer. A submit is twelve digits, and no record is longer.
#[derive(Clone, Copy)]
pub struct RecordLine {
    pub text: [u8; 12],
    pub size: usize,
}

// What was read: the line that is begun, and the queue behind the lines before it.
#[derive(Clone, Copy)]
pub struct RecordsRead {
    pub line: RecordLine,
    pub queue: Queue,
}

// What was read with a byte more, and what is printed behind that byte.
#[derive(Clone, Copy)]
pub struct RecordsStep {
    pub read: RecordsRead,
    pub text: Text,
}
