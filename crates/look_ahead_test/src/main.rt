// Document 02, W-212. Standard input has 24 records of 159 bytes: a dc word, the highest byte first, and a row. Prints answer, place and bits of each;
// `stdout` has them from an independent program. Then the same of rows of other lengths and of dc words that are refused.
#![tactic(auto)]

use look_ahead::Ahead;
use test_support::{compare, lines};

fn print(ahead: Ahead) {
    let answer = ahead.answer;
    lines::number(b"", answer.number() as u64);
    lines::number(b" ", answer.place() as u64);
    lines::number_line(b" ", ahead.bits as u64);
}

fn dc_word(record: &[u8]) -> u32 {
    big_endian::word(
        compare::byte_at(record, 0),
        compare::byte_at(record, 1),
        compare::byte_at(record, 2),
        compare::byte_at(record, 3),
    )
}

fn vector() {
    let mut record = [0u8; 159];
    io::read_full(0, &mut record);
    print(look_ahead::most_needed(compare::part(&record, 4, 159), dc_word(&record)));
}

fn vectors() {
    for _ in 0..24usize {
        vector();
    }
}

// A row of n bytes.
fn row_of(n: usize, dc: u32) {
    let row = [0u8; 310];
    print(look_ahead::most_needed(compare::part(&row, 0, n), dc));
}

fn refusals() {
    row_of(0, 0);
    row_of(154, 0);
    row_of(156, 0);
    row_of(310, 0);
    row_of(154, 0x1000_0000);
    row_of(156, 0xFFFF_FFFF);
    row_of(155, 0x1000_0000);
    row_of(155, 0xFFFF_FFFF);
}

fn main() {
    vectors();
    refusals();
}
