// The tally's answers to inputs of a known cluster. Standard input holds seven records of 161 bytes: #, sync number, dc word, row.
#![tactic(auto)]

use test_support::{compare, lines};

fn print_counts(counts: [u32; 8]) {
    for &count in counts.iter() {
        lines::number(b" ", count as u64);
    }
}

fn tally_line(text: &[u8], input: &[u8]) {
    io::write_all(1, text);
    match frame_gaps::tally_of(input) {
        Some(counts) => print_counts(counts),
        None => {
            io::write_all(1, b" refused");
        }
    }
    lines::end_line();
}

// The tally's answer with one byte of its input changed.
fn tally_with(text: &[u8], input: [u8; 161], at: usize, value: u8) {
    let mut changed = input;
    compare::put(&mut changed, at, value);
    tally_line(text, &changed);
}

// The tally's answer with a zero behind its input, and without the last byte.
fn other_lengths(input: [u8; 161]) {
    let mut long = [0u8; 162];
    compare::copy(&input, &mut long, 0);
    tally_line(b"162 bytes", &long);
    let mut short = [0u8; 160];
    compare::copy(&input, &mut short, 0);
    tally_line(b"160 bytes", &short);
}

// What the tally refuses.
fn refusals(input: [u8; 161]) {
    other_lengths(input);
    tally_with(b"# 2", input, 0, 2);
    tally_with(b"number 7", input, 1, 7);
    tally_with(b"dc word 1.......h", input, 2, 0x10);
}

// Another #, number and dc word.
fn changes(input: [u8; 161]) {
    tally_with(b"# 0", input, 0, 0);
    tally_with(b"# 1", input, 0, 1);
    tally_with(b"number 6", input, 1, 6);
    tally_with(b"dc word 0F......h", input, 2, 0x0f);
}

fn record() -> [u8; 161] {
    let mut input = [0u8; 161];
    io::read_full(0, &mut input);
    tally_line(b"record", &input);
    input
}

fn main() {
    let first = record();
    refusals(first);
    changes(first);
    for k in 0..6usize {
        record();
    }
}
