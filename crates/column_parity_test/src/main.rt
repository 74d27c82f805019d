// Document 02, W-207. Standard input has the first 255 bytes of a cluster's user data. Prints n and the parity of the first n of them, for n from 1 to
// 223, as an independent program printed it; then lengths of data and of the parity slice that are refused, the answer, and in how many places the
// bytes lent were changed.
#![tactic(auto)]

use test_support::{compare, lines};

fn vector(bytes: &[u8], n: usize) {
    let mut parity = [0u8; 32];
    let answer = column_parity::write_parity(compare::part(bytes, 0, n), &mut parity);
    if answer.number() != 0 {
        lines::answer_line(b"refused: ", answer);
    }
    lines::number(b"", n as u64);
    lines::bytes_line(b" ", &parity);
}

fn vectors(bytes: &[u8]) {
    for n in 1..224usize {
        vector(bytes, n);
    }
}

// n data bytes, and a parity slice of `size` bytes.
fn refusal(bytes: &[u8], n: usize, size: usize) {
    let before = [0xA5u8; 40];
    let mut parity = before;
    let answer = column_parity::write_parity(
        compare::part(bytes, 0, n),
        compare::first(&mut parity, size),
    );
    lines::number(b"data ", n as u64);
    lines::number(b", parity slice ", size as u64);
    lines::answer_line(b": ", answer);
    lines::number_line(b"changed: ", compare::differing(&before, &parity));
}

fn refusals(bytes: &[u8]) {
    refusal(bytes, 0, 32);
    refusal(bytes, 224, 32);
    refusal(bytes, 255, 32);
    refusal(bytes, 1, 31);
    refusal(bytes, 223, 31);
    refusal(bytes, 1, 33);
    refusal(bytes, 223, 33);
    refusal(bytes, 216, 0);
    refusal(bytes, 0, 0);
}

fn main() {
    let mut bytes = [0u8; 255];
    io::read_full(0, &mut bytes);
    vectors(&bytes);
    refusals(&bytes);
}
