// What stands in the cells that the standard prints in Figures 23, 26, 31 and 34 to 36, found by the functions that place bytes. Standard
// input has the places of the cells, each as <kind row column>, in a text that is printed as it is. A colon is a cell that a figure leaves
// out, or that our text of it has not whole. UC 17,1 and UC 0,2 are read as in column 1 (docs/DECISIONS).
#![tactic(auto)]

mod cells;
mod clusters;

use test_support::compare;

// What stands at a place, in the words of its figure.
fn cell(kind: u8, row: usize, column: usize) {
    match kind {
        b'd' => cells::input_cell(false, row, column),
        b'e' => cells::ldc_cell(row, column),
        b'a' => cells::address_cell(row, column),
        b'u' => cells::input_cell(true, row, column),
        b'b' => cells::bis_cell(row, column),
        b'f' => cells::unit_cell(row, column),
        _ => cells::columns(column),
    }
}

// Three decimal digits from `at` on.
fn number(text: &[u8], at: usize) -> usize {
    let a = compare::byte_at(text, at) % 16;
    let b = compare::byte_at(text, std::num::wrapping_add_usize(at, 1)) % 16;
    let c = compare::byte_at(text, std::num::wrapping_add_usize(at, 2)) % 16;
    a as usize * 100 + b as usize * 10 + c as usize
}

// The place from `at` on.
fn place(text: &[u8], at: usize) {
    let row = number(text, std::num::wrapping_add_usize(at, 3));
    let column = number(text, std::num::wrapping_add_usize(at, 7));
    cell(
        compare::byte_at(text, std::num::wrapping_add_usize(at, 1)),
        row,
        column,
    );
}

// Byte k of the text, with `left` bytes of a place to pass; how many are left behind it.
fn step(text: &[u8], k: usize, left: usize) -> usize {
    if 0 < left {
        return left - 1;
    }
    if compare::byte_at(text, k) == b'<' {
        place(text, k);
        return 10;
    }
    io::write_all(
        1,
        compare::part(text, k, std::num::wrapping_add_usize(k, 1)),
    );
    0
}

fn show(text: &[u8]) {
    let mut left = 0;
    for k in 0..text.len() {
        left = step(text, k, left);
    }
}

fn main() {
    let mut text = io::large_buffer();
    let n = io::read_full(0, &mut text);
    show(&text[..n]);
}
