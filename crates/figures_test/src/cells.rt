// What stands in a cell of a figure, printed as the figure does.
use crate::clusters;
use address::Psn;
use test_bytes::hash;
use test_support::{compare, lines};

// A text and two numbers.
fn pair(text: &[u8], a: usize, b: usize) {
    lines::number(text, a as u64);
    lines::number(b",", b as u64);
}

// Figure 23: d k,F; Figure 31: UC j,S.
pub fn input_cell(bis: bool, row: usize, column: usize) {
    let found = clusters::found(bis, row, column).unwrap_or(66256);
    if found < 65680 {
        pair(b"d", found % 2052, found / 2052);
    } else {
        pair(b"UC", (found - 65680) % 18, (found - 65680) / 18);
    }
}

// ---- Figure 26: e i,L and p i,L

// The code word of the only byte that is not zero.
fn word_with(at: usize) -> usize {
    let mut work = clusters::no_work();
    compare::flip(&mut work, at, 1);
    let mut table = remainders::steps::no_remainders();
    remainders::steps::fill_remainders(&mut table);
    ldc_reader::steps::first_wrong_word(&table, &work).unwrap_or(304)
}

// The byte of a code word that stands in a row and a column of the LDC cluster.
fn byte_of(word: usize, row: usize, column: usize) -> Option<usize> {
    (0..248).find(|&n| {
        let place = ldc::steps::locate(word % 304, n);
        place.row == row && place.column == column
    })
}

pub fn ldc_cell(row: usize, column: usize) {
    let word = word_with(clusters::ldc_index(row, column));
    let byte = byte_of(word, row, column).unwrap_or(248);
    if byte < 216 {
        pair(b"e", byte, word);
    } else {
        pair(b"p", byte, word);
    }
}

// ---- Figures 34 and 35: N,C

// The first byte of a block that is not zero, as 62 C + N.
fn first_in(block: bis::Block) -> Option<usize> {
    (0..1488).find(|&k| block[k / 62][k % 62] != 0)
}

// The byte of the BIS block that stands at a place of the cluster.
fn bis_byte(at: usize) -> Option<usize> {
    let mut work = clusters::no_work();
    compare::flip(&mut work, at, 1);
    first_in(clusters::block_in(work))
}

// The same in a row and a column of the BIS cluster.
fn bis_byte_in(row: usize, column: usize) -> Option<usize> {
    bis_byte(155 * (row % 496) + 39 * (column % 3) + 38)
}

pub fn bis_cell(row: usize, column: usize) {
    let k = bis_byte_in(row, column).unwrap_or(1488);
    pair(b"", k % 62, k / 62);
}

// ---- Figures 31 and 36: AF x,y

// The only place of a byte in an address field.
fn place_in(field: [u8; 9], byte: u8) -> Option<usize> {
    let mut marks = [0u64; 9];
    clusters::add(&mut marks, 0, &field);
    clusters::only(&marks, hash::more(0, byte))
}

fn with_change(column: [u8; 62], n: usize) -> [u8; 62] {
    let mut out = column;
    out[n % 62] = out[n % 62] ^ 1;
    out
}

// The address field that is wrong where byte n of column c is changed.
fn wrong_field(block: bis::Block, n: usize, c: usize) -> Option<usize> {
    let mut out = block;
    out[c % 24] = with_change(out[c % 24], n);
    bis_fields::first_wrong_field(out)
}

// The address field in which byte n of column c stands, and its place there. In the cluster drawn by 7 the nine bytes of each field differ.
pub fn address_cell(n: usize, c: usize) {
    let block = clusters::block_in(clusters::drawn(7));
    let unit = wrong_field(block, n, c).unwrap_or(16);
    let side = clusters::side(7);
    let aun = Psn(clusters::PSN).aun((unit % 16) as u32);
    let field = address_field::address_field(aun.aun, side[unit % 592]);
    let place = place_in(field, block[c % 24][n % 62]).unwrap_or(9);
    pair(b"AF", place, unit);
}

// The same in a row and a column of the BIS cluster.
pub fn unit_cell(row: usize, column: usize) {
    match bis_byte_in(row, column) {
        Some(k) => address_cell(k % 62, k / 62),
        None => lines::number(b"no BIS byte ", 1488),
    }
}

// ---- Figure 36

// Where columns of the other kind start, or the row ends.
fn kind_end(from: usize) -> usize {
    let bis = bis_byte(from).is_some();
    (from..155)
        .find(|&c| bis_byte(c).is_some() != bis)
        .unwrap_or(155)
}

// Whether the columns from this one on are of the LDC or the BIS cluster, and how many of one kind follow one another.
pub fn columns(from: usize) {
    let count = std::num::wrapping_sub_usize(kind_end(from), from) as u64;
    if bis_byte(from).is_some() {
        lines::number(b"BIS ", count);
    } else {
        lines::number(b"LDC ", count);
    }
}
