// Document 02, W-210. Standard input has sectors 0 and 31 of an outside vector, whose PSN is 02F76400h, then their scrambled data frames, taken out of its
// ECC cluster. Prints the sums of error-detection codes, of parities and of data frames; and in how many bytes the last fails where one frame is left
// plain, or is of another cluster.
#![tactic(auto)]

use address::Psn;
use test_support::{compare, lines};

// The PSN of the cluster, and that of the next cluster.
const PSN: u32 = 0x02F7_6400;

const NEXT: u32 = 0x02F7_6420;

fn edc_of(sector: &[u8]) -> u64 {
    edc::edc(sector) as u64
}

fn edc_lines(a: [u8; 2048], b: [u8; 2048]) {
    let mut both = a;
    compare::combine(&mut both, &b);
    lines::hex_line(b"EDC of sector 0: ", edc_of(&a), 8);
    lines::hex_line(b"EDC of sector 31: ", edc_of(&b), 8);
    lines::hex_line(b"EDCs combined: ", edc_of(&a) ^ edc_of(&b), 8);
    lines::hex_line(b"EDC of the sectors combined: ", edc_of(&both), 8);
}

fn parity_of(column: &[u8]) -> [u8; 32] {
    let mut parity = [0u8; 32];
    let answer = column_parity::write_parity(column, &mut parity);
    if answer.number() != 0 {
        lines::answer_line(b"refused: ", answer);
    }
    parity
}

fn parity_lines(a: &[u8], b: &[u8]) {
    let mut both = [0u8; 216];
    compare::combine(&mut both, a);
    compare::combine(&mut both, b);
    let of_b = parity_of(b);
    let mut parities = parity_of(a);
    lines::bytes_line(b"parity of column 0: ", &parities);
    lines::bytes_line(b"parity of column 303: ", &of_b);
    compare::combine(&mut parities, &of_b);
    lines::bytes_line(b"parities combined: ", &parities);
    lines::bytes_line(b"parity of the columns combined: ", &parity_of(&both));
}

// 13.5: the first 216 bytes of the first data frame are column 0 of the data block, the last 216 of the last one column 303.
fn columns(first: [u8; 2052], last: [u8; 2052]) {
    parity_lines(
        compare::part(&first, 0, 216),
        compare::part(&last, 1836, 2052),
    );
}

// The data frame of a sector, not scrambled.
fn plain_frame(sector: &[u8]) -> [u8; 2052] {
    let mut frame = [0u8; 2052];
    sector::data_frame(sector, b"", &mut frame);
    frame
}

// The data frame of a sector, scrambled.
fn scrambled(sector: &[u8], psn: u32) -> [u8; 2052] {
    let mut frame = [0u8; 2052];
    sector::data_frame(sector, &scrambling::scrambling(Psn(psn)), &mut frame);
    frame
}

fn sum(a: [u8; 2052], b: [u8; 2052]) -> [u8; 2052] {
    let mut both = a;
    compare::combine(&mut both, &b);
    both
}

fn first_bytes(text: &[u8], frame: [u8; 2052]) {
    lines::bytes_line(text, compare::part(&frame, 0, 16));
}

// In how many bytes the sum of two frames differs from what is expected.
fn sum_line(text: &[u8], expected: [u8; 2052], a: [u8; 2052], b: [u8; 2052]) {
    lines::number_line(text, compare::differing(&expected, &sum(a, b)));
}

// Two frames, scrambled and plain; the second, of these user bytes, in the next cluster.
fn frame_lines(
    a: [u8; 2052],
    b: [u8; 2052],
    plain_a: [u8; 2052],
    plain_b: [u8; 2052],
    sector: &[u8],
) {
    let plain = sum(plain_a, plain_b);
    first_bytes(b"scrambled frame 0: ", a);
    first_bytes(b"scrambled frame 31: ", b);
    first_bytes(b"scrambled frames combined: ", sum(a, b));
    first_bytes(b"plain frames combined: ", plain);
    sum_line(b"bytes that differ: ", plain, a, b);
    sum_line(b"with frame 31 plain: ", plain, a, plain_b);
    let other = scrambled(sector, NEXT);
    sum_line(
        b"with frame 31 of the next cluster's PSN: ",
        plain,
        a,
        other,
    );
}

// In how many bytes a frame differs from that of a sector, scrambled here.
fn scrambled_line(text: &[u8], frame: [u8; 2052], sector: &[u8]) {
    lines::number_line(text, compare::differing(&frame, &scrambled(sector, PSN)));
}

fn frames(first: [u8; 2052], last: [u8; 2052], a: [u8; 2048], b: [u8; 2048]) {
    let plain_a = plain_frame(&a);
    let plain_b = plain_frame(&b);
    frame_lines(first, last, plain_a, plain_b, &b);
    scrambled_line(b"frame 0, scrambled here, differs in: ", first, &a);
    scrambled_line(b"frame 31, scrambled here, differs in: ", last, &b);
}

fn read_sector() -> [u8; 2048] {
    let mut sector = [0u8; 2048];
    io::read_full(0, &mut sector);
    sector
}

fn read_frame() -> [u8; 2052] {
    let mut frame = [0u8; 2052];
    io::read_full(0, &mut frame);
    frame
}

fn main() {
    let a = read_sector();
    let b = read_sector();
    let first = read_frame();
    let last = read_frame();
    edc_lines(a, b);
    columns(first, last);
    frames(first, last, a, b);
}
