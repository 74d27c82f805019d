// Clusters with one PSN and side data and other user bytes.
use address::Psn;
use test_bytes::{draws, lent};
use test_support::{compare, lines};

const PSN: u32 = 0x02F7_6400;

fn drawn(seed: u64) -> [u8; 65536] {
    let mut user = lent::user();
    draws::draw(seed, &mut user);
    user
}

// The ECC cluster of user bytes.
fn work_of(user: [u8; 65536], dc: [u32; 496]) -> [u8; 76880] {
    let mut image = lent::image();
    let mut work = lent::work();
    let answer = writer::write_image(
        &user,
        Psn(PSN),
        &[0u8; 592],
        &dc,
        false,
        &mut image,
        &mut work,
    );
    if answer.number() != 0 {
        lines::answer_line(b"refused: ", answer);
    }
    work
}

// Byte n of LDC column L: 13.8 and 13.14, written here once more, so that the code under test does not choose the bytes.
fn byte_in(work: &[u8], word: usize, n: usize) -> u8 {
    let row = 2 * (n % 248) + word % 2;
    let column = (word % 304 / 2 + 152 - 3 * (n % 248) % 152) % 152;
    compare::byte_at(work, 155 * row + column + column / 38)
}

fn column_in(work: &[u8], word: usize) -> [u8; 248] {
    let mut column = [0u8; 248];
    for n in 0..248usize {
        column[n] = byte_in(work, word, n);
    }
    column
}

// In how many places LDC column L of two clusters differs.
fn column_places(a: &[u8], b: &[u8], word: usize) -> u64 {
    compare::differing(&column_in(a, word), &column_in(b, word))
}

fn column_line(a: &[u8], b: &[u8], word: usize) {
    let n = column_places(a, b, word);
    if 0 < n {
        lines::number(b"LDC column ", word as u64);
        lines::number_line(b" differs in ", n);
    }
}

fn column_lines(a: &[u8], b: &[u8]) {
    for word in 0..304usize {
        column_line(a, b, word);
    }
}

// One user byte changed, and all dc words, which no LDC column has.
pub fn one_byte() {
    let user = drawn(1);
    let mut other = user;
    compare::flip(&mut other, 40000, 1);
    io::write_all(1, b"user byte 40000 changed:\n");
    column_lines(
        &work_of(user, [0u32; 496]),
        &work_of(other, [0x0FFF_FFFFu32; 496]),
    );
}

// 1 where LDC column L differs in at least 33 places.
fn far(a: &[u8], b: &[u8], word: usize) -> u64 {
    if column_places(a, b, word) < 33 {
        return 0;
    }
    1
}

fn far_columns(a: &[u8], b: &[u8]) -> u64 {
    let mut n = 0u64;
    for word in 0..304usize {
        n = std::num::wrapping_add_u64(n, far(a, b, word));
    }
    n
}

fn all_places(a: &[u8], b: &[u8]) -> u64 {
    let mut n = 0u64;
    for word in 0..304usize {
        n = std::num::wrapping_add_u64(n, column_places(a, b, word));
    }
    n
}

fn sum_lines(a: &[u8], b: &[u8]) {
    lines::number_line(
        b"LDC columns that differ in at least 33 places: ",
        far_columns(a, b),
    );
    lines::number_line(b"places in all: ", all_places(a, b));
}

// Other bytes drawn, of which some are the same.
pub fn other_bytes() {
    let user = drawn(1);
    let other = drawn(2);
    lines::number_line(
        b"user bytes that differ: ",
        compare::differing(&user, &other),
    );
    sum_lines(&work_of(user, [0u32; 496]), &work_of(other, [0u32; 496]));
}
