// Right columns beside others, and with wrong bytes. The table of remainders is lent to all.
ghost use Rattle.remainders.specs.steps.Remainders.{AreRemainders};

use remainders::Remainders;
use test_support::{compare, lines};

// The reader's test of 32 roots.
fn is_right(table: &Remainders, column: &[u8]) -> bool
    requires { AreRemainders table.now }
{
    if column.len() < 32 {
        return false;
    }
    code_word::steps::is_code_word(table, column)
}

fn parity_of(table: &Remainders, message: &[u8]) -> [u8; 32]
    requires { AreRemainders table.now }
{
    let mut parity = [0u8; 32];
    code_word::steps::parity_32_by(table, message, &mut parity);
    parity
}

// Zeros, then the generator's 33 coefficients: a one and its parity.
fn generator_behind(table: &Remainders, zeros: usize) -> [u8; 255]
    requires { AreRemainders table.now }
{
    let end = std::num::wrapping_add_usize(zeros, 1);
    let mut column = [0u8; 255];
    compare::put(&mut column, zeros, 1);
    let parity = parity_of(table, compare::part(&column, 0, end));
    compare::copy(&parity, &mut column, end);
    column
}

// How many bytes are not zero.
fn nonzero(bytes: &[u8]) -> u64 {
    compare::differing(bytes, compare::part(&[0u8; 256], 0, bytes.len()))
}

// 1 for a right column with 33 bytes that are not zero.
fn is_33(table: &Remainders, column: &[u8]) -> u64
    requires { AreRemainders table.now }
{
    if is_right(table, column) {
        if nonzero(column) == 33 {
            return 1;
        }
    }
    0
}

// The same of the generator behind zeros.
fn generator_is_33(table: &Remainders, zeros: usize) -> u64
    requires { AreRemainders table.now }
{
    let column = generator_behind(table, zeros);
    is_33(
        table,
        compare::part(&column, 0, std::num::wrapping_add_usize(zeros, 33)),
    )
}

fn lengths_of_33(table: &Remainders) -> u64
    requires { AreRemainders table.now }
{
    let mut n = 0u64;
    for zeros in 0..223usize {
        n = std::num::wrapping_add_u64(n, generator_is_33(table, zeros));
    }
    n
}

pub fn lengths(table: &Remainders)
    requires { AreRemainders table.now }
{
    lines::number_line(
        b"lengths from 33 to 255 at which the generator is right and 33 places from zeros: ",
        lengths_of_33(table),
    );
}

// The first bytes of the generator added to a column, from the last of its 216 data bytes on.
fn with_wrong(table: &Remainders, column: [u8; 248], count: usize) -> [u8; 248]
    requires { AreRemainders table.now }
{
    let mut bytes = column;
    let others = generator_behind(table, 0);
    for k in 0..count {
        compare::flip(
            &mut bytes,
            std::num::wrapping_add_usize(215, k),
            compare::byte_at(&others, k),
        );
    }
    bytes
}

// 1 where the test fails on a column with so many wrong bytes.
fn noticed(table: &Remainders, column: [u8; 248], count: usize) -> u64
    requires { AreRemainders table.now }
{
    let bytes = with_wrong(table, column, count);
    if is_right(table, &bytes) {
        return 0;
    }
    1
}

// The same of 1 to 32 wrong bytes, added up.
fn noticed_of_32(table: &Remainders, column: [u8; 248]) -> u64
    requires { AreRemainders table.now }
{
    let mut n = 0u64;
    for k in 0..32usize {
        n = std::num::wrapping_add_u64(n, noticed(table, column, k + 1));
    }
    n
}

// With 16 wrong bytes: how far from the column, and from the one with all 33.
fn between_line(table: &Remainders, column: [u8; 248])
    requires { AreRemainders table.now }
{
    let bytes = with_wrong(table, column, 16);
    let other = with_wrong(table, column, 33);
    lines::number(
        b"with 16 wrong bytes: places from it ",
        compare::differing(&bytes, &column),
    );
    lines::number_line(
        b", from the other right column ",
        compare::differing(&bytes, &other),
    );
}

fn noticed_lines(table: &Remainders, column: [u8; 248])
    requires { AreRemainders table.now }
{
    lines::number_line(b"as it is: times noticed ", noticed(table, column, 0));
    lines::number_line(
        b"with 1, 2, .. 32 wrong bytes: times noticed ",
        noticed_of_32(table, column),
    );
    lines::number_line(
        b"with 33 wrong bytes: times noticed ",
        noticed(table, column, 33),
    );
}

pub fn wrong_bytes(table: &Remainders)
    requires { AreRemainders table.now }
{
    let mut column = [0u8; 248];
    io::read_full(0, &mut column);
    lines::number_line(b"LDC column 0, bytes that are not zero: ", nonzero(&column));
    noticed_lines(table, column);
    between_line(table, column);
}
