// Columns of clusters that an independent program encoded, from standard input: three LDC columns, the first of them again with one root
// taken from it, two BIS columns and four primary address fields, each with its parity. Prints the parity of what stands before it,
// whether the column has its roots, and how many changes of one byte go unseen; of 32 roots also by the lent table of remainders.
#![tactic(auto)]

ghost use Rattle.std.specs.Prelude.{◌<◌, ◌≤◌};
ghost use Rattle.remainders.specs.steps.Remainders.{AreRemainders};

use remainders::Remainders;
use test_support::{compare, lines};

#[derive(Clone, Copy)]
struct Column {
    bytes: [u8; 248],
    size: usize,
}

// The next bytes of standard input.
fn read_column(size: usize) -> Column
    requires { size ≤ 248 }
{
    let mut bytes = [0u8; 248];
    io::read_full(0, &mut bytes[0..size]);
    Column { bytes, size }
}

// Whether the column has its roots, one by one or by the table, which tests 32.
fn has_roots(table: &Remainders, column: &[u8], roots: u8, looked: bool) -> bool
    requires { AreRemainders table.now }
{
    if looked {
        if 32 <= column.len() {
            return code_word::steps::is_code_word(table, column);
        }
    }
    roots::has_roots(column, roots)
}

// Whether a column that differs from this one in byte k has the roots as well.
fn is_unseen(table: &Remainders, column: Column, roots: u8, looked: bool, k: usize) -> bool
    requires { AreRemainders table.now }
{
    let mut bytes = column.bytes;
    compare::flip(&mut bytes, k, 0x40);
    has_roots(table, compare::part(&bytes, 0, column.size), roots, looked)
}

// How many columns that differ from this one in one byte have the roots as well.
fn unseen(table: &Remainders, column: Column, roots: u8, looked: bool) -> u64
    requires { AreRemainders table.now }
{
    let mut count: u64 = 0;
    for k in 0..column.size {
        if is_unseen(table, column, roots, looked, k) {
            count = std::num::wrapping_add_u64(count, 1);
        }
    }
    count
}

fn parity_32(table: &Remainders, message: &[u8], looked: bool) -> [u8; 32]
    requires { AreRemainders table.now }
{
    let mut parity = [0u8; 32];
    if looked {
        code_word::steps::parity_32_by(table, message, &mut parity);
    } else {
        column_parity::write_parity(message, &mut parity);
    }
    parity
}

fn print_32(parity: [u8; 32]) {
    lines::hex_bytes(&parity);
}

fn parity_4(message: &[u8]) -> [u8; 4] {
    let mut parity = [0u8; 4];
    parity::parity_4(message, &mut parity);
    parity
}

fn print_4(parity: [u8; 4]) {
    lines::hex_bytes(&parity);
}

fn print_parity(table: &Remainders, message: &[u8], roots: u8, looked: bool)
    requires { AreRemainders table.now }
{
    if roots == 4 {
        print_4(parity_4(message));
    } else {
        print_32(parity_32(table, message, looked));
    }
}

fn print_roots(found: bool) {
    if found {
        io::write_all(1, b" roots");
    } else {
        io::write_all(1, b" no roots");
    }
}

// The parity, whether the column has its roots, and how many changes go unseen.
fn report(table: &Remainders, column: Column, roots: u8, looked: bool)
    requires { AreRemainders table.now }
{
    let bytes = column.bytes;
    let size = column.size;
    let end = std::num::wrapping_sub_usize(size, roots as usize);
    print_parity(table, compare::part(&bytes, 0, end), roots, looked);
    print_roots(has_roots(table, compare::part(&bytes, 0, size), roots, looked));
    let count = unseen(table, column, roots, looked);
    lines::number_line(b", changes unseen ", count);
}

// A column of 32 roots, by `column_parity` and its roots one by one, and by the lent table.
fn report_twice(table: &Remainders, name: &[u8], size: usize)
    requires { AreRemainders table.now × (size ≤ 248) }
{
    let column = read_column(size);
    io::write_all(1, name);
    report(table, column, 32, false);
    io::write_all(1, b"by the table: ");
    report(table, column, 32, true);
}

fn columns(table: &Remainders)
    requires { AreRemainders table.now }
{
    report_twice(table, b"LDC column 0, zero cluster: ", 248);
    report_twice(table, b"LDC column 0, seed 0: ", 248);
    report_twice(table, b"LDC column 0, seed 1: ", 248);
    report_twice(table, b"the first, without root 0: ", 248);
    report_twice(table, b"the first, without root 31: ", 248);
    report_twice(table, b"BIS column 0, zone 1: ", 62);
    report_twice(table, b"BIS column 23, zone 2: ", 62);
}

fn address(table: &Remainders, name: &[u8])
    requires { AreRemainders table.now }
{
    let column = read_column(9);
    io::write_all(1, name);
    report(table, column, 4, false);
}

fn addresses(table: &Remainders)
    requires { AreRemainders table.now }
{
    address(table, b"address field 0, seed 0: ");
    address(table, b"address field 15, seed 0: ");
    address(table, b"address field 0, seed 1: ");
    address(table, b"address field 15, seed 1: ");
}

// Byte n % 256 with n / 256 zeros behind it, for which the table's row n is read.
fn message_at(n: usize) -> [u8; 8]
    requires { n < 2048 }
{
    let mut message = [0u8; 8];
    message[7 - n / 256] = (n % 256) as u8;
    message
}

// The column of a message and its parity.
fn joined(message: [u8; 8], parity: [u8; 32]) -> [u8; 40] {
    let mut column = [0u8; 40];
    compare::copy(&message, &mut column, 0);
    compare::copy(&parity, &mut column, 8);
    column
}

// Whether the parity by row n gives the column its roots, one by one.
fn is_right(table: &Remainders, n: usize) -> bool
    requires { AreRemainders table.now × (n < 2048) }
{
    let message = message_at(n);
    let parity = parity_32(table, &message, true);
    roots::has_roots(&joined(message, parity), 32)
}

fn right_rows(table: &Remainders) -> u64
    requires { AreRemainders table.now }
{
    let mut count: u64 = 0;
    for n in 0..2048usize {
        if is_right(table, n) {
            count = std::num::wrapping_add_u64(count, 1);
        }
    }
    count
}

fn report_all(table: &Remainders)
    requires { AreRemainders table.now }
{
    columns(table);
    addresses(table);
    let text = b"rows of the table that give a column its roots: ";
    lines::number_line(text, right_rows(table));
}

fn main() {
    let mut table = remainders::steps::no_remainders();
    remainders::steps::fill_remainders(&mut table);
    report_all(&table);
}
