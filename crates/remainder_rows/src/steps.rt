// A row is made, and put.
ghost use Rattle.std.specs.Prelude.{◌≡◌, ◌+◌, ◌*◌, ◌<◌, ◌≤◌, length};
ghost use Rattle.galois.specs.Tables.{AreTables};
ghost use Rattle.register.specs.steps.Register.{divisor, Padded};
ghost use Rattle.remainder_rows.specs.steps.Rows.{EntriesFrom, FilledTo};

use register::steps::{pushed_byte, zeros};
use register::{Register, Remainders};

// The next row of the table.
pub fn put_row(table: &mut Remainders, at: usize, row: &[u8])
    requires { FilledTo at table.old × ((at + 32 ≤ 65536) × EntriesFrom at row.now) }
    ensures { FilledTo (at + 32) table.new }
{
    for j in 0..32 {
        table[at + j] = row[j];
    }
}

// What byte b leaves: it goes into a register of zeros.
pub fn first_row(powers: &[u8; 256], logs: &[u8; 256], generator: &[u8; 32], b: u8) -> [u8; 32]
    requires { AreTables powers.now logs.now × (generator.now ≡ divisor) }
    ensures { (length result ≡ 32) × EntriesFrom (32 * b) result }
{
    let mut row = [0u8; 32];
    parity::steps::push(powers, logs, generator, &mut row, b);
    row
}

pub fn byte(b: usize) -> u8
    requires { b < 256 }
    ensures { result ≡ b }
{
    b as u8
}

// A row of the table, as a register.
fn row_at(table: &Remainders, at: usize) -> Register
    requires { (at + 32 ≤ 65536) × FilledTo (at + 32) table.now }
    ensures { Padded result × EntriesFrom at result }
{
    let mut row = zeros();
    for j in 0..32 {
        row[j] = table[at + j];
    }
    row
}

// The row of byte b with k + 1 zeros behind it: one zero more goes in.
pub fn next_row(table: &Remainders, k: usize, b: usize) -> Register
    requires { FilledTo (8192 * k + 32 * b + 8192) table.now × ((k < 7) × (b < 256)) }
    ensures { Padded result × EntriesFrom (8192 * k + 32 * b + 8192) result }
{
    let row = row_at(table, 8192 * k + 32 * b);
    pushed_byte(table, row, 0)
}
