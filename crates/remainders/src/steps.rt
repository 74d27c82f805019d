// The table filled, row by row.
ghost use Rattle.std.specs.Prelude.{◌≡◌, ◌+◌, ◌*◌, ◌<◌, length};
ghost use Rattle.remainders.specs.steps.Remainders.{AreRemainders};
ghost use Rattle.remainder_rows.specs.steps.Rows.{FilledTo};

use crate::Remainders;
use remainder_rows::steps::{byte, first_row, next_row, put_row};

// The rows with no zeros behind the byte, by the field's tables.
fn fill_first(table: &mut Remainders)
    requires { length table.old ≡ 65536 }
    ensures { FilledTo 8192 table.new }
{
    let powers = field_tables::powers();
    let logs = field_tables::logs();
    let generator = parity::steps::generator_32();
    for b in 0..256 {
        let row = first_row(&powers, &logs, &generator, byte(b));
        put_row(table, 32 * b, &row);
    }
}

// The rows with k + 1 zeros.
fn fill_next(table: &mut Remainders, k: usize)
    requires { FilledTo (8192 * k + 8192) table.old × (k < 7) }
    ensures { FilledTo (8192 * k + 16384) table.new }
{
    for b in 0..256 {
        let row = next_row(table, k, b);
        put_row(table, 8192 * k + 32 * b + 8192, &row);
    }
}

// The whole table.
pub fn fill_remainders(table: &mut Remainders)
    requires { length table.old ≡ 65536 }
    ensures { AreRemainders table.new }
{
    fill_first(table);
    for k in 0..7 {
        fill_next(table, k);
    }
}

// A table to fill.
pub fn no_remainders() -> Remainders
    ensures { length result ≡ 65536 }
{
    [0u8; 65536]
}
