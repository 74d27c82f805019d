// The rows, and what each gives.
ghost use Rattle.std.specs.Prelude.{false, ◌≡◌, ◌+◌, ◌*◌, ◌^◌, ◌<◌, length};
ghost use Rattle.bits.specs.Bits.{number};
ghost use Rattle.modulation.specs.Modulation.{row_at, starts_with010, last_bit, terminates};
ghost use Rattle.modulation.specs.Bits.{bits};
ghost use Rattle.conversion.specs.steps.Rows.{IsRow, Sized};

use conversion::{Row, When};

// The rows in the order in which they are tried, the longest first, the terminating ones last: pairs, data bits, modulation bits, condition.
const ROWS: [(usize, u8, u16, When); 16] = [
    (4, 0b00_00_00_00, 0b010_100_100_100, When::Always),
    (4, 0b00_00_10_00, 0b000_100_100_100, When::Always),
    (3, 0b00_00_00, 0b010_100_000, When::Always),
    (3, 0b00_00_01, 0b010_100_100, When::Always),
    (3, 0b00_00_10, 0b000_100_000, When::Always),
    (3, 0b00_00_11, 0b000_100_100, When::Always),
    (3, 0b11_01_11, 0b001_000_000, When::Before010),
    (2, 0b00_01, 0b000_100, When::Always),
    (2, 0b00_10, 0b010_000, When::Always),
    (2, 0b00_11, 0b010_100, When::Always),
    (1, 0b01, 0b010, When::Always),
    (1, 0b10, 0b001, When::Always),
    (1, 0b11, 0b000, When::AfterOne),
    (1, 0b11, 0b101, When::AfterZero),
    (2, 0b00_00, 0b010_100, When::AtEnd),
    (1, 0b00, 0b000, When::AtEnd),
];

// Row k.
pub fn row_at(k: usize) -> Row
    requires { k < 16 }
    ensures { IsRow k result }
{
    let row = &ROWS[k];
    Row {
        pairs: row.0,
        data_bits: row.1,
        modulation_bits: row.2,
        when: row.3,
    }
}

// How many pairs row k has.
pub fn row_len(k: usize) -> usize
    requires { k < 16 }
    ensures { Sized k result }
{
    row_at(k).pairs
}

// Whether the modulation bits of row k start with 010.
pub fn leads_010(k: usize) -> bool
    requires { k < 16 }
    ensures { result ≡ starts_with010 (row_at k).groups }
{
    let r = row_at(k);
    r.modulation_bits >> (3 * (r.pairs - 1)) == 0b010
}

// Whether the last modulation bit of row k is a ONE.
pub fn ends_in_one(k: usize) -> bool
    requires { k < 16 }
    ensures { result ≡ last_bit false (row_at k).groups }
{
    row_at(k).modulation_bits % 2 == 1
}

// Whether row k is a terminating one.
pub fn is_terminating(k: usize) -> bool
    requires { k < 16 }
    ensures { result ≡ terminates (row_at k).when }
{
    matches!(row_at(k).when, When::AtEnd)
}

// The modulation bits of row k behind those of a value.
pub fn followed(value: u32, k: usize) -> u32
    requires { (k < 16) × (value < 262144) }
    ensures { result ≡ value * 2 ^ length (bits (row_at k).groups) + number (bits (row_at k).groups) }
{
    let r = row_at(k);
    (value << (3 * r.pairs)) + r.modulation_bits as u32
}
