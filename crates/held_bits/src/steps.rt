// The table's entries, and the bits that are held behind them.
ghost use Rattle.std.specs.Prelude.{◌≡◌, ◌+◌, ◌*◌, ◌-◌, ◌/◌, ◌%◌, ◌^◌, ◌<◌, ◌≤◌, length};
ghost use Rattle.modulator.specs.steps.Table.{lent_table, byte_entry, last_entry};
ghost use Rattle.modulator.specs.steps.Put.{Put};

use modulator::Table;

// The entry for a byte.
pub fn byte_at(table: &Table, s: usize, byte: usize) -> u32
    requires { (table.now ≡ lent_table) × ((s < 20) × (byte < 256)) }
    ensures { result ≡ byte_entry s byte }
{
    table[20 * byte + s]
}

// The entry for the last four bits of a frame.
pub fn last_at(table: &Table, s: usize, nibble: usize) -> u32
    requires { (table.now ≡ lent_table) × ((s < 20) × (nibble < 16)) }
    ensures { result ≡ last_entry s nibble }
{
    table[20 * (nibble + 256) + s]
}

// The bits of a frame that are not put yet are held as a number, with zeros for the pairs that wait. With a byte's entry it has twelve more.
pub fn more(held: u64, entry: u32) -> u64
    requires { held < 70368744177664 }
    ensures { result ≡ held * 4096 + entry / 32 }
{
    held * 4096 + (entry / 32) as u64
}

// All but the `lag` low bits of v, and these.
pub fn high(v: u64, lag: usize) -> u64
    requires { lag < 64 }
    ensures { result ≡ v / 2 ^ lag }
{
    v >> lag
}

pub fn low(v: u64, lag: usize) -> u64
    requires { lag < 64 }
    ensures { result ≡ v % 2 ^ lag }
{
    v % (1u64 << lag)
}

// The low byte of v.
fn byte(v: u64) -> u8
    ensures { result ≡ v % 256 }
{
    (v % 256) as u8
}

// Three bytes of v, from byte `at` on; put_five puts five.
pub fn put_three(out: &mut [u8], at: usize, v: u64)
    requires { at + 3 ≤ length out.old }
    ensures { Put out.old at 3 v out.new }
{
    out[at] = byte(v / 65536);
    out[at + 1] = byte(v / 256);
    out[at + 2] = byte(v);
}

pub fn put_five(out: &mut [u8], at: usize, v: u64)
    requires { at + 5 ≤ length out.old }
    ensures { Put out.old at 5 v out.new }
{
    out[at] = byte(v / 4294967296);
    out[at + 1] = byte(v / 16777216);
    out[at + 2] = byte(v / 65536);
    out[at + 3] = byte(v / 256);
    out[at + 4] = byte(v);
}

// The state behind a bit.
pub fn odd(first: u64) -> usize
    ensures { result ≡ first % 2 }
{
    (first % 2) as usize
}

// Six bits more, the last of the frame.
pub fn ended(held: u64, entry: u32) -> u64
    requires { held < 70368744177664 }
    ensures { result ≡ held * 64 + entry / 2 }
{
    held * 64 + (entry / 2) as u64
}

// The bits of `last` behind those that end the frame.
pub fn closed(v: u64, lag: usize, last: u8) -> u64
    requires { (v < 2 ^ (lag + 6)) × (lag ≤ 34) }
    ensures { result ≡ v * 2 ^ (34 - lag) + last }
{
    (v << (34 - lag)) + last as u64
}
