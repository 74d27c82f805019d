// The groups at a bit, three a step.
ghost use Rattle.std.specs.Prelude.{◌≡◌, ◌+◌, ◌*◌, ◌<◌};
ghost use Rattle.bits.specs.Bits.{bits_of};
ghost use Rattle.modulation.specs.steps.Groups.{Inside, groups_at};
ghost use Rattle.automaton.specs.Automaton.{start};
ghost use Rattle.automaton.specs.steps.Table.{two_groups, three_groups, table, After};

use automaton::Table;
use demodulator_table::steps::{three_on, two_on};

// The two groups at bit `at`.
fn six(bytes: &[u8], at: usize) -> usize
    requires { Inside bytes.now at 2 }
    ensures { (two_groups result ≡ groups_at (bits_of bytes.now) at 2) × (result < 64) }
{
    (bits::steps::low_bits(bytes, at, 6) % 64) as usize
}

// The three groups at bit `at`.
fn nine(bytes: &[u8], at: usize) -> usize
    requires { Inside bytes.now at 3 }
    ensures { (three_groups result ≡ groups_at (bits_of bytes.now) at 3) × (result < 512) }
{
    (bits::steps::low_bits(bytes, at, 9) % 512) as usize
}

// The groups at bit `at`, three a turn.
fn run(made: &Table, bytes: &[u8], at: usize, s: u64, turns: usize) -> u64
    requires { (made.now ≡ table) × ((s < 18) × ((turns < 8) × Inside bytes.now at (3 * turns))) }
    ensures { After (groups_at (bits_of bytes.now) at (3 * turns)) s result }
{
    let mut x = s;
    for k in 0..turns {
        x = three_on(made, x, nine(bytes, at + 9 * k));
    }
    x
}

// 23 groups: 46 data bits.
pub fn segment(made: &Table, bytes: &[u8], at: usize, s: u64) -> u64
    requires { (made.now ≡ table) × ((s < 18) × Inside bytes.now at 23) }
    ensures { After (groups_at (bits_of bytes.now) at 23) s result }
{
    let x = run(made, bytes, at, s, 7);
    two_on(made, x, six(bytes, at + 63))
}

// The frame's first 13 groups: 26 data bits.
pub fn begin(made: &Table, bytes: &[u8], at: usize, before: bool) -> u64
    requires { (made.now ≡ table) × Inside bytes.now at 13 }
    ensures { After (groups_at (bits_of bytes.now) at 13) (start before) result }
{
    let x = run(made, bytes, at, u64::from(before), 3);
    let y = two_on(made, x, six(bytes, at + 27));
    two_on(made, y, six(bytes, at + 33))
}
