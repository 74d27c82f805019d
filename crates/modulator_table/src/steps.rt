// The table, step by step: a pair, two, four, and the end of a frame.
ghost use Rattle.std.specs.Prelude.{◌≡◌, ◌+◌, ◌*◌, ◌/◌, ◌%◌, ◌<◌, length};
ghost use Rattle.modulator.specs.steps.Table.{step_table, stop_table, nibble_table, lent_table, joined, step_entry, stop_entry, nibble_entry, byte_entry, last_entry, entry_at};

use modulator::Table;
use std::array;

// Entry 4 s + d.
fn make_steps() -> [u32; 80]
    ensures { result ≡ step_table }
{
    array::from_fn(|k| modulator_states::steps::step_entry(k / 4, k % 4))
}

// Entry s.
fn make_stops() -> [u32; 20]
    ensures { result ≡ stop_table }
{
    array::from_fn(|s| modulator_states::steps::stop_entry(s))
}

// The state that an entry leads to.
pub fn state(entry: u32) -> usize
    ensures { result ≡ entry % 32 }
{
    (entry % 32) as usize
}

// One entry after another.
fn joined(a: u32, b: u32, shift: u32) -> u32
    requires { a / 32 * shift + b / 32 < 134217728 }
    ensures { result ≡ joined a b shift }
{
    (a / 32 * shift + b / 32) * 32 + b % 32
}

fn step_in(steps: &[u32; 80], s: usize, d: usize) -> u32
    requires { (steps.now ≡ step_table) × ((s < 20) × (d < 4)) }
    ensures { (result ≡ step_entry s d) × ((result % 32 < 20) × (result < 8388608)) }
{
    steps[4 * s + d]
}

fn nibble_entry(steps: &[u32; 80], s: usize, x: usize) -> u32
    requires { (steps.now ≡ step_table) × ((s < 20) × (x < 16)) }
    ensures { result ≡ nibble_entry s x }
{
    let a = step_in(steps, s, x / 4);
    let b = step_in(steps, state(a), x % 4);
    joined(a, b, 8)
}

// Two pairs more: entry 20 x + s.
fn make_nibbles() -> [u32; 320]
    ensures { result ≡ nibble_table }
{
    let steps = make_steps();
    array::from_fn(|k| nibble_entry(&steps, k % 20, k / 20))
}

fn nibble_in(nibbles: &[u32; 320], s: usize, x: usize) -> u32
    requires { (nibbles.now ≡ nibble_table) × ((s < 20) × (x < 16)) }
    ensures { (result ≡ nibble_entry s x) × ((result % 32 < 20) × (result < 67108864)) }
{
    nibbles[20 * x + s]
}

fn byte_entry(nibbles: &[u32; 320], s: usize, x: usize) -> u32
    requires { (nibbles.now ≡ nibble_table) × ((s < 20) × (x < 256)) }
    ensures { result ≡ byte_entry s x }
{
    let a = nibble_in(nibbles, s, x / 16);
    let b = nibble_in(nibbles, state(a), x % 16);
    joined(a, b, 64)
}

fn stop_in(stops: &[u32; 20], s: usize) -> u32
    requires { (stops.now ≡ stop_table) × (s < 20) }
    ensures { (result ≡ stop_entry s) × (result < 16384) }
{
    stops[s]
}

fn last_entry(nibbles: &[u32; 320], stops: &[u32; 20], s: usize, x: usize) -> u32
    requires { ((nibbles.now ≡ nibble_table) × (stops.now ≡ stop_table)) × ((s < 20) × (x < 16)) }
    ensures { result ≡ last_entry s x }
{
    let a = nibble_in(nibbles, s, x);
    a / 32 * 2 + stop_in(stops, state(a))
}

fn entry(nibbles: &[u32; 320], stops: &[u32; 20], s: usize, x: usize) -> u32
    requires { ((nibbles.now ≡ nibble_table) × (stops.now ≡ stop_table)) × ((s < 20) × (x < 272)) }
    ensures { result ≡ entry_at s x }
{
    if x < 256 {
        return byte_entry(nibbles, s, x);
    }
    last_entry(nibbles, stops, s, x - 256)
}

// Room for the table.
pub fn no_table() -> Table
    ensures { length result ≡ 5440 }
{
    [0u32; 5440]
}

// The table, filled where it is held.
pub fn fill_table(table: &mut Table)
    requires { length table.old ≡ 5440 }
    ensures { table.new ≡ lent_table }
{
    let nibbles = make_nibbles();
    let stops = make_stops();
    for (k, place) in table.iter_mut().enumerate() {
        *place = entry(&nibbles, &stops, k % 20, k / 20);
    }
}
