// The table, entry by entry, and its steps.
ghost use Rattle.std.specs.Prelude.{◌≡◌, ◌%◌, ◌<◌, ◌≤◌, length};
ghost use Rattle.automaton.specs.Automaton.{transitions, ending};
ghost use Rattle.automaton.specs.steps.Table.{two_groups, three_groups, more, table_entry, table, Twos, After};

use automaton::Table;

// A number of data bits and a state, as the table has them, with group g read.
fn one_more(ones: &[u16; 144], a: u16, g: usize) -> u16
    requires { (ones.now ≡ transitions) × ((a < 14752) × ((a % 32 < 18) × (g < 8))) }
    ensures { result ≡ more a g }
{
    a / 32 * 128 + ones[8 * (a % 32) as usize + g]
}

// Entry k of the table, for two groups.
fn two_at(ones: &[u16; 144], k: usize) -> u16
    requires { (ones.now ≡ transitions) × (k < 1152) }
    ensures { result ≡ table_entry k }
{
    let a = one_more(ones, (k % 18) as u16, k / 144);
    one_more(ones, a, k / 18 % 8)
}

// Entry k of the table, for three groups: one more than the two of an entry that is made.
fn three_at(ones: &[u16; 144], made: &Table, k: usize) -> u16
    requires { (ones.now ≡ transitions) × (Twos made.now × ((1152 ≤ k) × (k < 10368))) }
    ensures { result ≡ table_entry k }
{
    let j = k - 1152;
    let a = made[j / 144 * 18 + j % 18];
    one_more(ones, a, j / 18 % 8)
}

// The entries for two groups.
fn fill_twos(ones: &[u16; 144], made: &mut Table)
    requires { (ones.now ≡ transitions) × (length made.old ≡ 10368) }
    ensures { Twos made.new }
{
    for k in 0..1152usize {
        made[k] = two_at(ones, k);
    }
}

// The table, to be filled once and lent.
pub fn fill_table(made: &mut Table)
    requires { length made.old ≡ 10368 }
    ensures { made.new ≡ table }
{
    let ones = automaton_tables::steps::transitions();
    fill_twos(&ones, made);
    for k in 1152..10368usize {
        made[k] = three_at(&ones, made, k);
    }
}

// Three groups v more.
pub fn three_on(made: &Table, x: u64, v: usize) -> u64
    requires { (made.now ≡ table) × ((v < 512) × ((x % 32 < 18) × (x < 9007199254740992))) }
    ensures { After (three_groups v) x result }
{
    x / 32 * 2048 + u64::from(made[1152 + 18 * v + (x % 32) as usize])
}

// Two groups v more.
pub fn two_on(made: &Table, x: u64, v: usize) -> u64
    requires { (made.now ≡ table) × ((v < 64) × ((x % 32 < 18) × (x < 9007199254740992))) }
    ensures { After (two_groups v) x result }
{
    x / 32 * 512 + u64::from(made[18 * v + (x % 32) as usize])
}

// What the frame's end adds in state s.
pub fn ending(s: u64, hash: bool) -> u64
    requires { s < 18 }
    ensures { (result ≡ ending s hash) × (result < 65536) }
{
    let ends = automaton_tables::steps::ends();
    u64::from(ends[(2 * s + u64::from(hash)) as usize])
}
