// What the rows give for the pairs that wait and one more, and at the end of a frame.
ghost use Rattle.std.specs.Prelude.{◌≡◌, ◌*◌, ◌/◌, ◌%◌, ◌^◌, ◌<◌, ◌≤◌};
ghost use Rattle.modulator.specs.steps.Table.{waits, WaitingNumber, step_entry, stop_entry};

// The pairs that wait in states 2 w and 2 w + 1, the odd one after a ONE: how many, and the number of their bits.
const WAITING: [(usize, u32); 10] = [
    (0, 0),
    (1, 0b00),
    (2, 0b00_00),
    (3, 0b00_00_00),
    (3, 0b00_00_10),
    (1, 0b11),
    (2, 0b11_01),
    (3, 0b11_01_11),
    (4, 0b11_01_11_00),
    (5, 0b11_01_11_00_00),
];

// The state behind each pair in each state.
const NEXT: [[u32; 4]; 20] = [
    [2, 0, 1, 10],
    [3, 0, 1, 11],
    [4, 0, 0, 0],
    [5, 0, 0, 0],
    [6, 0, 8, 0],
    [7, 0, 9, 0],
    [0, 0, 1, 10],
    [0, 0, 1, 10],
    [0, 0, 1, 10],
    [0, 0, 1, 10],
    [3, 12, 1, 11],
    [2, 13, 1, 10],
    [2, 0, 1, 14],
    [2, 0, 1, 15],
    [16, 0, 1, 11],
    [17, 0, 1, 11],
    [18, 0, 0, 0],
    [19, 0, 0, 0],
    [6, 0, 9, 0],
    [6, 0, 9, 0],
];

// How many pairs wait in state s.
fn waits(s: usize) -> usize
    requires { s < 20 }
    ensures { (result ≡ waits s) × (result < 6) }
{
    WAITING[s / 2].0
}

// The pairs that wait in state s.
fn waiting(s: usize) -> u32
    requires { s < 20 }
    ensures { WaitingNumber s result }
{
    WAITING[s / 2].1
}

// The state behind pair d in state s.
fn next_state(s: usize, d: usize) -> u32
    requires { (s < 20) × (d < 4) }
    ensures { (result ≡ step_entry s d % 32) × (result < 20) }
{
    NEXT[s][d]
}

// The k low bits of v cleared.
fn cleared(v: u32, k: usize) -> u32
    requires { k < 16 }
    ensures { (result ≡ v / 2 ^ k * 2 ^ k) × (result ≤ v) }
{
    v >> k << k
}

// One pair more: the groups that the rows give for all, but for those of the pairs that wait then.
pub fn step_entry(s: usize, d: usize) -> u32
    requires { (s < 20) × (d < 4) }
    ensures { result ≡ step_entry s d }
{
    let pairs = 4 * waiting(s) + d as u32;
    let all = few_pairs::steps::modulate(waits(s) + 1, pairs, s % 2 == 1);
    let next = next_state(s, d);
    let k = 3 * waits(next as usize);
    cleared(all.value, k) * 32 + next
}

// The end of a frame in state s.
pub fn stop_entry(s: usize) -> u32
    requires { s < 20 }
    ensures { result ≡ stop_entry s }
{
    let all = few_pairs::steps::modulate(waits(s), waiting(s), s % 2 == 1);
    if all.terminated {
        return 2 * all.value + 1;
    }
    2 * all.value
}
