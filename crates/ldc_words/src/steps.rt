// Code words and data frames of an eighth, put into the cluster and taken out of it.
ghost use Rattle.std.specs.Prelude.{◌≡◌, ℕ, ◌+◌, ◌*◌, ◌<◌, ◌≤◌, length};
ghost use Rattle.cluster.specs.steps.Places.{word_index};
ghost use Rattle.ldc_words.specs.steps.Eighth.{RunOf, BytesTaken, WordsTaken, BytesPut, WordsPut, information_of};
ghost use Rattle.sizes.specs.Sizes.{work_size};

use crate::{Frames, Words};

pub fn no_words() -> Words
    ensures { length result ≡ 9424 }
{
    [0u8; 9424]
}

pub fn no_frames() -> Frames
    ensures { length result ≡ 8208 }
{
    [0u8; 8208]
}

// Where a run of 19 bytes in a row of the cluster stands: from `first` on, but for a column of the BIS cluster or the row's end behind
// `left` of them, from `second` on.
#[derive(Clone, Copy)]
struct Run {
    left: usize,
    first: usize,
    second: usize,
}

// The bytes n of the even code words of eighth e; those of the odd ones stand a row below.
fn run_of(e: usize, n: usize) -> Run
    requires { (e < 8) × (n < 248) }
    ensures { RunOf e n result.left result.first result.second }
{
    let place = ldc::steps::locate(38 * e, n);
    let left = 38 - place.column % 38;
    let next = (place.column + left) % 152;
    Run {
        left,
        first: 310 * n + place.column + place.column / 38,
        second: 310 * n + next + next / 38,
    }
}

// Where byte i of a run stands.
fn run_index(run: Run, i: usize) -> usize
    requires { ((run.first < work_size) × (run.second < work_size)) × (i < 19) }
    ensures { (e n : ℕ) → RunOf e n run.left run.first run.second → result ≡ word_index (38 * e + 2 * i) n }
{
    if i < run.left {
        return run.first + i;
    }
    run.second + i - run.left
}

// Byte n of each code word of eighth e, out of the cluster.
fn take_bytes(work: &[u8], e: usize, n: usize, words: &mut [u8])
    requires { ((length work.now ≡ work_size) × (length words.old ≡ 9424)) × ((e < 8) × (n < 248)) }
    ensures { BytesTaken work.now e n words.old words.new }
{
    let run = run_of(e, n);
    for i in 0..19 {
        let at = run_index(run, i);
        words[496 * i + n] = work[at];
        words[496 * i + 248 + n] = work[at + sizes::ROW];
    }
}

// The first `count` bytes of each code word of eighth e, out of the cluster.
pub fn take_words(work: &[u8], e: usize, count: usize, words: &mut [u8])
    requires { ((length work.now ≡ work_size) × (length words.old ≡ 9424)) × ((e < 8) × (count ≤ 248)) }
    ensures { WordsTaken work.now e count words.new }
{
    for n in 0..count {
        take_bytes(work, e, n, words);
    }
}

// Byte n of each code word of eighth e, into the cluster.
fn put_bytes(words: &[u8], e: usize, n: usize, work: &mut [u8])
    requires { ((length words.now ≡ 9424) × (length work.old ≡ work_size)) × ((e < 8) × (n < 248)) }
    ensures { BytesPut words.now e n work.old work.new }
{
    let run = run_of(e, n);
    for i in 0..19 {
        let at = run_index(run, i);
        work[at] = words[496 * i + n];
        work[at + sizes::ROW] = words[496 * i + 248 + n];
    }
}

// The code words of eighth e, into the cluster.
pub fn put_words(words: &[u8], e: usize, work: &mut [u8])
    requires { ((length words.now ≡ 9424) × (length work.old ≡ work_size)) × (e < 8) }
    ensures { WordsPut words.now e 248 work.old work.new }
{
    for n in 0..248 {
        put_bytes(words, e, n, work);
    }
}

// The information bytes of the code words, one word's behind the other's.
pub fn take_information(words: &[u8], frames: &mut [u8])
    requires { (length words.now ≡ 9424) × (length frames.old ≡ 8208) }
    ensures { frames.new ≡ information_of words.now }
{
    for j in 0..38 {
        let from = 248 * j;
        let end = from + 216;
        let to = 216 * j;
        let past = to + 216;
        frames[to..past].copy_from_slice(&words[from..end]);
    }
}
