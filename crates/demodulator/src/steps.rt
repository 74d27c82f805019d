// The data bits of one frame, and of two side by side, in words of 46 bits.
ghost use Rattle.std.specs.Prelude.{◌≡◌, ◌+◌, ◌/◌, ◌%◌, ◌<◌, take, drop, set, IfSome, SomeIff};
ghost use Rattle.bits.specs.Bits.{bits_of};
ghost use Rattle.modulation.specs.steps.Groups.{Inside};
ghost use Rattle.modulation.specs.steps.Words.{Words, WordsRead};
ghost use Rattle.automaton.specs.Automaton.{ending};
ghost use Rattle.automaton.specs.steps.Table.{table};
ghost use Rattle.demodulator_words.specs.steps.Held.{Held};

use crate::TwoWords;
use automaton::Table;
use demodulator_groups::steps::begin;
use demodulator_words::steps::{last_word, next_word};

// The words with the last one behind them, if a frame may end so; x is what is held.
fn ended(mut words: [u64; 29], x: u64, hash: bool) -> Option<[u64; 29]>
    requires { Words words × Held x }
    ensures last { SomeIff result (ending (x % 32) hash % 2 ≡ 0) (set words 27 (x / 32 + ending (x % 32) hash / 2)) }
    ensures fit { IfSome result Words }
{
    words[27] = last_word(x, hash)?;
    Some(words)
}

// The data bits of the 634 groups at bit `at`, in words of 46 bits, if there are data bits that give these groups.
pub fn read_words(
    made: &Table,
    bytes: &[u8],
    at: usize,
    before: bool,
    hash: bool,
) -> Option<[u64; 29]>
    requires { (made.now ≡ table) × Inside bytes.now at 634 }
    ensures { WordsRead before (take 1902 (drop at (bits_of bytes.now))) hash result }
{
    let mut words = [0; 29];
    let mut x = begin(made, bytes, at, before);
    for i in 0..27usize {
        let next = next_word(made, bytes, at, i, x);
        words[i] = next.word;
        x = next.held;
    }
    ended(words, x, hash)
}

// The same of two frames, at `at` and at `also`: the look-ups of one go on while those of the other wait.
pub fn read_two(
    made: &Table,
    bytes: &[u8],
    at: usize,
    also: usize,
    before: bool,
    prior: bool,
    hash: bool,
    sign: bool,
) -> TwoWords
    requires { (made.now ≡ table) × (Inside bytes.now at 634 × Inside bytes.now also 634) }
    ensures { WordsRead before (take 1902 (drop at (bits_of bytes.now))) hash result.first × WordsRead prior (take 1902 (drop also (bits_of bytes.now))) sign result.second }
{
    let mut words = [0; 29];
    let mut more = [0; 29];
    let mut x = begin(made, bytes, at, before);
    let mut y = begin(made, bytes, also, prior);
    for i in 0..27usize {
        let one = next_word(made, bytes, at, i, x);
        let two = next_word(made, bytes, also, i, y);
        words[i] = one.word;
        more[i] = two.word;
        x = one.held;
        y = two.held;
    }
    let first = ended(words, x, hash);
    let second = ended(more, y, sign);
    TwoWords { first, second }
}
