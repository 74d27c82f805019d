// A word, and what is held of the next.
ghost use Rattle.std.specs.Prelude.{◌≡◌, ◌+◌, ◌*◌, ◌<◌};
ghost use Rattle.bits.specs.Bits.{bits_of};
ghost use Rattle.modulation.specs.steps.Groups.{Inside, groups_at};
ghost use Rattle.automaton.specs.steps.Table.{table};
ghost use Rattle.demodulator_words.specs.steps.Held.{Held, NextWord, LastWord};

use crate::Next;
use automaton::Table;
use demodulator_groups::steps::segment;
use demodulator_table::steps::ending;

// 2 to the power of 51: 46 data bits and, below them, a state.
const FULL: u64 = 2251799813685248;

// The frame's word i: what is held, with 23 groups more.
pub fn next_word(made: &Table, bytes: &[u8], at: usize, i: usize, x: u64) -> Next
    requires { (made.now ≡ table) × ((i < 27) × (Inside bytes.now at 634 × Held x)) }
    ensures { NextWord (groups_at (bits_of bytes.now) (at + 39 + 69 * i) 23) x result.word result.held }
{
    let y = segment(made, bytes, at + 39 + 69 * i, x % 32);
    Next {
        word: x / 32 + y / FULL,
        held: y % FULL,
    }
}

// The frame's last word, if a frame may end so: what is held, with what the end adds.
pub fn last_word(x: u64, hash: bool) -> Option<u64>
    requires { Held x }
    ensures { LastWord x hash result }
{
    let end = ending(x % 32, hash);
    (end % 2 == 0).then_some(x / 32 + end / 2)
}
