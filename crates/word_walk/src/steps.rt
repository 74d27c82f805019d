// A word's start, and what it needs from there on.
ghost use Rattle.std.specs.Prelude.{◌≡◌, ◌<◌, get_or, drop};
ghost use Rattle.modulation.specs.Modulation.{two_number, d00};
ghost use Rattle.modulation.specs.Machine.{w, wait_at};
ghost use Rattle.modulation.specs.Bits.{pairs};
ghost use Rattle.modulation.specs.steps.Pairs.{two_of};
ghost use Rattle.modulation.specs.steps.Words.{bits_in, Words};
ghost use Rattle.word_needs.specs.steps.Walk.{told, told_number, size_at_end, walk, ends_plain, walk_word};

// The pairs of a frame's 1,268 bits.
pub const PAIRS: usize = 634;

// The pairs that a word needs, and those that it has.
#[derive(Clone, Copy)]
pub struct Walked {
    pub needs: usize,
    pub size: usize,
}

// The pairs that wait for more are numbered: none, 00, 0000, 000000, 000010, 11, 1101, 110111, 11011100, 1101110000. For each the next pair
// tells what waits then, or 10 plus the number of the word's pairs, which is fixed then.
const TOLD: [[usize; 4]; 10] = [
    [1, 11, 11, 5],
    [2, 12, 12, 12],
    [3, 13, 4, 13],
    [14, 13, 13, 13],
    [14, 13, 13, 13],
    [11, 6, 11, 11],
    [11, 11, 11, 7],
    [8, 13, 11, 11],
    [9, 11, 13, 13],
    [13, 13, 11, 11],
];

// The pairs of the word where the frame ends with those that wait.
const SIZE_AT_END: [usize; 10] = [0, 1, 2, 3, 3, 1, 1, 1, 1, 3];

fn told(waits: usize, pair: usize) -> usize
    requires { (waits < 10) × (pair < 4) }
    ensures { result ≡ told_number (told (wait_at waits) (two_of pair)) }
{
    TOLD[waits][pair]
}

fn size_at_end(waits: usize) -> usize
    requires { waits < 10 }
    ensures { result ≡ size_at_end (wait_at waits) }
{
    SIZE_AT_END[waits]
}

// Pair p of a frame. A word of 46 bits has 23 pairs; ten of the first do not count.
fn pair_at(words: &[u64; 29], p: usize) -> usize
    requires { Words words.now × (p < 634) }
    ensures { result ≡ two_number (get_or (pairs (bits_in words.now)) p d00) }
{
    let at = p + 10;
    ((words[at / 23] >> (44 - 2 * (at % 23))) % 4) as usize
}

// From pair p on until the word is fixed, or the frame ends.
fn walk(words: &[u64; 29], p: usize) -> Walked
    requires { Words words.now × (p < 634) }
    ensures { record { needs = result.needs; size = result.size } ≡ walk w 0 (drop p (pairs (bits_in words.now))) }
{
    let mut waits = 0;
    for n in 0..PAIRS - p {
        let next = told(waits, pair_at(words, p + n));
        if 10 <= next {
            return Walked {
                needs: n + 1,
                size: next - 10,
            };
        }
        waits = next;
    }
    Walked {
        needs: PAIRS - p,
        size: size_at_end(waits),
    }
}

// Whether pair p is 11 with two pairs or fewer behind it: it is not substituted, whatever they are.
fn ends_plain(words: &[u64; 29], p: usize) -> bool
    requires { Words words.now × (p < 634) }
    ensures { result ≡ ends_plain (drop p (pairs (bits_in words.now))) }
{
    pair_at(words, p) == 3 && PAIRS < p + 4
}

// The word that begins at pair p.
pub fn word_at(words: &[u64; 29], p: usize) -> Walked
    requires { Words words.now × (p < 634) }
    ensures { record { needs = result.needs; size = result.size } ≡ walk_word (drop p (pairs (bits_in words.now))) }
{
    if ends_plain(words, p) {
        return Walked { needs: 1, size: 1 };
    }
    walk(words, p)
}
