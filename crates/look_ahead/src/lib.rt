// How far ahead of a word's start the modulator reads in a frame (document 02, W-212).
#![tactic(auto)]

ghost use Rattle.std.specs.Prelude.{Bool, ◌≡◌, ◌*◌, ◌≤◌, max, length};
ghost use Rattle.sizes.specs.Sizes.{row_size};
ghost use Rattle.modulation.specs.Bits.{pairs};
ghost use Rattle.modulation.specs.steps.Words.{bits_in, Words};
ghost use Rattle.frame_bits.specs.FrameBits.{frame_bits};
ghost use Rattle.word_needs.specs.Needed.{most_needed};
ghost use Rattle.look_ahead.specs.Outcome.{dc_answer, frame_answer, outcome};

use answer::Answer;

// What is answered, and the most bits that any word of the frame needs, 0 under a refusal.
#[derive(Clone, Copy)]
pub struct Ahead {
    pub answer: Answer,
    pub bits: u32,
}

fn max(m: usize, n: usize) -> usize
    ensures { result ≡ max m n }
{
    if m < n {
        return n;
    }
    m
}

// The most pairs that any word needs.
fn most_pairs(words: &[u64; 29]) -> usize
    requires { Words words.now }
    ensures { (result ≤ 6) × ((b : Bool) → result ≡ most_needed b (pairs (bits_in words.now))) }
{
    let mut most = 0;
    let mut p = 0;
    while p < word_walk::steps::PAIRS {
        let word = word_walk::steps::word_at(words, p);
        most = max(most, word.needs);
        p += word.size;
    }
    most
}

fn most_bits(row: &[u8], dc: u32) -> u32
    requires { length row.now ≡ row_size }
    ensures { (b : Bool) → result ≡ 2 * most_needed b (pairs (frame_bits row.now dc)) }
{
    let mut words = frame_bits::steps::no_words();
    weaving::steps::frame_words(row, dc, &mut words);
    2 * most_pairs(&words) as u32
}

// Test 8.
fn judge_dc(dc: u32) -> Answer
    ensures { result ≡ dc_answer dc }
{
    if 0x0FFF_FFFF < dc {
        return Answer::DcWord(0);
    }
    Answer::Done
}

// Tests 21 and 8.
fn judge(size: usize, dc: u32) -> Answer
    ensures { result ≡ frame_answer size dc }
{
    let row = lengths::sized(size, sizes::ROW, Answer::WrongRow);
    row.and_then(judge_dc(dc))
}

// The most bits that any word of a frame needs, the frame given by its 155 bytes and dc word. The answer is 0, 21 for other than 155 bytes,
// else 8 for a dc word above 0FFFFFFFh; under 21 and 8 the number of bits is 0. It is the same for both values of the bit before the frame.
pub fn most_needed(row: &[u8], dc: u32) -> Ahead
    ensures { (b : Bool) → record { answer = result.answer; bits = result.bits } ≡ outcome b row.now dc }
{
    let answer = judge(row.len(), dc);
    if answer.is_done() {
        return Ahead {
            answer,
            bits: most_bits(row, dc),
        };
    }
    Ahead { answer, bits: 0 }
}
