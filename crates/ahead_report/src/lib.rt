// What the program `ahead` prints for its input, as bytes.
#![tactic(auto)]

ghost use Rattle.std.specs.Prelude.{Bool, ◌≡◌};
ghost use Rattle.texts.specs.Text.{text_of};
ghost use Rattle.ahead_report.specs.Said.{outcome_text, ahead_text};

use answer::Answer;
use answer_report::answer_text;
use big_endian::steps::word_at;
use look_ahead::Ahead;
use texts::{Text, blank, put_piece};

// The number of bits, or a refusal.
fn outcome_text(ahead: Ahead) -> Text
    ensures { result ≡ text_of (outcome_text (record { answer = ahead.answer; bits = ahead.bits })) }
{
    let answer = ahead.answer;
    if answer.is_done() {
        return put_piece(blank(), b"*\n", 0, ahead.bits as usize);
    }
    answer_text(answer)
}

// The input is the dc word in four bytes, the highest first, and the frame's 155 bytes; 21 is said of any other length.
pub fn ahead(input: &[u8]) -> Text
    ensures { (b : Bool) → result ≡ text_of (ahead_text b input.now) }
{
    if input.len() != 159 {
        return answer_text(Answer::WrongRow);
    }
    let dc = word_at(input, 0);
    outcome_text(look_ahead::most_needed(&input[4..159], dc))
}
