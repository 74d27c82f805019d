// What is printed for a record of the queue that was handled, as bytes.
#![tactic(auto)]

ghost use Rattle.std.specs.Prelude.{◌≡◌};
ghost use Rattle.texts.specs.Text.{added, text_of};
ghost use Rattle.queue_report.specs.Said.{handled_words, handled_text};

use answer::Answer;
use answer_report::put_meaning;
use order_queue::Handled;
use texts::{Text, blank, put, put_decimal, put_hexadecimal, put_piece};

// The end of the line: a refusal's words stand before it.
fn put_words(text: Text, answer: Answer) -> Text
    ensures { result ≡ added text (handled_words answer) }
{
    if answer.is_done() {
        return put(text, b"\n");
    }
    put_meaning(put(text, b" "), answer)
}

// Number, place, bench and PSN, and for a refusal what they mean: a line.
pub fn handled_text(handled: Handled) -> Text
    ensures { result ≡ text_of (handled_text handled) }
{
    let answer = handled.answer;
    let numbered = put_decimal(blank(), answer.number() as u64);
    let placed = put_piece(numbered, b" * ", 0, answer.place());
    let benched = put_piece(placed, b"* ", 0, handled.bench as usize);
    let named = put_hexadecimal(benched, handled.psn.0);
    put_words(named, answer)
}
