// Document 02, W-207: the parity of a column with 1 to 223 data bytes, its message.
#![tactic(auto)]

ghost use Rattle.std.specs.Prelude.{◌≡◌, length};
ghost use Rattle.answer.specs.Answer.{number_of};
ghost use Rattle.column.specs.Column as column;
ghost use Rattle.column_parity.specs.Outcome.{data_answer, outcome};
ghost use Rattle.column_parity.specs.Promise.{CompletesExactly};

use answer::Answer;

// The most data bytes of a column, and its parity bytes: 255 together.
const MOST: usize = 223;

const PARITY: usize = 32;

// Whether a column may have so many data bytes.
fn judge(n: usize) -> Answer
    ensures { result ≡ data_answer n }
{
    if n == 0 {
        return Answer::WrongColumn;
    }
    if MOST < n {
        return Answer::WrongColumn;
    }
    Answer::Done
}

// The parity, by a table of remainders of its own.
fn parity_of(message: &[u8]) -> [u8; 32]
    ensures { result ≡ column.parity 32 message.now }
{
    let mut table = remainders::steps::no_remainders();
    remainders::steps::fill_remainders(&mut table);
    let mut made = [0u8; 32];
    code_word::steps::parity_32_by(&table, message, &mut made);
    made
}

// The same into a slice of 32.
fn put_parity(message: &[u8], parity: &mut [u8])
    requires { length parity.old ≡ 32 }
    ensures { parity.new ≡ column.parity 32 message.now }
{
    let made = parity_of(message);
    parity.copy_from_slice(&made);
}

// Writes the 32 parity bytes of a column's data. 0, or 22 for no data, for more than 223 bytes of it, or for a parity slice that is not 32
// long; the slice is then as it was.
pub fn write_parity(message: &[u8], parity: &mut [u8]) -> Answer
    ensures parity_after { record { answer = result; parity = parity.new } ≡ outcome message.now parity.old }
    ensures completes_exactly { CompletesExactly message.now parity.old (number_of result) parity.new }
{
    let room = lengths::sized(parity.len(), PARITY, Answer::WrongColumn);
    let answer = judge(message.len()).and_then(room);
    if answer.is_done() {
        put_parity(message, parity);
    }
    answer
}
