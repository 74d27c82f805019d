// The steps: a line, its record, a text.
ghost use Rattle.std.specs.Prelude.{◌≡◌, ◌<◌, List, [], ◌∷◌, ◌++◌, ℕ, MatchOption, SomeIff};
ghost use Rattle.order_queue.specs.Queue.{handled};
ghost use Rattle.queue_lines.specs.Lines.{record_on, text_said};
ghost use Rattle.queue_lines.specs.steps.Reading.{pair_of, shown_record, shown_bytes, HoldsRecordLine, HoldsRecord, HasRead};

use crate::{RecordLine, RecordsRead, RecordsStep};
use notation::digit;
use order_queue::{Handled, Queue};
use queue_report::handled_text;
use texts::{Text, blank};

// ---- a line

fn no_line() -> RecordLine
    ensures { HoldsRecordLine [] result }
{
    RecordLine {
        text: [0u8; 12],
        size: 0,
    }
}

fn add_byte(line: RecordLine, byte: u8) -> RecordLine
    ensures { (begun : List ℕ) → HoldsRecordLine begun line → HoldsRecordLine (begun ++ (byte ∷ [])) result }
{
    let RecordLine { mut text, size } = line;
    if 12 <= size {
        return RecordLine { text, size: 13 };
    }
    text[size] = byte;
    RecordLine {
        text,
        size: size + 1,
    }
}

// ---- its record

// The first `count` bytes.
#[derive(Clone, Copy)]
struct LineRecord {
    bytes: [u8; 6],
    count: usize,
}

// The byte of two digits.
fn pair(high: u8, low: u8) -> Option<u8>
    ensures { SomeIff result (pair_of high low < 256) (pair_of high low) }
{
    let h = digit(high)?;
    let l = digit(low)?;
    Some((h * 16 + l) as u8)
}

// The record on a line of this size, if it is one.
fn record_on(text: [u8; 12], size: usize) -> Option<LineRecord>
    ensures { MatchOption result (shown_record text size ≡ []) (HoldsRecord (shown_record text size)) }
{
    if 12 < size || size % 2 != 0 {
        return None;
    }
    let mut bytes = [0; 6];
    for k in 0..size / 2 {
        bytes[k] = pair(text[2 * k], text[2 * k + 1])?;
    }
    Some(LineRecord {
        bytes,
        count: size / 2,
    })
}

// Another text is handled as the record without bytes.
fn handle_line(queue: Queue, line: RecordLine) -> Handled
    ensures { (begun : List ℕ) → HoldsRecordLine begun line → result ≡ handled queue (record_on begun) }
{
    let RecordLine { text, size } = line;
    match record_on(text, size) {
        Some(found) => {
            let bytes = found.bytes;
            order_queue::handle(queue, &bytes[..found.count])
        }
        None => order_queue::handle(queue, b""),
    }
}

// ---- a text

// A text of which nothing is read.
pub fn start() -> RecordsRead
    ensures { HasRead [] [] result }
{
    RecordsRead {
        line: no_line(),
        queue: Queue::empty(),
    }
}

// A byte more. Nothing is printed while a line goes on.
pub fn step(read: RecordsRead, byte: u8) -> RecordsStep
    ensures { (bytes printed : List ℕ) → HasRead bytes printed read → HasRead (bytes ++ (byte ∷ [])) (printed ++ shown_bytes result.text) result.read }
{
    let RecordsRead { line, queue } = read;
    if byte == b'\n' {
        let done = handle_line(queue, line);
        RecordsStep {
            read: RecordsRead {
                line: no_line(),
                queue: done.queue,
            },
            text: handled_text(done),
        }
    } else {
        RecordsStep {
            read: RecordsRead {
                line: add_byte(line, byte),
                queue,
            },
            text: blank(),
        }
    }
}

// The text ends: what is printed for a last line without a line feed.
pub fn finish(read: RecordsRead) -> Text
    ensures { (bytes printed : List ℕ) → HasRead bytes printed read → text_said bytes ≡ printed ++ shown_bytes result }
{
    let RecordsRead { line, queue } = read;
    if line.size == 0 {
        blank()
    } else {
        handled_text(handle_line(queue, line))
    }
}
