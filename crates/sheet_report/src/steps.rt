// The texts, and what is said of a file.
ghost use Rattle.std.specs.Prelude.{◌≡◌, List, ℕ, ◌^◌, ◌<◌, length, get_or};
ghost use Rattle.texts.specs.Text.{added, text_of};
ghost use Rattle.sheet_file.specs.steps.Reading.{HasRead};
ghost use Rattle.sheet_report.specs.Said.{names_entry, line_words, sheet_text, file_said};

use answer::Answer;
use answer_report::put_meaning;
use sheet_file::{SheetEntries, SheetFile};
use texts::{Text, blank, put_decimal, put_piece};

// Whether an answer's place is an entry.
fn names_entry(answer: Answer) -> bool
    ensures { result ≡ names_entry answer }
{
    let number = answer.number();
    number == 6 || number == 7 || number == 24
}

// The entry's line.
fn put_line(text: Text, answer: Answer, line: usize) -> Text
    ensures { result ≡ added text (line_words answer line) }
{
    if names_entry(answer) {
        put_piece(text, b"line *: ", 0, line)
    } else {
        text
    }
}

fn sheet_text(answer: Answer, line: usize) -> Text
    ensures { result ≡ text_of (sheet_text answer line) }
{
    let numbered = put_decimal(blank(), answer.number() as u64);
    let placed = put_piece(numbered, b" *\n", 0, answer.place());
    let lined = put_line(placed, answer, line);
    put_meaning(lined, answer)
}

// The line of entry i, 0 past the last.
fn line_at(lines: [usize; address_sheet::SHEET], i: usize) -> usize
    ensures { result ≡ get_or lines i 0 }
{
    if i < address_sheet::SHEET {
        lines[i]
    } else {
        0
    }
}

// What is printed for a file that was read to its end, or its first line that is no PSN.
pub fn said(file: SheetFile) -> Result<Text, usize>
    ensures { (bytes : List ℕ) → length bytes < 2 ^ 63 → HasRead bytes file → result ≡ file_said bytes }
{
    let SheetEntries {
        psns,
        lines,
        count,
        wrong,
    } = sheet_file::steps::finish(file);
    if let Some(wrong) = wrong {
        return Err(wrong);
    }
    let answer = address_sheet::judge(psns, count);
    let line = line_at(lines, answer.place());
    Ok(sheet_text(answer, line))
}
