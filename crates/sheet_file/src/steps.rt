// The steps: a line, the entries, a file.
ghost use Rattle.std.specs.Prelude.{◌≡◌, cond, List, [], ◌∷◌, ◌++◌, ℕ, ◌+◌, ◌^◌, ◌<◌, ◌≤◌, length};
ghost use Rattle.sheet_file.specs.File.{is_white, trimmed, Entry, entry_on, file_entries};
ghost use Rattle.sheet_file.specs.steps.Reading.{shown_psn, wrong_after, HoldsLine, HoldsEntries, IsEntry, HasRead};

use crate::{Line, SheetEntries, SheetFile};
use address::Psn;

// ---- a line

fn is_white(byte: u8) -> bool
    ensures { result ≡ is_white byte }
{
    byte == b'\t' || byte == b'\r' || byte == b' '
}

fn no_line() -> Line
    ensures { HoldsLine [] result }
{
    Line {
        text: [0u8; 8],
        held: 0,
        size: 0,
    }
}

fn size_after(byte: u8, size: usize, longer: usize) -> usize
    ensures { result ≡ cond (is_white byte) size longer }
{
    if is_white(byte) { size } else { longer }
}

fn add_byte(line: Line, byte: u8) -> Line
    ensures { (begun : List ℕ) → HoldsLine begun line → HoldsLine (begun ++ (byte ∷ [])) result }
{
    let Line {
        mut text,
        held,
        size,
    } = line;
    if 8 <= held {
        return Line {
            text,
            held,
            size: size_after(byte, size, 9),
        };
    }
    text[held] = byte;
    Line {
        text,
        held: held + 1,
        size: size_after(byte, size, held + 1),
    }
}

// The PSN on a line of this size.
fn psn_on(text: [u8; 8], size: usize) -> Option<Psn>
    ensures { result ≡ shown_psn text size }
{
    if size == 8 {
        notation::psn_of(&text)
    } else {
        None
    }
}

// ---- entries

fn no_entries() -> SheetEntries
    ensures { HoldsEntries [] result }
{
    SheetEntries {
        psns: [Psn(0); address_sheet::SHEET],
        lines: [0; address_sheet::SHEET],
        count: 0,
        wrong: None,
    }
}

// The first line that is no PSN, where this one may be.
fn wrong_after(wrong: Option<usize>, psn: Option<Psn>, line: usize) -> Option<usize>
    ensures { result ≡ wrong_after wrong line psn }
{
    if psn.is_some() {
        wrong
    } else {
        wrong.or(Some(line))
    }
}

// An entry more: the PSN on it, and its line.
fn add_entry(entries: SheetEntries, psn: Option<Psn>, line: usize) -> SheetEntries
    ensures { (list : List Entry) (entry : Entry) → HoldsEntries list entries → IsEntry entry psn line → HoldsEntries (list ++ (entry ∷ [])) result }
{
    let SheetEntries {
        mut psns,
        mut lines,
        count,
        wrong,
    } = entries;
    let wrong = wrong_after(wrong, psn, line);
    if address_sheet::SHEET <= count {
        return SheetEntries {
            psns,
            lines,
            count: 65,
            wrong,
        };
    }
    psns[count] = psn.unwrap_or(Psn(0));
    lines[count] = line;
    SheetEntries {
        psns,
        lines,
        count: count + 1,
        wrong,
    }
}

// A line ends, before which so many stand: an entry, unless it is blank.
fn end_line(entries: SheetEntries, line: Line, before: usize) -> SheetEntries
    ensures { (list : List Entry) (begun : List ℕ) → before < 2 ^ 63 → HoldsEntries list entries → HoldsLine begun line
        → HoldsEntries (list ++ entry_on before (trimmed begun)) result }
{
    let Line { text, size, .. } = line;
    if size == 0 {
        return entries;
    }
    let number = before.saturating_add(1);
    add_entry(entries, psn_on(text, size), number)
}

// ---- a file

// A file of which nothing is read.
pub fn start() -> SheetFile
    ensures { HasRead [] result }
{
    SheetFile {
        line: no_line(),
        before: 0,
        entries: no_entries(),
    }
}

fn step(file: SheetFile, byte: u8) -> SheetFile
    ensures { (bytes : List ℕ) → length bytes < 2 ^ 63 → HasRead bytes file → HasRead (bytes ++ (byte ∷ [])) result }
{
    let SheetFile {
        line,
        before,
        entries,
    } = file;
    if byte == b'\n' {
        SheetFile {
            line: no_line(),
            before: before.saturating_add(1),
            entries: end_line(entries, line, before),
        }
    } else {
        SheetFile {
            line: add_byte(line, byte),
            before,
            entries,
        }
    }
}

// The next bytes.
pub fn read(file: SheetFile, bytes: &[u8]) -> SheetFile
    ensures { (front : List ℕ) → length front + length bytes.now ≤ 2 ^ 63 → HasRead front file → HasRead (front ++ bytes.now) result }
{
    let mut done = file;
    for &byte in bytes {
        done = step(done, byte);
    }
    done
}

// The file ends: its entries.
pub fn finish(file: SheetFile) -> SheetEntries
    ensures { (bytes : List ℕ) → length bytes < 2 ^ 63 → HasRead bytes file → HoldsEntries (file_entries bytes) result }
{
    let SheetFile {
        line,
        before,
        entries,
    } = file;
    end_line(entries, line, before)
}
