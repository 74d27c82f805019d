// What the programs share: arguments, whole files, and texts printed.
#![tactic(auto)]

ghost use Rattle.std.specs.Prelude.{◌≤◌, length, IfSome};
ghost use Rattle.io.specs.Counts.{IsPrefixLen};

use std::env::FillError;
use std::fs::{OpenFile, OpenOptions};
use std::io::{ErrorKind, Read, Write};
use std::process::ExitCode;
use std::rt::{Env, Files};
use std::{fmt, fs, io};
use texts::Text;

// ---- what is printed

// Its bytes. A text has no more than fit (proofs/Words of `report`, `sheet_report`, `queue_report` and `ahead_report`; `tallying`, proofs/Table).
fn bytes_of(text: &Text) -> Option<&[u8]> {
    text.bytes.get(..text.size)
}

// Prints all of it, or says why it could not.
pub fn try_print(rt: &impl Print, text: Text) -> io::Result<()> {
    match bytes_of(&text) {
        Some(bytes) => rt.write_all(bytes),
        None => Err(io::Error::from(ErrorKind::InvalidInput)),
    }
}

// Whether all of it could be printed.
pub fn print(rt: &impl Print, text: Text) -> bool {
    try_print(rt, text).is_ok()
}

// How a program ends, its standard output written or not. Where nobody reads it any more, it ends with the status that a shell gives a program which is
// stopped for that (128 and signal 13).
fn status(printed: io::Result<()>) -> ExitCode {
    match printed {
        Err(error) if error.kind() == ErrorKind::BrokenPipe => ExitCode::from(141),
        _ => ExitCode::SUCCESS,
    }
}

// Prints the last that a program says, and answers how it ends; why it could not be printed is not said.
pub fn print_last(rt: &impl Print, text: Text) -> ExitCode {
    status(try_print(rt, text))
}

// How the program is called; where that cannot be printed there is no more to say. Answers how it ends.
pub fn print_usage(rt: &impl Print, line: &[u8]) -> ExitCode {
    status(rt.write_all(line))
}

// ---- what is wrong is said on standard error

// Standard error, for bytes that need not be text, as a file's name need not be.
pub trait Complaints {
    fn write_error(&self, bytes: &[u8]) -> io::Result<()>;
}

impl Complaints for HostRuntime {
    fn write_error(&self, bytes: &[u8]) -> io::Result<()> {
        self.stderr().write_all(bytes)
    }
}

// What cannot be said is passed over.
pub fn complain(rt: &impl Complaints, bytes: &[u8]) {
    let _ = rt.write_error(bytes);
}

fn complain_text(rt: &impl Complaints, text: Text) {
    if let Some(bytes) = bytes_of(&text) {
        complain(rt, bytes);
    }
}

pub fn complain_number(rt: &impl Complaints, n: usize) {
    complain_text(rt, texts::put_decimal(texts::blank(), n as u64));
}

// A text that is written to.
#[derive(Drop)]
struct Words(Text);

impl fmt::Write for Words {
    fn write_str(&mut self, s: &str) -> fmt::Result {
        self.0 = texts::put(self.0, s.as_bytes());
        Ok(())
    }
}

fn said(error: io::Error) -> Text {
    let mut words = Words(texts::blank());
    let _ = fmt::Write::write(&mut words, error);
    words.0
}

// What an error says, but for the number that the system's errors have behind it.
fn without_number(words: &[u8]) -> &[u8] {
    for i in 0..words.len() {
        if words[i..].starts_with(b" (os error ") {
            return &words[..i];
        }
    }
    words
}

fn complain_said(rt: &impl Complaints, text: Text) {
    if let Some(bytes) = bytes_of(&text) {
        complain(rt, without_number(bytes));
    }
}

// What failed, and why.
pub fn fail(rt: &impl Complaints, what: &[u8], error: io::Error) {
    complain(rt, what);
    complain(rt, b": ");
    complain_said(rt, said(error));
    complain(rt, b"\n");
}

// Standard output could not be written: why, and how the program ends. Where nobody reads it any more, it ends without a word.
pub fn not_printed(rt: &impl Complaints, error: io::Error) -> ExitCode {
    if error.kind() != ErrorKind::BrokenPipe {
        fail(rt, b"standard output", error);
    }
    status(Err(error))
}

fn no_name(rt: &impl Complaints) {
    complain(rt, b"a file name is missing, empty or too long\n");
}

fn wrong_length(rt: &impl Complaints, path: &[u8], wanted: usize) {
    complain(rt, path);
    complain(rt, b": not ");
    complain_number(rt, wanted);
    complain(rt, b" bytes long\n");
}

// ---- arguments; argument 0 is the program's own name

// Argument i at the start of bytes; 0 where it is missing, empty or too long.
pub fn argument(rt: &impl Env, i: usize, bytes: &mut [u8]) -> usize
    ensures { IsPrefixLen result bytes.new }
{
    rt.arg(i, bytes).unwrap_or(0)
}

// An empty one counts, and so does one of any length.
fn is_argument(rt: &impl Env, i: usize) -> bool {
    !matches!(rt.arg(i, &mut []), Err(FillError::NotPresent))
}

// How many arguments there are.
pub fn argument_count(rt: &impl Env) -> usize {
    for i in 0..usize::MAX {
        if !is_argument(rt, i) {
            return i;
        }
    }
    usize::MAX
}

// Argument i, a file's name, at the start of name; where there is none, that is said.
pub fn file_name(rt: &(impl Env + Complaints), i: usize, name: &mut [u8]) -> Option<usize>
    ensures { IfSome result (λ n. IsPrefixLen n name.new) }
{
    let n = argument(rt, i, name);
    if n == 0 {
        no_name(rt);
        return None;
    }
    Some(n)
}

fn is_dash(rt: &impl Env, i: usize) -> bool {
    let mut name = [0u8; 4096];
    let n = argument(rt, i, &mut name);
    names::is_dash(&name[..n])
}

// ---- what is read is not written over, and nothing is written twice; names are compared byte by byte

// Whether arguments i and j are one name. An empty name is none.
fn same_argument(rt: &impl Env, i: usize, j: usize) -> bool {
    let mut name = [0u8; 4096];
    let mut other = [0u8; 4096];
    let m = argument(rt, i, &mut name);
    let n = argument(rt, j, &mut other);
    m != 0 && names::same_name(&name[..m], &other[..n])
}

fn complain_of(rt: &(impl Env + Complaints), i: usize, text: &[u8]) {
    let mut name = [0u8; 4096];
    let n = argument(rt, i, &mut name);
    complain(rt, &name[..n]);
    complain(rt, text);
}

// Whether argument i, which is read, and argument j, which is to be written, are two names.
pub fn not_over(rt: &(impl Env + Complaints), i: usize, j: usize) -> bool {
    if same_argument(rt, i, j) {
        complain_of(rt, i, b": it is read and is to be written\n");
        return false;
    }
    true
}

// The same, but `-` is no file that is read.
pub fn not_over_unless_dash(rt: &(impl Env + Complaints), i: usize, j: usize) -> bool {
    is_dash(rt, i) || not_over(rt, i, j)
}

// Whether argument i is the name under which argument j is written before it is whole.
fn is_part_of(rt: &impl Env, i: usize, j: usize) -> bool {
    let mut name = [0u8; 4096];
    let mut other = [0u8; 4096];
    let m = argument(rt, i, &mut name);
    let n = argument(rt, j, &mut other);
    match names::add_part(&mut other, n) {
        Some(k) => names::same_name(&name[..m], &other[..k]),
        None => false,
    }
}

fn clash(rt: &impl Env, i: usize, j: usize) -> bool {
    same_argument(rt, i, j) || is_part_of(rt, i, j) || is_part_of(rt, j, i)
}

// Whether arguments i and j, which are both to be written, are two names, and neither is the other's NAME.part.
pub fn not_twice(rt: &(impl Env + Complaints), i: usize, j: usize) -> bool {
    if clash(rt, i, j) {
        complain_of(rt, j, b": it is to be written twice\n");
        return false;
    }
    true
}

// ---- reading

// A path, which the library takes as text.
fn path_text(path: &[u8]) -> io::Result<&str> {
    std::str::from_utf8(path).map_err(|_| io::Error::new(
        ErrorKind::InvalidFilename,
        "the name is no UTF-8 text",
    ))
}

// Opens the file for reading.
pub fn open<R: Files>(rt: &R, path: &[u8]) -> io::Result<R::File> {
    fs::open(rt, path_text(path)?)
}

// Reads until the bytes are full, the input ends or a read fails; how many were read.
pub fn read_full(from: &mut impl Read, bytes: &mut [u8]) -> usize
    ensures { IsPrefixLen result bytes.new }
{
    let mut done = 0;
    while done < bytes.len() {
        match from.read(&mut bytes[done..]) {
            Ok(0) | Err(_) => break,
            Ok(n) => done += n,
        }
    }
    done
}

// Whether a byte more can be read; there is none at the end of the file.
pub fn has_more(from: &mut impl Read) -> io::Result<bool> {
    let mut byte = [0u8; 1];
    Ok(from.read(&mut byte)? != 0)
}

// Fills bytes from a file of just that length.
fn fill(rt: &impl Complaints, path: &[u8], file: &mut impl Read, bytes: &mut [u8]) -> bool {
    let got = read_full(file, bytes);
    match has_more(file) {
        Ok(more) if got != bytes.len() || more => {
            wrong_length(rt, path, bytes.len());
            false
        }
        Ok(_) => true,
        Err(error) => {
            fail(rt, path, error);
            false
        }
    }
}

fn load_path(rt: &(impl Files + Complaints), path: &[u8], bytes: &mut [u8]) -> bool {
    match open(rt, path) {
        Ok(mut file) => fill(rt, path, &mut file, bytes),
        Err(error) => {
            fail(rt, path, error);
            false
        }
    }
}

// Fills bytes from the file that argument i names.
pub fn load(rt: &(impl Env + Files + Complaints), i: usize, bytes: &mut [u8]) -> bool {
    let mut name = [0u8; 4096];
    let Some(n) = file_name(rt, i, &mut name) else {
        return false;
    };
    load_path(rt, &name[..n], bytes)
}

// The same, but `-` leaves the bytes as they are.
pub fn load_unless_dash(rt: &(impl Env + Files + Complaints), i: usize, bytes: &mut [u8]) -> bool {
    is_dash(rt, i) || load(rt, i, bytes)
}

// ---- a result is written to NAME.part, and gets its name when it is whole

// Makes a file that is not there yet.
fn create<R: Files>(rt: &R, path: &[u8]) -> io::Result<R::File> {
    OpenOptions::new()
        .write(true)
        .create_new(true)
        .open(rt, path_text(path)?)
}

// Writes all of the bytes, and closes the file. What fails at the close is not told, so they are on the disk before it.
fn put(mut file: impl Write + OpenFile + Drop, bytes: &[u8]) -> io::Result<()> {
    file.write_all(bytes)?;
    file.sync_all()
}

fn remove(rt: &impl Files, path: &[u8]) {
    if let Ok(path) = path_text(path) {
        let _ = fs::remove_file(rt, path);
    }
}

// Makes a file; where it cannot be written whole none is left.
fn write_new(rt: &(impl Files + Complaints), path: &[u8], bytes: &[u8]) -> bool {
    match create(rt, path) {
        Ok(file) => match put(file, bytes) {
            Ok(()) => true,
            Err(error) => {
                fail(rt, path, error);
                remove(rt, path);
                false
            }
        },
        Err(error) => {
            fail(rt, path, error);
            false
        }
    }
}

// Writes bytes to NAME.part, NAME being argument i.
pub fn write_part(rt: &(impl Env + Files + Complaints), i: usize, bytes: &[u8]) -> bool {
    let mut name = [0u8; 4096];
    let Some(n) = file_name(rt, i, &mut name) else {
        return false;
    };
    let Some(m) = names::add_part(&mut name, n) else {
        no_name(rt);
        return false;
    };
    write_new(rt, &name[..m], bytes)
}

pub fn remove_part(rt: &(impl Env + Files + Complaints), i: usize) {
    let mut name = [0u8; 4096];
    let n = file_name(rt, i, &mut name).unwrap_or(0);
    let m = names::add_part(&mut name, n).unwrap_or(0);
    remove(rt, &name[..m]);
}

fn rename_path(rt: &impl Files, from: &[u8], to: &[u8]) -> io::Result<()> {
    fs::rename(rt, path_text(from)?, path_text(to)?)
}

fn rename(rt: &(impl Env + Files + Complaints), part: &[u8], i: usize) -> bool {
    let mut name = [0u8; 4096];
    let n = file_name(rt, i, &mut name).unwrap_or(0);
    match rename_path(rt, part, &name[..n]) {
        Ok(()) => true,
        Err(error) => {
            fail(rt, &name[..n], error);
            remove(rt, part);
            false
        }
    }
}

// Gives NAME.part its name; where it cannot, it is removed.
pub fn keep_part(rt: &(impl Env + Files + Complaints), i: usize) -> bool {
    let mut name = [0u8; 4096];
    let n = file_name(rt, i, &mut name).unwrap_or(0);
    let m = names::add_part(&mut name, n).unwrap_or(0);
    rename(rt, &name[..m], i)
}
