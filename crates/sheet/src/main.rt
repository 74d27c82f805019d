// sheet FILE: whether a sheet of addresses is accepted. FILE has a PSN a line, eight hexadecimal digits; blank lines are passed over.
#![tactic(auto)]

use console::Complaints;
use sheet_file::SheetFile;
use std::io;
use std::io::Read;
use std::process::ExitCode;
use std::rt::Files;

// What was read so far, and how many bytes the last read gave: 0 at the end of the file.
#[derive(Clone, Copy)]
struct Turn {
    file: SheetFile,
    got: usize,
}

fn read_once(from: &mut impl Read, file: SheetFile) -> io::Result<Turn> {
    let mut bytes = [0u8; 65536];
    let got = from.read(&mut bytes)?;
    let file = sheet_file::steps::read(file, &bytes[..got]);
    Ok(Turn { file, got })
}

// Each turn but the last takes a byte or more, and a file has fewer than 2^63.
fn read_all(from: &mut impl Read) -> io::Result<SheetFile> {
    let mut file = sheet_file::steps::start();
    for _ in 0..0x8000_0000_0000_0000u64 {
        let turn = read_once(from, file)?;
        if turn.got == 0 {
            return Ok(turn.file);
        }
        file = turn.file;
    }
    Ok(file)
}

fn read_file(rt: &impl Files, path: &[u8]) -> io::Result<SheetFile> {
    let mut file = console::open(rt, path)?;
    read_all(&mut file)
}

fn no_psn(rt: &impl Complaints, path: &[u8], line: usize) {
    console::complain(rt, path);
    console::complain(rt, b": line ");
    console::complain_number(rt, line);
    console::complain(rt, b": not eight hexadecimal digits\n");
}

fn say(rt: &(impl Print + Complaints), path: &[u8], file: SheetFile) -> ExitCode {
    match sheet_report::steps::said(file) {
        Ok(text) => console::print_last(rt, text),
        Err(line) => {
            no_psn(rt, path, line);
            ExitCode::SUCCESS
        }
    }
}

fn judge(rt: &(impl Print + Files + Complaints), path: &[u8]) -> ExitCode {
    match read_file(rt, path) {
        Ok(file) => say(rt, path, file),
        Err(error) => {
            console::fail(rt, path, error);
            ExitCode::SUCCESS
        }
    }
}

fn main(rt: HostRuntime) -> ExitCode {
    if console::argument_count(&rt) != 2 {
        return console::print_usage(&rt, b"usage: sheet FILE\n");
    }
    let mut name = [0u8; 4096];
    match console::file_name(&rt, 1, &mut name) {
        Some(n) => judge(&rt, &name[..n]),
        None => ExitCode::SUCCESS,
    }
}
