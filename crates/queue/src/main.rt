// queue: four benches and one marking machine. Standard input has a record a line, hexadecimal digits, two a byte; each gets a line, at once.
#![tactic(auto)]

use queue_lines::RecordsRead;
use std::io;
use std::io::Read;
use std::process::ExitCode;

// What was read so far, how many bytes the last read gave (0 at the end of the input), and whether all answers were printed, or why not.
#[derive(Clone, Copy)]
struct ReadPart {
    read: RecordsRead,
    got: usize,
    printed: io::Result<()>,
}

// The bytes of a part. Stops where an answer cannot be printed.
fn answer(rt: &impl Print, read: RecordsRead, bytes: &[u8]) -> ReadPart {
    let got = bytes.len();
    let mut now = read;
    for &byte in bytes {
        let step = queue_lines::steps::step(now, byte);
        now = step.read;
        let printed = console::try_print(rt, step.text);
        if printed.is_err() {
            return ReadPart {
                read: now,
                got,
                printed,
            };
        }
    }
    ReadPart {
        read: now,
        got,
        printed: Ok(()),
    }
}

fn read_once(rt: &impl Print, from: &mut impl Read, read: RecordsRead) -> io::Result<ReadPart> {
    let mut bytes = [0u8; 65536];
    let got = from.read(&mut bytes)?;
    Ok(answer(rt, read, &bytes[..got]))
}

// Each part but the last has a byte or more, and an input has fewer than 2^63.
fn read_all(rt: &impl Print, from: &mut impl Read) -> io::Result<ReadPart> {
    let mut read = queue_lines::steps::start();
    for _ in 0..0x8000_0000_0000_0000u64 {
        let part = read_once(rt, from, read)?;
        if part.got == 0 || part.printed.is_err() {
            return Ok(part);
        }
        read = part.read;
    }
    Ok(ReadPart {
        read,
        got: 0,
        printed: Ok(()),
    })
}

// A last line without a line feed is answered, too.
fn finish(rt: &impl Print, last: ReadPart) -> io::Result<()> {
    last.printed?;
    console::try_print(rt, queue_lines::steps::finish(last.read))
}

fn main(rt: HostRuntime) -> ExitCode {
    if console::argument_count(&rt) != 1 {
        return console::print_usage(&rt, b"usage: queue < RECORDS\n");
    }
    match read_all(&rt, &mut rt.stdin()) {
        Ok(last) => match finish(&rt, last) {
            Ok(()) => ExitCode::SUCCESS,
            Err(error) => console::not_printed(&rt, error),
        },
        Err(error) => {
            console::fail(&rt, b"standard input", error);
            ExitCode::SUCCESS
        }
    }
}
