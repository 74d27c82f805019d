// Files read and written by name, good ones and bad ones, and names compared. Complaints go to standard error.
#![tactic(auto)]

use console::Complaints;
use std::io;
use std::rt::{Env, Files};

fn report(rt: &impl Print, text: &[u8], good: bool) -> io::Result<()> {
    rt.write_all(text)?;
    if good {
        rt.write_all(b" yes\n")
    } else {
        rt.write_all(b" no\n")
    }
}

// Eight bytes from the file that argument i names, and what is in them.
fn read(rt: &(impl Print + Env + Files + Complaints), text: &[u8], i: usize) -> io::Result<()> {
    let mut bytes = [46u8; 8];
    report(rt, text, console::load_unless_dash(rt, i, &mut bytes))?;
    rt.write_all(&bytes)?;
    rt.write_all(b"\n")
}

// Whether the file that argument i names has eight bytes.
fn load(rt: &(impl Print + Env + Files + Complaints), text: &[u8], i: usize) -> io::Result<()> {
    let mut bytes = [46u8; 8];
    report(rt, text, console::load(rt, i, &mut bytes))
}

fn files_read(rt: &(impl Print + Env + Files + Complaints)) -> io::Result<()> {
    load(rt, b"one byte short", 1)?;
    load(rt, b"one byte long", 2)?;
    read(rt, b"just right", 3)?;
    load(rt, b"no file", 4)?;
    load(rt, b"no argument", 10)?;
    read(rt, b"a dash", 5)
}

fn file_kept(rt: &(impl Print + Env + Files + Complaints)) -> io::Result<()> {
    report(rt, b"written", console::write_part(rt, 6, b"87654321"))?;
    report(
        rt,
        b"written again",
        console::write_part(rt, 6, b"abcdefgh"),
    )?;
    load(rt, b"there before it is kept", 6)?;
    report(rt, b"kept", console::keep_part(rt, 6))?;
    read(rt, b"there", 6)?;
    report(rt, b"kept again", console::keep_part(rt, 6))
}

fn file_removed(rt: &(impl Print + Env + Files + Complaints)) -> io::Result<()> {
    report(rt, b"written", console::write_part(rt, 6, b"abcdefgh"))?;
    console::remove_part(rt, 6);
    report(rt, b"kept when removed", console::keep_part(rt, 6))?;
    read(rt, b"there", 6)?;
    report(rt, b"no argument", console::write_part(rt, 10, b"abcdefgh"))
}

// Argument 7 is the name of argument 3, argument 8 is `-` as argument 5 is.
fn read_and_written(rt: &(impl Print + Env + Complaints)) -> io::Result<()> {
    report(
        rt,
        b"read and written, two names",
        console::not_over(rt, 1, 2),
    )?;
    report(
        rt,
        b"read and written, one name",
        console::not_over(rt, 3, 7),
    )?;
    report(rt, b"a name and its beginning", console::not_over(rt, 3, 9))?;
    report(rt, b"no names", console::not_over(rt, 10, 11))?;
    report(rt, b"read and written, a dash", console::not_over(rt, 5, 8))
}

// The same where `-` stands for zeros, and of two names that are both written.
fn other_names(rt: &(impl Print + Env + Complaints)) -> io::Result<()> {
    report(
        rt,
        b"a dash for zeros",
        console::not_over_unless_dash(rt, 5, 8),
    )?;
    report(rt, b"no dash", console::not_over_unless_dash(rt, 3, 7))?;
    report(rt, b"written, two names", console::not_twice(rt, 1, 2))?;
    report(rt, b"written, one name", console::not_twice(rt, 3, 7))
}

fn main(rt: HostRuntime) -> io::Result<()> {
    files_read(&rt)?;
    file_kept(&rt)?;
    file_removed(&rt)?;
    read_and_written(&rt)?;
    other_names(&rt)
}
