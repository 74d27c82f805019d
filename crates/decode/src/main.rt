// decode IMAGE USER SIDE DC: reads an image strictly, and writes what it was made of to files.
#![tactic(auto)]

use console::Complaints;
use std::process::ExitCode;
use std::rt::{Env, Files};
use texts::Text;

// The image is none of the files that are written, and these are three.
fn names_apart(rt: &(impl Env + Complaints)) -> bool {
    console::not_over(rt, 1, 2)
        && console::not_over(rt, 1, 3)
        && console::not_over(rt, 1, 4)
        && console::not_twice(rt, 2, 3)
        && console::not_twice(rt, 2, 4)
        && console::not_twice(rt, 3, 4)
}

// The three files in part, or none.
fn write_parts(rt: &(impl Env + Files + Complaints), user: &[u8], side: &[u8], dc: &[u8]) -> bool {
    if !console::write_part(rt, 2, user) {
        return false;
    }
    if !console::write_part(rt, 3, side) {
        console::remove_part(rt, 2);
        return false;
    }
    if !console::write_part(rt, 4, dc) {
        console::remove_part(rt, 2);
        console::remove_part(rt, 3);
        return false;
    }
    true
}

// All three are whole; each gets its name.
fn keep_parts(rt: &(impl Env + Files + Complaints)) -> bool {
    if !console::keep_part(rt, 2) {
        console::remove_part(rt, 3);
        console::remove_part(rt, 4);
        return false;
    }
    if !console::keep_part(rt, 3) {
        console::remove_part(rt, 4);
        return false;
    }
    console::keep_part(rt, 4)
}

fn save(
    rt: &(impl Print + Env + Files + Complaints),
    user: &[u8],
    side: &[u8],
    dc: &[u8],
    text: Text,
) -> ExitCode {
    if write_parts(rt, user, side, dc) && keep_parts(rt) {
        console::print_last(rt, text)
    } else {
        ExitCode::SUCCESS
    }
}

fn decode(rt: &(impl Print + Env + Files + Complaints), image: &[u8]) -> ExitCode {
    let mut user: [u8; sizes::USER] = buffers::zeros();
    let mut side: [u8; sizes::SIDE] = buffers::zeros();
    let mut dc: [u8; sizes::DC] = buffers::zeros();
    let said = decoding::decode(image, &mut user, &mut side, &mut dc);
    if said.keep {
        save(rt, &user, &side, &dc, said.text)
    } else {
        console::print_last(rt, said.text)
    }
}

fn main(rt: HostRuntime) -> ExitCode {
    if console::argument_count(&rt) != 5 {
        return console::print_usage(&rt, b"usage: decode IMAGE USER SIDE DC\n");
    }
    let mut image: [u8; sizes::IMAGE] = buffers::zeros();
    if names_apart(&rt) && console::load(&rt, 1, &mut image) {
        decode(&rt, &image)
    } else {
        ExitCode::SUCCESS
    }
}
