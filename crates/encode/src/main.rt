// encode PSN USER SIDE DC IMAGE [FIRST]: the image of a cluster, written from files. `-` for SIDE or DC is zeros. FIRST is the first #, 0 or
// 1, and 0 where it is left out.
#![tactic(auto)]

use address::Psn;
use console::Complaints;
use std::process::ExitCode;
use std::rt::{Env, Files};
use texts::Text;

// IMAGE is none of the files that are read.
fn names_apart(rt: &(impl Env + Complaints)) -> bool {
    console::not_over(rt, 2, 5)
        && console::not_over_unless_dash(rt, 3, 5)
        && console::not_over_unless_dash(rt, 4, 5)
}

// The user bytes, the side data and the bytes of the dc words.
fn load(
    rt: &(impl Env + Files + Complaints),
    user: &mut [u8],
    side: &mut [u8],
    dc: &mut [u8],
) -> bool {
    console::load(rt, 2, user)
        && console::load_unless_dash(rt, 3, side)
        && console::load_unless_dash(rt, 4, dc)
}

// The image gets its name only when all of it is written; then the answer is said.
fn save(rt: &(impl Print + Env + Files + Complaints), image: &[u8], text: Text) -> ExitCode {
    if console::write_part(rt, 5, image) && console::keep_part(rt, 5) {
        console::print_last(rt, text)
    } else {
        ExitCode::SUCCESS
    }
}

fn write(
    rt: &(impl Print + Env + Files + Complaints),
    psn: Psn,
    user: &[u8],
    side: &[u8],
    dc: &[u8],
    first: bool,
) -> ExitCode {
    let mut image: [u8; sizes::IMAGE] = buffers::zeros();
    let said = encoding::encode(psn, user, side, dc, first, &mut image);
    if said.keep {
        save(rt, &image, said.text)
    } else {
        console::print_last(rt, said.text)
    }
}

fn encode(rt: &(impl Print + Env + Files + Complaints), psn: Psn, first: bool) -> ExitCode {
    let mut user: [u8; sizes::USER] = buffers::zeros();
    let mut side: [u8; sizes::SIDE] = buffers::zeros();
    let mut dc: [u8; sizes::DC] = buffers::zeros();
    if load(rt, &mut user, &mut side, &mut dc) {
        write(rt, psn, &user, &side, &dc, first)
    } else {
        ExitCode::SUCCESS
    }
}

fn run(rt: &(impl Print + Env + Files + Complaints), first: bool) -> ExitCode {
    let mut text = [0u8; 4096];
    let n = console::argument(rt, 1, &mut text);
    match notation::psn_of(&text[..n]) {
        Some(psn) if names_apart(rt) => encode(rt, psn, first),
        Some(_) => ExitCode::SUCCESS,
        None => console::print_usage(rt, b"usage: a PSN is eight hexadecimal digits\n"),
    }
}

fn run_with_first(rt: &(impl Print + Env + Files + Complaints)) -> ExitCode {
    let mut text = [0u8; 4096];
    let n = console::argument(rt, 6, &mut text);
    match notation::first_of(&text[..n]) {
        Some(first) => run(rt, first),
        None => console::print_usage(rt, b"usage: FIRST is 0 or 1\n"),
    }
}

fn main(rt: HostRuntime) -> ExitCode {
    match console::argument_count(&rt) {
        6 => run(&rt, false),
        7 => run_with_first(&rt),
        _ => console::print_usage(&rt, b"usage: encode PSN USER SIDE DC IMAGE [FIRST]\n"),
    }
}
