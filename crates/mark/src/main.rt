// mark PSN USER SIDE IMAGE: whether the image is that of these user bytes, this side data and this PSN under some dc-control bits and
// some first #.
#![tactic(auto)]

use address::Psn;
use console::Complaints;
use std::process::ExitCode;
use std::rt::{Env, Files};

fn load(
    rt: &(impl Env + Files + Complaints),
    user: &mut [u8],
    side: &mut [u8],
    image: &mut [u8],
) -> bool {
    console::load(rt, 2, user)
        && console::load_unless_dash(rt, 3, side)
        && console::load(rt, 4, image)
}

fn mark(rt: &(impl Print + Env + Files + Complaints), psn: Psn) -> ExitCode {
    let mut user: [u8; sizes::USER] = buffers::zeros();
    let mut side: [u8; sizes::SIDE] = buffers::zeros();
    let mut image: [u8; sizes::IMAGE] = buffers::zeros();
    if load(rt, &mut user, &mut side, &mut image) {
        console::print_last(rt, marking::mark(psn, &user, &side, &image))
    } else {
        ExitCode::SUCCESS
    }
}

fn main(rt: HostRuntime) -> ExitCode {
    if console::argument_count(&rt) != 5 {
        return console::print_usage(&rt, b"usage: mark PSN USER SIDE IMAGE\n");
    }
    let mut text = [0u8; 4096];
    let n = console::argument(&rt, 1, &mut text);
    match notation::psn_of(&text[..n]) {
        Some(psn) => mark(&rt, psn),
        None => console::print_usage(&rt, b"usage: a PSN is eight hexadecimal digits\n"),
    }
}
