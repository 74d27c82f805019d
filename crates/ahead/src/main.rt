// ahead: how far ahead of a word's start the modulator reads in the frame that standard input gives (document 02, W-212): a dc word in four bytes, the
// highest first, and the frame's 155 bytes.
#![tactic(auto)]

use std::process::ExitCode;

// One byte more than the input has, so that a longer input is noticed.
fn main(rt: HostRuntime) -> ExitCode {
    if console::argument_count(&rt) != 1 {
        return console::print_usage(&rt, b"usage: ahead < FRAME\n");
    }
    let mut input = [0u8; 160];
    let mut stdin = rt.stdin();
    let n = console::read_full(&mut stdin, &mut input);
    if n < 160 {
        if let Err(error) = console::has_more(&mut stdin) {
            console::fail(&rt, b"standard input", error);
            return ExitCode::SUCCESS;
        }
    }
    match console::try_print(&rt, ahead_report::ahead(&input[..n])) {
        Ok(()) => ExitCode::SUCCESS,
        Err(error) => console::not_printed(&rt, error),
    }
}
