// The tally of document 01: how often each gap length occurs in the frame that standard input gives.
#![tactic(auto)]

use std::process::ExitCode;

// One byte more than the input has, so that a longer input is noticed.
fn main(rt: HostRuntime) -> ExitCode {
    let mut input = [0u8; 162];
    let n = console::read_full(&mut rt.stdin(), &mut input);
    console::print_last(&rt, tallying::tally(&input[..n]))
}
