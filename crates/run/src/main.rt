// Runs a program on the core and prints what is done, clock by clock.
#![tactic(auto)]

mod options;
mod program;
mod record;

use std::process::ExitCode;
use testbench::failure::exit_code;

// As in the other programs, but for its name.
fn main(rt: HostRuntime) -> ExitCode {
    let result = program::run(&rt);
    exit_code(&rt, "run", result)
}
