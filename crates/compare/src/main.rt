// Runs programs on the core and on the manual side by side, and shows the first difference.
#![tactic(auto)]

mod options;
mod program;

use std::process::ExitCode;
use testbench::failure::exit_code;

// As in the other programs, but for its name.
fn main(rt: HostRuntime) -> ExitCode {
    let result = program::run(&rt);
    exit_code(&rt, "compare", result)
}
