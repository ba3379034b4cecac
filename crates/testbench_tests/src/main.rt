// Shows the checker what a core must not do, and what it says of it.
#![tactic(auto)]

mod cases;
mod history;

use std::process::ExitCode;
use testbench::failure::exit_code;

// As in the other programs, but for its name.
fn main(rt: HostRuntime) -> ExitCode {
    let result = cases::show_all(&rt);
    exit_code(&rt, "testbench_tests", result)
}
