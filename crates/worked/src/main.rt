// Runs the worked programs on the core and side by side with the manual, and checks what is known of them.
#![tactic(auto)]

mod case;
mod facts;
mod record;
mod refusals;
mod table;

use std::process::ExitCode;
use testbench::failure::{Failure, exit_code};

fn run(rt: &HostRuntime) -> Result<(), Failure> {
    table::show_all(rt)?;
    refusals::show(rt)
}

// As in the other programs, but for its name.
fn main(rt: HostRuntime) -> ExitCode {
    let result = run(&rt);
    exit_code(&rt, "worked", result)
}
