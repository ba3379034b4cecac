// Runs a table of single instructions through the instruction set, and a small program through the reference.
#![tactic(auto)]

mod instructions;
mod program;

fn run(rt: &HostRuntime) -> anyhow::Result<()> {
    instructions::check_all(rt)?;
    program::show(rt)
}

fn main(rt: HostRuntime) -> anyhow::Result<()> {
    run(&rt)
}
