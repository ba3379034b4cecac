// How many clocks a second the core does, and what part of that is reading and writing its words.
#![tactic(auto)]

mod rig;

use anyhow::Context;
use rig::Rig;
use std::time::Instant;
use std::{env, fmt};

// As many clocks as the program was asked for, or a thousand.
fn count(rt: &HostRuntime) -> anyhow::Result<u64> {
    match env::args(rt)?.nth(1) {
        Some(text) => Ok(text.parse::<u64>()?),
        None => Ok(1000),
    }
}

// A time, in tenths of nanoseconds.
#[derive(Clone, Copy)]
struct Tenths(u128);

// `81.3 ns`
impl fmt::Display for Tenths {
    fn fmt<W: fmt::Write>(&self, f: &mut fmt::Formatter<W>) -> fmt::Result {
        let whole = self.0 / 10;
        let tenth = self.0 % 10;
        write!(f, "{whole}.{tenth} ns")
    }
}

// What a call answers, and the time that it takes for each of a number of clocks.
fn timed<R: Drop, F: FnOnce() -> R>(
    rt: &HostRuntime,
    count: u64,
    call: F,
) -> anyhow::Result<(R, Tenths)>
    requires { F.pre call }
{
    let start = Instant::now(rt)?;
    let answer = call();
    let total = start.elapsed(rt)?.as_nanos();
    let each = total.saturating_mul(10).checked_div(u128::from(count));
    Ok((answer, Tenths(each.unwrap_or(0))))
}

fn show_times(rt: &HostRuntime, rig: &mut Rig, count: u64) -> anyhow::Result<()> {
    let (_, all) = timed(rt, count, || rig.clocks(count))?;
    let (stepped, steps) = timed(rt, count, || rig.steps(count))?;
    stepped.context("the core refuses its own words")?;
    let words = Tenths(all.0.saturating_sub(steps.0));
    println!(rt; "{all} a clock")?;
    println!(rt; "{words} of it reading and writing the words")?;
    Ok(())
}

fn run(rt: &HostRuntime) -> anyhow::Result<()> {
    let count = count(rt)?;
    let mut rig = Rig::new(rt.alloc())?;
    if count > 1_000_000 {
        show_times(rt, &mut rig, count)?;
    } else {
        rig.clocks(count);
    }
    let retired = rig.retired;
    println!(rt; "{count} clocks, {retired} instructions")?;
    Ok(())
}

fn main(rt: HostRuntime) -> anyhow::Result<()> {
    run(&rt)
}
