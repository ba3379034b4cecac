// A small program on the reference: it sums 4 to 1, writes the sum to a device, reads a device, stores what it read and
// loads it again.
use pins::ports::Retired;
use reference::history::History;
use reference::machine::Machine;
use reference::memory::Memory;
use reference::trace::{Effect, Halt};
use std::alloc::{AllocError, Global};

const WORDS: [u32; 10] = [
    4194963, 5571891, 4294083219, 4261584099, 2147484599, 10723363, 4432643, 6300707, 8398211, 115,
];

fn code(heap: Global) -> Result<Memory, AllocError> {
    let mut code = Memory::new(heap);
    for (number, word) in (0..).zip(&WORDS) {
        code.set(number, *word)?;
    }
    Ok(code)
}

fn show_history(rt: &HostRuntime, history: &History) -> anyhow::Result<()> {
    for trace in history.traces.iter() {
        let Retired { pc, reg, value } = trace;
        println!(rt; "at {pc}: x{reg} = {value}")?;
    }
    for effect in history.effects.iter() {
        match effect {
            Effect::Write { address, value } => println!(rt; "writes {value} to {address}")?,
            Effect::Ask { address } => println!(rt; "asks {address}")?,
        }
    }
    Ok(())
}

fn show_end(rt: &HostRuntime, end: Option<Halt>) -> anyhow::Result<()> {
    match end {
        None => println!(rt; "runs on")?,
        Some(Halt::Stopped(stop)) => println!(rt; "stops with {}", u32::from(stop))?,
        Some(Halt::NoAnswer) => println!(rt; "waits for a device")?,
    }
    Ok(())
}

// Up to `count` instructions, with what devices answer.
fn run(rt: &HostRuntime, answers: &[u32], count: usize) -> anyhow::Result<History> {
    let code = code(rt.alloc())?;
    let mut machine = Machine::new(0, Memory::new(rt.alloc()));
    Ok(machine.run(rt.alloc(), &code, answers, count)?)
}

// The program with an answer, without, and not to its end.
pub fn show(rt: &HostRuntime) -> anyhow::Result<()> {
    let history = run(rt, &[99], 100)?;
    show_history(rt, &history)?;
    show_end(rt, history.end)?;
    show_end(rt, run(rt, &[], 100)?.end)?;
    show_end(rt, run(rt, &[], 10)?.end)
}
