// A line for each program and delay.
use crate::case::Case;
use crate::record::Record;
use asm::program::Program;
use sim::delay::Delay;
use sim::devices::Rest;
use std::alloc::{AllocError, Global};
use testbench::failure::Failure;
use testbench::files::{Format, read_program};
use testbench::lines::Shown;
use testbench::setup::Setup;
use testbench::summary::Summary;
use testbench::versus::versus;

const DELAYS: [Delay; 5] = [
    Delay::Fixed(0),
    Delay::Fixed(1),
    Delay::Fixed(7),
    Delay::Fixed(20),
    Delay::UpTo(20),
];

// A run that goes on is ended after so many clocks.
const LIMIT: u64 = 20_000;

pub fn show_all(rt: &HostRuntime) -> Result<(), Failure> {
    for case in Case::ALL {
        Loaded::read(rt, case)?.show(rt)?;
    }
    show_sweep(rt)
}

// A case and its program.
#[derive(Drop)]
struct Loaded {
    case: Case,
    program: Program,
}

impl Loaded {
    fn read(rt: &HostRuntime, case: Case) -> Result<Loaded, Failure> {
        let mut program = read_program(rt, case.file(), Format::Assembly)?;
        if let Case::OddStart = case {
            program.start = 2;
        }
        Ok(Loaded { case, program })
    }

    // What a run came to, and whether the fact holds of it and the manual agrees.
    fn run(&self, heap: Global, delay: Delay) -> Result<(Summary, bool), Failure> {
        let setup = Setup {
            program: &self.program,
            delay,
            rest: Rest::Zero,
            seed: 1,
        };
        let record = Record::of(heap, &setup, LIMIT)?;
        let agrees = versus(heap, &setup, LIMIT)?.is_ok();
        let holds = self.case.holds(&self.program, &record, delay.most());
        Ok((record.summary, agrees && holds))
    }

    fn show(&self, rt: &HostRuntime) -> Result<(), Failure> {
        let file = self.case.file();
        let fact = self.case.fact();
        println!(rt; "{file}: {fact}")?;
        for delay in DELAYS {
            self.show_run(rt, delay)?;
        }
        Ok(())
    }

    fn show_run(&self, rt: &HostRuntime, delay: Delay) -> Result<(), Failure> {
        let heap = rt.alloc();
        let (summary, holds) = self.run(heap, delay)?;
        let Summary {
            clocks,
            instructions,
            ..
        } = summary;
        let delay = delay.to_string(heap)?;
        let end = end(heap, &summary)?;
        let verdict = word(holds);
        println!(rt;
            "  delay {delay:>5}: {clocks:>6} clocks {instructions:>6} instructions, {end}: {verdict}"
        )?;
        Ok(())
    }
}

fn word(holds: bool) -> &'static str {
    if holds { "ok" } else { "FAILED" }
}

// How it stopped, and the last instruction done.
fn end(heap: Global, summary: &Summary) -> Result<String, AllocError> {
    let how = match summary.stopped {
        Some(stop) => Shown(stop).to_string(heap)?,
        None => String::from_str(heap, "goes on")?,
    };
    match summary.last {
        Some(last) => {
            let last = Shown(last);
            format!(in heap; "{how}, last {last}")
        }
        None => Ok(how),
    }
}

// The branch over a device's read, with every delay up to 50.
fn show_sweep(rt: &HostRuntime) -> Result<(), Failure> {
    let heap = rt.alloc();
    let loaded = Loaded::read(rt, Case::EitherWay)?;
    let holds = (0..51).try_fold(true, |holds, clocks| -> Result<bool, Failure> {
        let (_, held) = loaded.run(heap, Delay::Fixed(clocks))?;
        Ok(holds && held)
    })?;
    let file = loaded.case.file();
    let verdict = word(holds);
    println!(rt; "{file}, delay 0 to 50: {verdict}")?;
    Ok(())
}
