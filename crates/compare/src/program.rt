// The programs to compare, and what comes of it.
use crate::options::{HELP, Options};
use asm::listing::Listing;
use asm::program::{Placed, Program};
use sim::devices::Rest;
use std::fmt;
use testbench::failure::Failure;
use testbench::files::{Format, read_program};
use testbench::generator::random_program;
use testbench::options::from_args;
use testbench::setup::Setup;
use testbench::summary::Summary;
use testbench::trace::trace;
use testbench::versus::{Difference, versus};

// What agreed so far.
#[derive(Clone, Copy, Default)]
struct Totals {
    programs: u64,
    runs: u64,
    clocks: u64,
    instructions: u64,
}

impl Totals {
    fn add(&mut self, summary: &Summary) {
        self.runs = self.runs.saturating_add(1);
        self.clocks = self.clocks.saturating_add(summary.clocks);
        self.instructions = self.instructions.saturating_add(summary.instructions);
    }
}

// `programs 2, runs 8, clocks 812, instructions 390`
impl fmt::Display for Totals {
    fn fmt<W: fmt::Write>(&self, f: &mut fmt::Formatter<W>) -> fmt::Result {
        let Totals {
            programs,
            runs,
            clocks,
            instructions,
        } = *self;
        write!(
            f,
            "programs {programs}, runs {runs}, clocks {clocks}, instructions {instructions}"
        )
    }
}

pub fn run(rt: &HostRuntime) -> Result<(), Failure> {
    let heap = rt.alloc();
    let Some(options) = from_args(rt, Options::new(heap), HELP)? else {
        return Ok(());
    };
    if options.programs.is_empty() && options.random == 0 {
        return Err(Failure::Input(String::from_str(heap, "no program; see compare --help")?));
    }
    let mut comparison = Comparison {
        rt,
        options: &options,
        totals: Totals::default(),
    };
    comparison.compare_files()?;
    comparison.compare_random()?;
    let totals = comparison.totals;
    println!(rt; "{totals}: all agree")?;
    Ok(())
}

// What is compared, and what came of it so far.
#[derive(Clone, Copy)]
struct Comparison<'a> {
    rt: &'a HostRuntime,
    options: &'a Options,
    totals: Totals,
}

impl Comparison<'_> {
    fn compare_files(&mut self) -> Result<(), Failure> {
        let seed = u64::from(self.options.seed);
        for path in self.options.programs.iter() {
            let path = path.as_str();
            let format = self.options.format.unwrap_or(Format::of(path));
            let program = read_program(self.rt, path, format)?;
            self.compare(path, &program, Rest::Zero, seed)?;
        }
        Ok(())
    }

    fn compare_random(&mut self) -> Result<(), Failure> {
        let heap = self.rt.alloc();
        let first = u64::from(self.options.seed);
        for seed in first..first + u64::from(self.options.random) {
            let program = random_program(heap, seed)?;
            let name = format!(in heap; "--random 1 --seed {seed}")?;
            self.compare(name.as_str(), &program, Rest::Random, seed)?;
        }
        Ok(())
    }

    // One program with each delay.
    fn compare(
        &mut self,
        name: &str,
        program: &Program,
        rest: Rest,
        seed: u64,
    ) -> Result<(), Failure> {
        self.totals.programs = self.totals.programs.saturating_add(1);
        for delay in self.options.delays() {
            let setup = Setup {
                program,
                delay: *delay,
                rest,
                seed,
            };
            match versus(self.rt.alloc(), &setup, u64::from(self.options.clocks))? {
                Ok(summary) => self.totals.add(&summary),
                Err(difference) => {
                    show_difference(self.rt, name, &setup, difference)?;
                    return Err(Failure::Shown);
                }
            }
        }
        Ok(())
    }
}

fn show_difference(
    rt: &HostRuntime,
    name: &str,
    setup: &Setup,
    difference: Difference,
) -> Result<(), Failure> {
    let Difference { clock, mismatch } = difference;
    let delay = setup.delay;
    println!(rt; "{name}, answers after {delay} clocks: in clock {clock} {mismatch}")?;
    println!(rt)?;
    show_program(rt, setup.program)?;
    println!(rt)?;
    let mut session = setup.session(rt.alloc())?;
    trace(
        rt,
        &mut session,
        clock.saturating_sub(20),
        clock.saturating_add(1),
    )?;
    Ok(())
}

fn show_program(rt: &HostRuntime, program: &Program) -> Result<(), Failure> {
    for placed in program.code.iter() {
        let Placed { address: pc, word } = *placed;
        let line = Listing { pc, word };
        println!(rt; "{pc:#010x}  {line}")?;
    }
    Ok(())
}
