// The program to run, with what the options add, and its run.
use crate::options::{HELP, Options};
use crate::record::Recorder;
use asm::program::Program;
use std::alloc::AllocError;
use testbench::failure::Failure;
use testbench::files::{Format, read_program};
use testbench::options::from_args;
use testbench::runner;
use testbench::setup::Setup;
use testbench::trace::show;

pub fn run(rt: &HostRuntime) -> Result<(), Failure> {
    let heap = rt.alloc();
    let Some(options) = from_args(rt, Options::new(heap), HELP)? else {
        return Ok(());
    };
    let Some(path) = &options.program else {
        return Err(Failure::Input(String::from_str(heap, "no program; see run --help")?));
    };
    let format = options.format.unwrap_or(Format::of(path));
    let mut program = read_program(rt, path, format)?;
    add_options(&mut program, &options)?;
    run_program(rt, &program, &options)
}

fn add_options(program: &mut Program, options: &Options) -> Result<(), AllocError> {
    if let Some(start) = options.start {
        program.start = start;
    }
    program.data.extend_from_slice(&options.data)?;
    program.answers.extend_from_slice(&options.answers)
}

fn run_program(rt: &HostRuntime, program: &Program, options: &Options) -> Result<(), Failure> {
    let setup = Setup {
        program,
        delay: options.delay,
        rest: options.rest,
        seed: u64::from(options.seed),
    };
    let mut session = setup.session(rt.alloc())?;
    let mut recorder = Recorder::create(rt, options, &session)?;
    let limit = options.clocks;
    let summary = runner::run(&mut session, u64::from(limit), |session, clock| {
        recorder.add(session, clock)?;
        if !options.quiet {
            show(rt, &session.world.code, clock)?;
        }
        Ok(())
    })?;
    recorder.finish(summary.clocks)?;
    if summary.stopped.is_none() {
        println!(rt; "not stopped after {limit} clocks")?;
    }
    println!(rt; "{summary}")?;
    Ok(())
}
