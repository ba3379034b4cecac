// The waveforms and the commit log of a run.
#![tactic(auto)]

use asm::program::Program;
use first::state::Core;
use sim::delay::Delay;
use sim::devices::Rest;
use std::process::ExitCode;
use testbench::failure::{Failure, exit_code};
use testbench::files::{Format, read_program};
use testbench::runner;
use testbench::session::Session;
use testbench::setup::Setup;
use waves::commit::CommitLog;
use waves::sample::Sample;
use waves::vcd::{Dump, Header};

const CLOCKS: u64 = 100;

fn session(rt: &HostRuntime, program: &Program) -> Result<Session, Failure> {
    let setup = Setup {
        program,
        delay: Delay::Fixed(1),
        rest: Rest::Zero,
        seed: 1,
    };
    setup.session(rt.alloc())
}

// The waveforms, until it stops.
fn show_waves(rt: &HostRuntime, program: &Program) -> Result<(), Failure> {
    let mut session = session(rt, program)?;
    let mut dump = Dump::new();
    let header = Header;
    print!(rt; "{header}")?;
    // As the next clock begins.
    let mut before = Core::load(session.core()).ok_or(Failure::NoCore)?;
    runner::run(&mut session, CLOCKS, |session, clock| {
        let sample = Sample::new(&before, &clock.inputs, &clock.outputs);
        let changes = dump.clock(clock.number, sample);
        print!(rt; "{changes}")?;
        before = Core::load(session.core()).ok_or(Failure::NoCore)?;
        Ok(())
    })?;
    Ok(())
}

// The commit log, until it stops.
fn show_log(rt: &HostRuntime, program: &Program) -> Result<(), Failure> {
    let mut session = session(rt, program)?;
    let mut log = CommitLog::new();
    runner::run(&mut session, CLOCKS, |session, clock| {
        for retired in clock.done() {
            let commit = log.commit(*retired, session.world.code.get(retired.pc / 4));
            println!(rt; "{commit}")?;
        }
        Ok(())
    })?;
    Ok(())
}

fn show(rt: &HostRuntime) -> Result<(), Failure> {
    let program = read_program(rt, "loop.s", Format::Assembly)?;
    show_log(rt, &program)?;
    show_waves(rt, &program)
}

// As in the other programs, but for its name.
fn main(rt: HostRuntime) -> ExitCode {
    let result = show(&rt);
    exit_code(&rt, "waves_tests", result)
}
