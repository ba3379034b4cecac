// Runs that are shown clock by clock.
use crate::failure::Failure;
use crate::lines::{Shown, Word, instruction};
use crate::runner::run;
use crate::session::{Clock, Session};
use crate::summary::Summary;
use reference::memory::Memory;
use reference::trace::Effect;

// Runs until it stops, or up to a number of clocks, and shows the clocks from `from` on.
pub fn trace(
    rt: &HostRuntime,
    session: &mut Session,
    from: u64,
    limit: u64,
) -> Result<Summary, Failure> {
    // Counted from here, and not by the clock's number: the session may have run before.
    let mut number = 0u64;
    run(session, limit, |session, clock| {
        if number >= from {
            show(rt, &session.world.code, clock)?;
        }
        number = number.saturating_add(1);
        Ok(())
    })
}

// What is done and asked in a clock, and whether it stops.
pub fn show(rt: &HostRuntime, code: &Memory, clock: &Clock) -> Result<(), Failure> {
    let number = clock.number;
    for retired in clock.done() {
        let line = instruction(rt.alloc(), *retired, code.get(retired.pc / 4))?;
        println!(rt; "clock {number:>6}  {line}")?;
    }
    show_request(rt, clock)?;
    if let Some(stop) = clock.outputs.stopped {
        let stop = Shown(stop);
        println!(rt; "clock {number:>6}              stopped: {stop}")?;
    }
    Ok(())
}

// Writes and reads of devices.
fn show_request(rt: &HostRuntime, clock: &Clock) -> Result<(), Failure> {
    let number = clock.number;
    match clock.effect() {
        Some(Effect::Write { address, value }) => {
            let value = Word(value);
            println!(rt; "clock {number:>6}              write {address:#010x} <- {value}")?;
        }
        Some(Effect::Ask { address }) => {
            println!(rt; "clock {number:>6}              ask   {address:#010x}")?;
        }
        None => {}
    }
    Ok(())
}
