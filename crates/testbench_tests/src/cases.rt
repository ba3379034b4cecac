// One history for each thing that a core must not do.
use crate::history::{History, IDLE, done, read, stop, want, write};
use isa::devices::DEVICES;
use isa::execute::Stop;
use std::alloc::AllocError;
use testbench::failure::Failure;

const ASKING: &str = "
        lui     t2, 0x80000
        sw      t2, 8(zero)
        lw      t1, 4(t2)
        ecall
";

const STORING: &str = "
        sw      zero, 8(zero)
here:   sw      zero, 12(zero)
        j       here
";

fn show(rt: &HostRuntime, name: &str, history: History) -> Result<(), Failure> {
    match history.judge(rt.alloc())? {
        Ok(()) => println!(rt; "{name}: as promised")?,
        Err(difference) => println!(rt; "{name}: {difference}")?,
    }
    Ok(())
}

pub fn show_all(rt: &HostRuntime) -> Result<(), Failure> {
    show_right(rt)?;
    show_done(rt)?;
    show_requests(rt)?;
    show_order(rt)?;
    show_stops(rt)?;
    show_open(rt)?;
    show_time(rt)
}

fn asking(rt: &HostRuntime) -> History<'static> {
    History::new(rt.alloc(), ASKING)
}

// The first two instructions, as they should be.
fn begun(rt: &HostRuntime) -> Result<History<'static>, AllocError> {
    asking(rt).then(&[IDLE, done(0, 7, DEVICES), done(4, 0, 0), write(8, DEVICES)])
}

// All four.
fn finished(rt: &HostRuntime) -> Result<History<'static>, AllocError> {
    let asked = begun(rt)?.then(&[read(DEVICES + 4), IDLE])?;
    asked.answered().then(&[done(8, 6, 99)])
}

fn show_right(rt: &HostRuntime) -> Result<(), Failure> {
    let right = finished(rt)?.then(&[stop(Stop::EnvCall)])?;
    show(rt, "right", right)
}

fn show_done(rt: &HostRuntime) -> Result<(), Failure> {
    let wrong = asking(rt).then(&[done(0, 7, 0)])?;
    show(rt, "a wrong value", wrong)?;
    let other = asking(rt).then(&[done(0, 8, DEVICES)])?;
    show(rt, "another register", other)?;
    let left_out = asking(rt).then(&[done(4, 0, 0)])?;
    show(rt, "an instruction left out", left_out)?;
    let unanswered = begun(rt)?.then(&[read(DEVICES + 4), done(8, 6, 99)])?;
    show(rt, "no answer", unanswered)?;
    let further = finished(rt)?.then(&[done(12, 0, 0)])?;
    show(rt, "past the end", further)
}

fn show_requests(rt: &HostRuntime) -> Result<(), Failure> {
    let other = asking(rt).then(&[done(0, 7, DEVICES), done(4, 0, 0), write(8, 1)])?;
    show(rt, "another write", other)?;
    let twice = begun(rt)?.then(&[write(8, DEVICES)])?;
    show(rt, "a write twice", twice)?;
    let asked_twice = begun(rt)?.then(&[read(DEVICES + 4); 2])?;
    show(rt, "a device asked twice", asked_twice)
}

fn show_order(rt: &HostRuntime) -> Result<(), Failure> {
    let early = asking(rt).then(&[write(8, DEVICES)])?;
    show(rt, "a write too early", early)?;
    let next = asking(rt).then(&[done(0, 7, DEVICES), write(8, DEVICES), done(4, 0, 0)])?;
    show(rt, "the next instruction's write", next)?;
    let overtaking = asking(rt).then(&[done(0, 7, DEVICES), done(4, 0, 0), read(DEVICES + 4)])?;
    show(rt, "a device asked before a write", overtaking)?;
    let mut behind = History::new(rt.alloc(), STORING).then(&[done(0, 0, 0)])?;
    for _ in 0..8 {
        behind = behind.then(&[done(4, 0, 0), done(8, 0, 0)])?;
    }
    show(rt, "nine writes behind", behind)
}

fn show_stops(rt: &HostRuntime) -> Result<(), Failure> {
    let otherwise = finished(rt)?.then(&[stop(Stop::Illegal)])?;
    show(rt, "stopped otherwise", otherwise)?;
    let early = begun(rt)?.then(&[stop(Stop::EnvCall)])?;
    show(rt, "stopped too early", early)?;
    let storing = History::new(rt.alloc(), "sw zero, 8(zero)\necall\n");
    let without = storing.then(&[done(0, 0, 0), stop(Stop::EnvCall)])?;
    show(rt, "stopped without a write", without)
}

fn show_open(rt: &HostRuntime) -> Result<(), Failure> {
    let wants = asking(rt).then(&[want(0); 5])?;
    show(rt, "five words of code open", wants)?;
    let reads = asking(rt).then(&[read(0); 5])?;
    show(rt, "five requests open", reads)
}

fn show_time(rt: &HostRuntime) -> Result<(), Failure> {
    let patient = asking(rt).then(&[IDLE; 63])?.then(&[done(0, 7, DEVICES)])?;
    show(rt, "nothing done in 63 clocks", patient)?;
    let idle = asking(rt).then(&[IDLE; 64])?;
    show(rt, "nothing done in 64 clocks", idle)?;
    let storing = History::new(rt.alloc(), "sw zero, 8(zero)\nhere: j here\n");
    let late = storing.then(&[done(0, 0, 0)])?.then(&[done(4, 0, 0); 70])?;
    show(rt, "a write that does not come", late)
}
