// A value change dump: a header, then for each clock the wires that change.
use crate::sample::{Carried, Sample};
use crate::wires::{Signal, Wire};
use std::fmt;

// The nanoseconds of a clock.
const PERIOD: u64 = 10;

// Wires have one character each: the ports from here on, the others from there.
const FIRST_PORT: u8 = b'!';

const FIRST_INSIDE: u8 = b'A';

const LAST: u8 = b'~';

#[derive(Clone, Copy)]
pub struct Header;

impl fmt::Display for Header {
    fn fmt<W: fmt::Write>(&self, f: &mut fmt::Formatter<W>) -> fmt::Result {
        let Sample { ports, inside } = Sample::idle();
        f.write_str("$version run $end\n$timescale 1 ns $end\n$scope module core $end\n")?;
        declare(f, FIRST_PORT, &ports)?;
        f.write_str("$scope module inside $end\n")?;
        declare(f, FIRST_INSIDE, &inside)?;
        f.write_str("$upscope $end\n$upscope $end\n$enddefinitions $end\n")
    }
}

fn declare<W: fmt::Write>(f: &mut fmt::Formatter<W>, first: u8, signals: &[Signal]) -> fmt::Result {
    for (id, signal) in (first..=LAST).zip(signals) {
        let id = char::from(id);
        let width = signal.wire.width();
        let name = signal.wire.name();
        writeln!(f, "$var wire {width} {id} {name} $end")?;
    }
    Ok(())
}

// The text of one clock: what changed since the clock before, or everything in the first.
#[derive(Clone, Copy)]
pub struct Changes {
    clock: u64,
    before: Option<Carried>,
    now: Sample,
}

impl fmt::Display for Changes {
    fn fmt<W: fmt::Write>(&self, f: &mut fmt::Formatter<W>) -> fmt::Result {
        let time = Time(self.clock);
        let Sample { ports, inside } = &self.now;
        match &self.before {
            None => {
                writeln!(f, "{time}\n$dumpvars")?;
                write_all(f, FIRST_PORT, ports)?;
                write_all(f, FIRST_INSIDE, inside)?;
                writeln!(f, "$end")
            }
            Some(before) => {
                writeln!(f, "{time}")?;
                write_changed(f, FIRST_PORT, &before.ports, ports)?;
                write_changed(f, FIRST_INSIDE, &before.inside, inside)
            }
        }
    }
}

fn write_all<W: fmt::Write>(f: &mut fmt::Formatter<W>, first: u8, now: &[Signal]) -> fmt::Result {
    for (id, signal) in (first..=LAST).zip(now) {
        write_signal(f, id, *signal)?;
    }
    Ok(())
}

// The signals that do not carry what their wires carried before.
fn write_changed<W: fmt::Write>(
    f: &mut fmt::Formatter<W>,
    first: u8,
    before: &[Option<u32>],
    now: &[Signal],
) -> fmt::Result {
    for ((id, signal), before) in (first..=LAST).zip(now).zip(before) {
        if signal.value != *before {
            write_signal(f, id, *signal)?;
        }
    }
    Ok(())
}

// `1!`, `b101 #`, and `x!` or `bx #` where nothing stands.
fn write_signal<W: fmt::Write>(f: &mut fmt::Formatter<W>, id: u8, signal: Signal) -> fmt::Result {
    let id = char::from(id);
    match (signal.wire, signal.value) {
        (Wire::Flag(_), Some(bit)) => writeln!(f, "{bit}{id}"),
        (Wire::Flag(_), None) => writeln!(f, "x{id}"),
        (_, Some(word)) => writeln!(f, "b{word:b} {id}"),
        (_, None) => writeln!(f, "bx {id}"),
    }
}

// When a clock begins: `#370`.
#[derive(Clone, Copy)]
pub struct Time(pub u64);

impl fmt::Display for Time {
    fn fmt<W: fmt::Write>(&self, f: &mut fmt::Formatter<W>) -> fmt::Result {
        let time = self.0.saturating_mul(PERIOD);
        write!(f, "#{time}")
    }
}

// A dump under way: what the wires carried in the last clock, as their names stay.
#[derive(Clone, Copy)]
pub struct Dump {
    last: Option<Carried>,
}

impl Dump {
    // Before the first clock.
    pub fn new() -> Dump {
        Dump { last: None }
    }

    pub fn clock(&mut self, clock: u64, now: Sample) -> Changes {
        let before = self.last.replace(now.carried());
        Changes { clock, before, now }
    }
}
