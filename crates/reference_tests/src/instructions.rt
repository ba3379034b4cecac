// Single instructions at edge values. data/cases.txt has the cases, one to a line: a name, the word, pc, x5 and x6, and
// what the instruction does. tools/instruction_cases.py wrote it from the manual, on integers of its own.
use anyhow::Context;
use isa::execute::{Outcome, perform};
use isa::reg::Reg;
use isa::regs::Regs;
use std::{fmt, fs};

#[derive(Drop)]
struct Case<'a> {
    name: &'a str,
    word: u32,
    pc: u32,
    x: u32,
    y: u32,
    does: &'a str,
}

fn number(part: Option<&str>) -> anyhow::Result<u32> {
    Ok(part.context("a number is missing")?.parse::<u32>()?)
}

fn parse(line: &str) -> anyhow::Result<Case<'_>> {
    let mut parts = line.splitn(6, ' ');
    Ok(Case {
        name: parts.next().context("no name")?,
        word: number(parts.next())?,
        pc: number(parts.next())?,
        x: number(parts.next())?,
        y: number(parts.next())?,
        does: parts.next().context("no outcome")?,
    })
}

// Display can't be written on a type of another crate.
#[derive(Drop)]
struct Shown(Outcome);

impl fmt::Display for Shown {
    fn fmt<W: fmt::Write>(&self, f: &mut fmt::Formatter<W>) -> fmt::Result {
        match self.0 {
            Outcome::Write { rd, value, next } => write!(f, "write {} {value} {next}", rd.number),
            Outcome::Jump { next } => write!(f, "jump {next}"),
            Outcome::Load { rd, address } => write!(f, "load {} {address}", rd.number),
            Outcome::Store { address, value } => write!(f, "store {address} {value}"),
            Outcome::Halt(stop) => write!(f, "halt {}", u32::from(stop)),
        }
    }
}

// Says so if the instruction does something else. x0 is 0, whatever its place holds.
fn check(rt: &HostRuntime, case: &Case) -> anyhow::Result<()> {
    let mut regs = Regs::new();
    regs.write(Reg { number: 0 }, 7);
    regs.write(Reg { number: 5 }, case.x);
    regs.write(Reg { number: 6 }, case.y);
    let did = Shown(perform(&regs, case.pc, case.word)).to_string(rt.alloc())?;
    let Case {
        name,
        word,
        does,
        ..
    } = case;
    if did.as_str() != *does {
        println!(rt; "{name} {word}: {did}, and not {does}")?;
    }
    Ok(())
}

// Checks each case, and says how many there were of each name.
pub fn check_all(rt: &HostRuntime) -> anyhow::Result<()> {
    let text = fs::read_to_string(rt, "cases.txt")?;
    let mut name = "";
    // Counted in the loop, as each case is checked and may print.
    let mut count = 0u32;
    for line in text.as_str().lines() {
        let case = parse(line)?;
        if case.name != name {
            show_count(rt, name, count)?;
            name = case.name;
            count = 0;
        }
        check(rt, &case)?;
        count = count.saturating_add(1);
    }
    show_count(rt, name, count)
}

fn show_count(rt: &HostRuntime, name: &str, count: u32) -> anyhow::Result<()> {
    if count > 0 {
        println!(rt; "{name}: {count}")?;
    }
    Ok(())
}
