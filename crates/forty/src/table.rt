// A line for each program, and how many are right.
use crate::expected::read_expected;
use crate::names::NAMES;
use crate::row::Row;
use std::fs;
use testbench::failure::Failure;
use testbench::files::{Format, read_program};

const HEAD: &str = "                                          clocks        per instruction
program              instructions      0      1      7      0      1      7";

pub fn show(rt: &HostRuntime) -> Result<(), Failure> {
    println!(rt; "{HEAD}")?;
    let rows = NAMES
        .iter()
        .map(|name| show_program(rt, name))
        .try_collect::<Vec<Row>>(rt.alloc())?;
    let right = rows.iter().filter(|row| row.right()).count();
    let all = NAMES.len();
    println!(rt;
        "{right} of {all} programs have the results that they state, and agree with the manual"
    )?;
    Ok(())
}

fn show_program(rt: &HostRuntime, name: &str) -> Result<Row, Failure> {
    let heap = rt.alloc();
    let path = format!(in heap; "{name}.s")?;
    let program = read_program(rt, path.as_str(), Format::Assembly)?;
    let text = fs::read_to_string(rt, path.as_str())?;
    let expected = read_expected(heap, text.as_str())?;
    let row = Row::of(heap, &program, &expected)?;
    let line = row.line(heap, name)?;
    println!(rt; "{line}")?;
    Ok(row)
}
