// Programs from files.
use crate::failure::Failure;
use asm::assemble::assemble;
use asm::hex::read_hex;
use asm::program::Program;
use std::alloc::Global;
use std::{fmt, fs};

// The text of a program.
#[derive(Clone, Copy)]
pub enum Format {
    Assembly,
    Hex,
}

impl Format {
    // By a file's name.
    pub fn of(path: &str) -> Format {
        if [".hex", ".vh", ".mem"]
            .iter()
            .any(|end| path.ends_with(*end))
        {
            Format::Hex
        } else {
            Format::Assembly
        }
    }
}

pub fn read_program(rt: &HostRuntime, path: &str, format: Format) -> Result<Program, Failure> {
    let heap = rt.alloc();
    let text = fs::read_to_string(rt, path).try_map_err(|e| at(heap, path, &e))?;
    let program = match format {
        Format::Assembly => assemble(heap, &text),
        Format::Hex => read_hex(heap, &text),
    };
    program.try_map_err(|e| at(heap, path, &e))
}

// What is wrong with a file.
fn at(heap: Global, path: &str, e: &impl fmt::Display) -> Result<Failure, Failure> {
    Ok(Failure::Input(format!(in heap; "{path}: {e}")?))
}
