// Runs the assembler, the disassembler and the hex reader on the files of data/, and prints what they give.
#![tactic(auto)]

use anyhow::anyhow;
use asm::assemble::assemble;
use asm::error::AsmError;
use asm::hex::read_hex;
use asm::listing::Listing;
use asm::program::{Placed, Program};
use encoding::encode;
use isa::decode::decode;
use std::alloc::Global;
use std::fs;

// The assembler's words against those of another assembler.
fn compare(rt: &HostRuntime) -> anyhow::Result<()> {
    let heap = rt.alloc();
    let source = fs::read_to_string(rt, "all.s")?;
    let expected = fs::read_to_string(rt, "all.hex")?;
    let ours = assemble(heap, source.as_str()).map_err(|_| anyhow!("all.s is refused"))?;
    let theirs = read_hex(heap, expected.as_str()).map_err(|_| anyhow!("all.hex is refused"))?;
    let (ours, theirs) = (ours.code.as_slice(), theirs.code.as_slice());
    for (a, b) in ours.iter().zip(theirs).filter(|(a, b)| a != b) {
        println!(rt;
            "{:#x}: {:#x}, but {:#x}: {:#x}",
            a.address, a.word, b.address, b.word
        )?;
    }
    let same = ours.iter().zip(theirs).filter(|(a, b)| a == b).count();
    println!(rt; "{same} of {} and {} words agree", ours.len(), theirs.len())?;
    Ok(())
}

// Each word is listed, and what is listed gives the word again.
fn round_trip(rt: &HostRuntime, code: &[Placed]) -> anyhow::Result<()> {
    // Counted in a loop, as memory may run out at each word: `filter` can't pass that on.
    let mut same = 0u64;
    for placed in code {
        if again(rt.alloc(), *placed)? {
            same = same.saturating_add(1);
        } else {
            println!(rt;
                "{:#x} at {:#x} is another word",
                placed.word, placed.address
            )?;
        }
    }
    println!(rt; "{same} words come back from their listing")?;
    Ok(())
}

fn again(heap: Global, placed: Placed) -> anyhow::Result<bool> {
    let listing = Listing::from(placed);
    let source = format!(in heap; ".org {:#x}\n{listing}", placed.address)?;
    let program = assemble(heap, source.as_str());
    Ok(program.is_ok_and(|program| program.code.as_slice() == [placed].as_slice()))
}

const OPCODES: [u32; 9] = [0x37, 0x17, 0x6f, 0x67, 0x63, 0x03, 0x23, 0x13, 0x33];

// Words of a generator: what decodes is encoded to the same word, and every hundredth comes back from its listing.
fn sweep(rt: &HostRuntime) -> anyhow::Result<()> {
    // Counted in a loop for the same reason.
    let mut seed = 1u32;
    let mut instructions = 0u32;
    let mut wrong = 0u32;
    for (i, opcode) in (0..1_000_000u32).zip(OPCODES.iter().cycle()) {
        seed = seed.wrapping_mul(1_664_525).wrapping_add(1_013_904_223);
        let word = (seed ^ seed >> 15) & !0x7f | *opcode;
        let address = seed.rotate_left(16) & !3;
        if let Some(instr) = decode(word) {
            instructions = instructions.saturating_add(1);
            let listed = i % 100 != 0 || again(rt.alloc(), Placed { address, word })?;
            if !listed || encode(instr) != Some(word) {
                wrong = wrong.saturating_add(1);
            }
        }
    }
    println!(rt; "{instructions} instructions, {wrong} of them wrong")?;
    Ok(())
}

fn show_program(rt: &HostRuntime, program: &Program) -> anyhow::Result<()> {
    println!(rt; "start {:#x}", program.start)?;
    for p in program.code.iter() {
        let listing = Listing::from(*p);
        println!(rt; "{:#010x}: {:#010x} {listing}", p.address, p.word)?;
    }
    for p in program.data.iter() {
        println!(rt; "data {:#x}: {:#x}", p.address, p.word)?;
    }
    println!(rt; "answers {:?}", program.answers)?;
    round_trip(rt, program.code.as_slice())
}

fn show_source(rt: &HostRuntime, name: &str) -> anyhow::Result<()> {
    println!(rt; "{name}")?;
    let text = fs::read_to_string(rt, name)?;
    match assemble(rt.alloc(), text.as_str()) {
        Ok(program) => show_program(rt, &program),
        Err(e) => {
            println!(rt; "{e}")?;
            Ok(())
        }
    }
}

// The words, as numbers.
fn show_words(rt: &HostRuntime, name: &str) -> anyhow::Result<()> {
    let text = fs::read_to_string(rt, name)?;
    let program = assemble(rt.alloc(), text.as_str()).map_err(|_| anyhow!("it is refused"))?;
    for p in program.code.iter() {
        print!(rt; "{} ", p.word)?;
    }
    println!(rt; "")?;
    Ok(())
}

// What a reader of programs says of each case of a file.
fn show_errors<F: Fn(Global, &str) -> Result<Program, AsmError>>(
    rt: &HostRuntime,
    name: &str,
    read: F,
) -> anyhow::Result<()>
    requires { F.IsAlwaysCallable read }
{
    let text = fs::read_to_string(rt, name)?;
    for case in text.as_str().split("---\n") {
        match read(rt.alloc(), case) {
            Ok(program) => println!(rt; "{} words", program.code.len())?,
            Err(e) => println!(rt; "{e}")?,
        }
    }
    Ok(())
}

fn run(rt: &HostRuntime) -> anyhow::Result<()> {
    compare(rt)?;
    sweep(rt)?;
    show_words(rt, "worked.s")?;
    show_source(rt, "worked.s")?;
    show_source(rt, "all.s")?;
    show_source(rt, "sections.s")?;
    show_source(rt, "wrap.s")?;
    show_errors(rt, "errors.txt", assemble)?;
    show_errors(rt, "bad_hex.txt", read_hex)
}

fn main(rt: HostRuntime) -> anyhow::Result<()> {
    run(&rt)
}
