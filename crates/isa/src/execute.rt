// What an instruction does, for given operands.
ghost use Rattle.std.specs.Prelude.{◌≡◌, ℕ, ◌+◌, ◌*◌, ◌/◌, ◌<◌};
ghost use Rattle.isa.specs.Words.{add};
ghost use Rattle.isa.specs.Executing.{aligned, outcome, executed, work, how, StopsBy, WorksTo};

use crate::alu::{alu, muldiv, taken};
use crate::decode::decode;
use crate::instr::Instr;
use crate::reg::Reg;
use crate::regs::Regs;

// Why it stops: ecall, no instruction, an address that is not a multiple of 4.
#[derive(Clone, Copy, Debug, PartialEq, Eq)]
pub enum Stop {
    EnvCall,
    Illegal,
    Misaligned,
}

// As the ports show it.
impl From<Stop> for u32 {
    ghost from_gives = { λ stop code. code ≡ how stop };

    fn from(stop: Stop) -> u32 {
        match stop {
            Stop::EnvCall => 0,
            Stop::Illegal => 1,
            Stop::Misaligned => 2,
        }
    }
}

// A code that the ports never show.
#[derive(Clone, Copy, Debug, PartialEq, Eq)]
pub struct UnknownStop(pub u32);

impl TryFrom<u32> for Stop {
    type Error = UnknownStop;

    ghost try_from_gives = { StopsBy };

    fn try_from(code: u32) -> Result<Stop, UnknownStop> {
        match code {
            0 => Ok(Stop::EnvCall),
            1 => Ok(Stop::Illegal),
            2 => Ok(Stop::Misaligned),
            _ => Err(UnknownStop(code)),
        }
    }
}

// What an instruction does: writes a register and goes on at `next`; goes on at `next`; loads; stores; stops.
#[derive(Clone, Copy, PartialEq, Eq)]
pub enum Outcome {
    Write { rd: Reg, value: u32, next: u32 },
    Jump { next: u32 },
    Load { rd: Reg, address: u32 },
    Store { address: u32, value: u32 },
    Halt(Stop),
}

// An address without its lowest bit.
fn even(a: u32) -> u32
    ensures { result ≡ a / 2 * 2 }
{
    a & !1
}

// What an instruction at `pc` does at the values of its operands.
pub fn execute(instr: Instr, pc: u32, x: u32, y: u32) -> Outcome
    ensures { result ≡ executed instr pc x y }
{
    execute_kind(instr, pc, x, y)
}

// An address that is no word's stops it.
fn aligned(address: u32, outcome: Outcome) -> Outcome
    ensures { result ≡ aligned address outcome }
{
    if address % 4 == 0 {
        outcome
    } else {
        Outcome::Halt(Stop::Misaligned)
    }
}

// Writes a register and goes on behind this instruction.
fn set(rd: Reg, value: u32, pc: u32) -> Outcome
    ensures { result ≡ Outcome.Write rd value (add pc 4) }
{
    let next = pc.wrapping_add(4);
    Outcome::Write { rd, value, next }
}

// Goes to `next`, with the address behind this instruction in `rd`.
fn link(rd: Reg, pc: u32, next: u32) -> Outcome
    ensures { result ≡ aligned next (Outcome.Write rd (add pc 4) next) }
{
    let value = pc.wrapping_add(4);
    aligned(next, Outcome::Write { rd, value, next })
}

fn branch(next: u32) -> Outcome
    ensures { result ≡ aligned next (Outcome.Jump next) }
{
    aligned(next, Outcome::Jump { next })
}

fn execute_kind(instr: Instr, pc: u32, x: u32, y: u32) -> Outcome
    ensures { result ≡ outcome instr pc x y }
{
    match instr {
        Instr::Lui { rd, imm } => set(rd, imm, pc),
        Instr::Auipc { rd, imm } => set(rd, pc.wrapping_add(imm), pc),
        Instr::Jal { rd, offset } => link(rd, pc, pc.wrapping_add(offset)),
        Instr::Jalr { rd, offset, .. } => link(rd, pc, even(x.wrapping_add(offset))),
        Instr::Branch { cond, offset, .. } => {
            let step = if taken(cond, x, y) { offset } else { 4 };
            branch(pc.wrapping_add(step))
        }
        Instr::Load { rd, offset, .. } => {
            let address = x.wrapping_add(offset);
            aligned(address, Outcome::Load { rd, address })
        }
        Instr::Store { offset, .. } => {
            let address = x.wrapping_add(offset);
            aligned(address, Outcome::Store { address, value: y })
        }
        Instr::AluImm { op, rd, imm, .. } => set(rd, alu(op, x, imm), pc),
        Instr::AluReg { op, rd, .. } => set(rd, alu(op, x, y), pc),
        Instr::MulDiv { op, rd, .. } => set(rd, muldiv(op, x, y), pc),
        Instr::Ecall => Outcome::Halt(Stop::EnvCall),
    }
}

// What the word of code at `pc` does with these registers: what the manual does, whatever its memory.
pub fn perform(regs: &Regs, pc: u32, word: u32) -> Outcome
    ensures value { result ≡ work regs.now.values pc word }
    ensures manual { WorksTo regs.now.values pc word result }
{
    if pc % 4 != 0 {
        return Outcome::Halt(Stop::Misaligned);
    }
    let Some(instr) = decode(word) else {
        return Outcome::Halt(Stop::Illegal);
    };
    let x = regs.read(instr.rs1());
    let y = regs.read(instr.rs2());
    execute(instr, pc, x, y)
}
