// From a word to text.
ghost use Rattle.std.specs.Prelude.{◌≡◌};

use crate::names::{Mnemonic, register_name};
use crate::program::Placed;
use isa::decode::decode;
use isa::instr::{AluOp, Instr};
use std::fmt;

// A word of code at an address, shown as the assembler reads it: `addi a0, a0, -1`. Targets are addresses; a word that is no instruction is a `.word`.
#[derive(Clone, Copy)]
pub struct Listing {
    pub pc: u32,
    pub word: u32,
}

impl From<Placed> for Listing {
    ghost from_gives = { λ p l. (l.pc ≡ p.address) × (l.word ≡ p.word) };

    fn from(placed: Placed) -> Listing {
        Listing {
            pc: placed.address,
            word: placed.word,
        }
    }
}

impl fmt::Display for Listing {
    fn fmt<W: fmt::Write>(&self, f: &mut fmt::Formatter<W>) -> fmt::Result {
        let word = self.word;
        if let Some(instr) = decode(word)
            && let Some(name) = Mnemonic::from(instr).name()
        {
            f.write_str(name)?;
            return write_operands(f, instr, self.pc);
        }
        write!(f, ".word {word:#010x}")
    }
}

fn write_operands<W: fmt::Write>(f: &mut fmt::Formatter<W>, instr: Instr, pc: u32) -> fmt::Result {
    let rs1 = register_name(instr.rs1());
    let rs2 = register_name(instr.rs2());
    match instr {
        Instr::Lui { rd, imm } | Instr::Auipc { rd, imm } => {
            write!(f, " {}, {:#x}", register_name(rd), imm >> 12)
        }
        Instr::Jal { rd, offset } => {
            write!(f, " {}, {:#x}", register_name(rd), pc.wrapping_add(offset))
        }
        Instr::Branch { offset, .. } => {
            write!(f, " {rs1}, {rs2}, {:#x}", pc.wrapping_add(offset))
        }
        Instr::Jalr { rd, offset, .. } | Instr::Load { rd, offset, .. } => {
            write!(f, " {}, {}({rs1})", register_name(rd), offset.cast_signed())
        }
        Instr::Store { offset, .. } => write!(f, " {rs2}, {}({rs1})", offset.cast_signed()),
        Instr::AluImm { op, rd, imm, .. } => {
            write!(f, " {}, {rs1}, {}", register_name(rd), operand(op, imm))
        }
        Instr::AluReg { rd, .. } | Instr::MulDiv { rd, .. } => {
            write!(f, " {}, {rs1}, {rs2}", register_name(rd))
        }
        Instr::Ecall => Ok(()),
    }
}

// The number that is written for an immediate: of a shift its low five bits.
fn operand(op: AluOp, imm: u32) -> i32 {
    match op {
        AluOp::Sll | AluOp::Srl | AluOp::Sra => (imm & 31).cast_signed(),
        _ => imm.cast_signed(),
    }
}
