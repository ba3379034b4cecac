// From an instruction to its word.
#![tactic(auto)]

ghost use Rattle.std.specs.Prelude.{◌≡◌, IfSome, Some};
ghost use Rattle.isa.specs.Decoding.{decodes};

use isa::decode::decode;
use isa::instr::{AluOp, Instr};
use isa::reg::Reg;

// The word that decodes to the instruction, or none if its immediate or offset doesn't fit.
pub fn encode(instr: Instr) -> Option<u32>
    ensures { IfSome result (λ w. decodes w ≡ Some instr) }
{
    let word = build(instr);
    let decoded = decode(word)?;
    if decoded == instr { Some(word) } else { None }
}

// The word, if the immediate or offset fits.
fn build(instr: Instr) -> u32 {
    match instr {
        Instr::Lui { rd, imm } => imm | at(rd, 7) | 0x37,
        Instr::Auipc { rd, imm } => imm | at(rd, 7) | 0x17,
        Instr::Jal { rd, offset } => jump_offset(offset) | at(rd, 7) | 0x6f,
        Instr::Jalr { rd, rs1, offset } => offset << 20 | at(rs1, 15) | at(rd, 7) | 0x67,
        Instr::Branch {
            cond,
            rs1,
            rs2,
            offset,
        } => { branch_offset(offset) | at(rs2, 20) | at(rs1, 15) | u32::from(cond) << 12 | 0x63 }
        Instr::Load { rd, rs1, offset } => {
            offset << 20 | at(rs1, 15) | 2 << 12 | at(rd, 7) | 0x03
        }
        Instr::Store { rs1, rs2, offset } => {
            store_offset(offset) | at(rs2, 20) | at(rs1, 15) | 2 << 12 | 0x23
        }
        Instr::AluImm { op, rd, rs1, imm } => {
            imm << 20 | at(rs1, 15) | op.funct3() << 12 | at(rd, 7) | 0x13
        }
        Instr::AluReg { op, rd, rs1, rs2 } => {
            funct7(op) << 25 | at(rs2, 20) | at(rs1, 15) | op.funct3() << 12 | at(rd, 7) | 0x33
        }
        Instr::MulDiv { op, rd, rs1, rs2 } => {
            1 << 25 | at(rs2, 20) | at(rs1, 15) | u32::from(op) << 12 | at(rd, 7) | 0x33
        }
        Instr::Ecall => 0x73,
    }
}

// A register's number, moved to its field.
fn at(reg: Reg, low: u32) -> u32 {
    (reg.number as u32).wrapping_shl(low)
}

fn store_offset(x: u32) -> u32 {
    (x >> 5) << 25 | (x & 0x1f) << 7
}

// Apart from jump_offset: each format scatters its bits in an order of its own, which a table of shifts makes no plainer.
fn branch_offset(x: u32) -> u32 {
    (x >> 31) << 31 | ((x >> 5) & 0x3f) << 25 | ((x >> 1) & 0xf) << 8 | ((x >> 11) & 1) << 7
}

fn jump_offset(x: u32) -> u32 {
    (x >> 31) << 31 | ((x >> 1) & 0x3ff) << 21 | ((x >> 11) & 1) << 20 | ((x >> 12) & 0xff) << 12
}

// The second form of addition and of the shift to the right has bit 30 set.
fn funct7(op: AluOp) -> u32 {
    if op.is_other() { 32 } else { 0 }
}
