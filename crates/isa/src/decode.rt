// From a word to an instruction.
ghost use Rattle.std.specs.Prelude.{◌≡◌, ℕ, ◌+◌, ◌<◌};
ghost use Rattle.isa.specs.Manual.{f_3};
ghost use Rattle.isa.specs.Decoding.{cond_of, alu_of, branch_of, alu_imm_of, alu_reg_of, decoded, decodes};
ghost use Rattle.isa.specs.Executing.{DecodesTo};

use crate::fields::{funct3, funct7, imm_b, imm_i, imm_j, imm_s, imm_u, opcode, rd, rs1, rs2};
use crate::instr::{AluOp, Cond, Instr, MulOp};

// By field 3; `other` is the second form of addition and of the shift to the right. It takes two fields and never fails, so
// it is no conversion of a number.
fn alu_op(f3: u32, other: bool) -> AluOp
    ensures { result ≡ alu_of f3 other }
{
    match f3 {
        0 => { if other { AluOp::Sub } else { AluOp::Add } }
        1 => AluOp::Sll,
        2 => AluOp::Slt,
        3 => AluOp::Sltu,
        4 => AluOp::Xor,
        5 => { if other { AluOp::Sra } else { AluOp::Srl } }
        6 => AluOp::Or,
        _ => AluOp::And,
    }
}

// The instruction in a word, or none: at every state it does what the manual does with the word.
pub fn decode(word: u32) -> Option<Instr>
    ensures value { result ≡ decodes word }
    ensures manual { DecodesTo word result }
{
    decode_by_opcode(word)
}

fn decode_by_opcode(word: u32) -> Option<Instr>
    ensures { result ≡ decoded word }
{
    let kind = funct3(word);
    match opcode(word) {
        0x37 => Some(Instr::Lui {
            rd: rd(word),
            imm: imm_u(word),
        }),
        0x17 => Some(Instr::Auipc {
            rd: rd(word),
            imm: imm_u(word),
        }),
        0x6f => Some(Instr::Jal {
            rd: rd(word),
            offset: imm_j(word),
        }),
        0x67 if kind == 0 => Some(Instr::Jalr {
            rd: rd(word),
            rs1: rs1(word),
            offset: imm_i(word),
        }),
        0x63 => decode_branch(word),
        0x03 if kind == 2 => Some(Instr::Load {
            rd: rd(word),
            rs1: rs1(word),
            offset: imm_i(word),
        }),
        0x23 if kind == 2 => Some(Instr::Store {
            rs1: rs1(word),
            rs2: rs2(word),
            offset: imm_s(word),
        }),
        0x13 => decode_alu_imm(word),
        0x33 => decode_alu_reg(word),
        0x73 if word == 0x73 => Some(Instr::Ecall),
        _ => None,
    }
}

fn decode_branch(word: u32) -> Option<Instr>
    ensures { result ≡ branch_of word (cond_of (f_3 word)) }
{
    let cond = Cond::try_from(funct3(word)).ok()?;
    Some(Instr::Branch {
        cond,
        rs1: rs1(word),
        rs2: rs2(word),
        offset: imm_b(word),
    })
}

fn decode_alu_imm(word: u32) -> Option<Instr>
    ensures { result ≡ alu_imm_of word }
{
    let f3 = funct3(word);
    let f7 = funct7(word);
    let allowed = match f3 {
        1 => f7 == 0,
        5 => f7 == 0 || f7 == 32,
        _ => true,
    };
    if !allowed {
        return None;
    }
    let op = alu_op(f3, f3 == 5 && f7 == 32);
    Some(Instr::AluImm {
        op,
        rd: rd(word),
        rs1: rs1(word),
        imm: imm_i(word),
    })
}

fn decode_alu_reg(word: u32) -> Option<Instr>
    ensures { result ≡ alu_reg_of word }
{
    let f3 = funct3(word);
    match funct7(word) {
        1 => {
            let op = MulOp::try_from(f3).ok()?;
            Some(Instr::MulDiv {
                op,
                rd: rd(word),
                rs1: rs1(word),
                rs2: rs2(word),
            })
        }
        0 => Some(Instr::AluReg {
            op: alu_op(f3, false),
            rd: rd(word),
            rs1: rs1(word),
            rs2: rs2(word),
        }),
        32 if f3 == 0 || f3 == 5 => {
            Some(Instr::AluReg {
                op: alu_op(f3, true),
                rd: rd(word),
                rs1: rs1(word),
                rs2: rs2(word),
            })
        }
        _ => None,
    }
}
