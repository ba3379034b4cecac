// Names that stand for other instructions.
ghost use Rattle.std.specs.Prelude.{◌≡◌, ◌≤◌, IfOk, IfErr, Some, None};
ghost use Rattle.isa.specs.declared.instr.AluOp.TheVariants.{Add};
ghost use Rattle.isa.specs.declared.instr.Instr.TheVariants.{AluImm};
ghost use Rattle.isa.specs.Decoding.{decodes};
ghost use Rattle.asm.specs.Constants.{Loads};
ghost use Rattle.asm.specs.declared.error.Problem.TheVariants.{UnknownInstruction};

use crate::error::{Fault, Problem};
use crate::instruction::{branch, operation, word};
use crate::names::{RA, ZERO, lookup};
use crate::operands::Located;
use crate::symbols::{lower, upper};
use crate::text::{Statement, is_number, number};
use isa::instr::{AluOp, Cond, Instr};
use isa::reg::Reg;
use std::str::FromStr;

#[derive(Clone, Copy)]
pub enum Pseudo {
    Nop,
    Ret,
    J,
    Jr,
    Call,
    // `rd, value`: always both halves for `la`.
    Li,
    La,
    // `rd, rs`: rs with a number; zero with rs; rs with zero.
    WithNumber(AluOp, u32),
    ZeroFirst(AluOp),
    ZeroLast(AluOp),
    // `rs, target`: rs against zero; zero against rs.
    BranchZero(Cond),
    ZeroBranch(Cond),
    // `rs1, rs2, target`: rs2 against rs1.
    Swapped(Cond),
}

// Constant, so that no memory is needed to look up a name.
static PSEUDOS: [(&str, Pseudo); 24] = [
    ("nop", Pseudo::Nop),
    ("ret", Pseudo::Ret),
    ("j", Pseudo::J),
    ("jr", Pseudo::Jr),
    ("call", Pseudo::Call),
    ("li", Pseudo::Li),
    ("la", Pseudo::La),
    ("mv", Pseudo::WithNumber(AluOp::Add, 0)),
    ("not", Pseudo::WithNumber(AluOp::Xor, u32::MAX)),
    ("seqz", Pseudo::WithNumber(AluOp::Sltu, 1)),
    ("neg", Pseudo::ZeroFirst(AluOp::Sub)),
    ("snez", Pseudo::ZeroFirst(AluOp::Sltu)),
    ("sgtz", Pseudo::ZeroFirst(AluOp::Slt)),
    ("sltz", Pseudo::ZeroLast(AluOp::Slt)),
    ("beqz", Pseudo::BranchZero(Cond::Eq)),
    ("bnez", Pseudo::BranchZero(Cond::Ne)),
    ("bltz", Pseudo::BranchZero(Cond::Lt)),
    ("bgez", Pseudo::BranchZero(Cond::Ge)),
    ("bgtz", Pseudo::ZeroBranch(Cond::Lt)),
    ("blez", Pseudo::ZeroBranch(Cond::Ge)),
    ("bgt", Pseudo::Swapped(Cond::Lt)),
    ("ble", Pseudo::Swapped(Cond::Ge)),
    ("bgtu", Pseudo::Swapped(Cond::Ltu)),
    ("bleu", Pseudo::Swapped(Cond::Geu)),
];

impl FromStr for Pseudo {
    type Err = Problem;

    ghost from_str_gives = { λ _ r. IfErr r (λ p. p ≡ UnknownInstruction) };

    fn from_str(name: &str) -> Result<Pseudo, Problem> {
        lookup(&PSEUDOS, name)
    }
}

impl Pseudo {
    // Whether it takes both halves of a constant: `la` does, and `li` where it takes two words.
    pub(crate) fn takes_both(self, s: Statement) -> Result<bool, Fault> {
        match self {
            Pseudo::La => Ok(true),
            Pseudo::Li => Ok(constant_size(s)? == 2),
            _ => Ok(false),
        }
    }
}

// One word or two, in order.
#[derive(Clone, Copy)]
pub struct Words {
    pub first: u32,
    pub second: Option<u32>,
}

impl Words {
    pub fn one(first: u32) -> Words
        ensures { (result.first ≡ first) × (result.second ≡ None) }
    {
        Words {
            first,
            second: None,
        }
    }
}

// How many words `li` takes: one if half of the value is enough, and it is a number, known before any label.
pub fn constant_size(s: Statement) -> Result<usize, Fault>
    ensures { IfOk result (λ n. (1 ≤ n) × (n ≤ 2)) }
{
    let text = s.operand(1)?;
    if !is_number(text) {
        return Ok(2);
    }
    let n = number(text).map_err(|problem| Fault::operand(1, problem))?;
    Ok(if lower(n) == 0 || lower(n) == n { 1 } else { 2 })
}

// Loads a constant in one word, or in two if `split`.
fn load(rd: Reg, value: u32, split: bool) -> Result<Words, Fault>
    ensures { IfOk result (λ w. Loads rd value w.first w.second) }
{
    let imm = upper(value) << 12;
    if split {
        return Ok(Words {
            first: word(Instr::Lui { rd, imm }, 1)?,
            second: Some(add_imm(rd, rd, lower(value))?),
        });
    }
    if imm == value && value != 0 {
        Ok(Words::one(word(Instr::Lui { rd, imm }, 1)?))
    } else {
        Ok(Words::one(add_imm(rd, ZERO, value)?))
    }
}

fn add_imm(rd: Reg, rs1: Reg, imm: u32) -> Result<u32, Fault>
    ensures { IfOk result (λ w. decodes w ≡ Some (AluImm Add rd rs1 imm)) }
{
    let op = AluOp::Add;
    word(Instr::AluImm { op, rd, rs1, imm }, 1)
}

impl Located<'_, '_> {
    // The words of a statement whose name is the pseudo-instruction. A match, as each kind holds what its words need.
    pub fn pseudo_words(self, p: Pseudo) -> Result<Words, Fault> {
        let s = self.statement;
        let first = match p {
            Pseudo::Nop => nop(s)?,
            Pseudo::Ret => ret(s)?,
            Pseudo::J => self.jump(ZERO)?,
            Pseudo::Call => self.jump(RA)?,
            Pseudo::Jr => self.jump_register(ZERO)?,
            Pseudo::Li | Pseudo::La => return self.constant(p.takes_both(s)?),
            Pseudo::WithNumber(op, imm) => {
                let [rd, rs1] = s.registers::<2>(2)?;
                word(Instr::AluImm { op, rd, rs1, imm }, 0)?
            }
            Pseudo::ZeroFirst(op) => {
                let [rd, rs] = s.registers::<2>(2)?;
                operation(op, rd, ZERO, rs)?
            }
            Pseudo::ZeroLast(op) => {
                let [rd, rs] = s.registers::<2>(2)?;
                operation(op, rd, rs, ZERO)?
            }
            Pseudo::BranchZero(cond) => {
                let ([rs], offset) = self.jump_operands::<1>()?;
                branch(cond, rs, ZERO, offset, 1)?
            }
            Pseudo::ZeroBranch(cond) => {
                let ([rs], offset) = self.jump_operands::<1>()?;
                branch(cond, ZERO, rs, offset, 1)?
            }
            Pseudo::Swapped(cond) => {
                let (rs1, rs2, offset) = self.branch_operands()?;
                branch(cond, rs2, rs1, offset, 2)?
            }
        };
        Ok(Words::one(first))
    }

    // The words of `li` and `la`.
    fn constant(self, split: bool) -> Result<Words, Fault> {
        let [rd] = self.statement.registers::<1>(2)?;
        load(rd, self.value(1)?, split)
    }
}

fn nop(s: Statement) -> Result<u32, Fault> {
    s.expect(0)?;
    add_imm(ZERO, ZERO, 0)
}

fn ret(s: Statement) -> Result<u32, Fault> {
    s.expect(0)?;
    let offset = 0;
    word(
        Instr::Jalr {
            rd: ZERO,
            rs1: RA,
            offset,
        },
        0,
    )
}
