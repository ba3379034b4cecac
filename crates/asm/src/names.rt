// Names of registers and instructions.
ghost use Rattle.std.specs.Prelude.{◌≡◌, [], slice_index_or, IfErr};
ghost use Rattle.asm.specs.Names.{names};
ghost use Rattle.asm.specs.declared.error.Problem.TheVariants.{UnknownInstruction};

use crate::error::Problem;
use isa::instr::{AluOp, Cond, Instr, MulOp};
use isa::reg::Reg;
use std::str::FromStr;

// The register that is always 0, and the one that holds the return address.
pub const ZERO: Reg = Reg { number: 0 };

pub const RA: Reg = Reg { number: 1 };

// Constant, so that no memory is needed to look up a name.
static REGISTERS: [&str; 32] = [
    "zero", "ra", "sp", "gp", "tp", "t0", "t1", "t2", "s0", "s1", "a0", "a1", "a2", "a3", "a4",
    "a5", "a6", "a7", "s2", "s3", "s4", "s5", "s6", "s7", "s8", "s9", "s10", "s11", "t3", "t4",
    "t5", "t6",
];

// The name that the calling convention gives a register.
pub fn register_name(reg: Reg) -> &'static str
    ensures { result.now ≡ slice_index_or names reg.number [] }
{
    REGISTERS[reg.number as usize]
}

// The register of a name: `x5`, `t0`, `fp`.
pub fn register(name: &str) -> Option<Reg> {
    if name == "fp" {
        return Some(Reg { number: 8 });
    }
    match REGISTERS.iter().position(|known| *known == name) {
        Some(i) => Some(Reg { number: i as u8 }),
        None => numbered_register(name),
    }
}

// `x0` to `x31`.
fn numbered_register(name: &str) -> Option<Reg> {
    let digits = name.strip_prefix('x')?;
    let number = digits.parse::<u8>().ok()?;
    let width = if number < 10 { 1 } else { 2 };
    if number < 32 && digits.len() == width {
        Some(Reg { number })
    } else {
        None
    }
}

// What an instruction is called, without its operands.
#[derive(Clone, Copy, PartialEq, Eq)]
pub enum Mnemonic {
    Lui,
    Auipc,
    Jal,
    Jalr,
    Branch(Cond),
    Load,
    Store,
    AluImm(AluOp),
    AluReg(AluOp),
    MulDiv(MulOp),
    Ecall,
}

// Constant, as the registers' names.
static MNEMONICS: [(&str, Mnemonic); 36] = [
    ("lui", Mnemonic::Lui),
    ("auipc", Mnemonic::Auipc),
    ("jal", Mnemonic::Jal),
    ("jalr", Mnemonic::Jalr),
    ("beq", Mnemonic::Branch(Cond::Eq)),
    ("bne", Mnemonic::Branch(Cond::Ne)),
    ("blt", Mnemonic::Branch(Cond::Lt)),
    ("bge", Mnemonic::Branch(Cond::Ge)),
    ("bltu", Mnemonic::Branch(Cond::Ltu)),
    ("bgeu", Mnemonic::Branch(Cond::Geu)),
    ("lw", Mnemonic::Load),
    ("sw", Mnemonic::Store),
    ("addi", Mnemonic::AluImm(AluOp::Add)),
    ("slti", Mnemonic::AluImm(AluOp::Slt)),
    ("sltiu", Mnemonic::AluImm(AluOp::Sltu)),
    ("xori", Mnemonic::AluImm(AluOp::Xor)),
    ("ori", Mnemonic::AluImm(AluOp::Or)),
    ("andi", Mnemonic::AluImm(AluOp::And)),
    ("slli", Mnemonic::AluImm(AluOp::Sll)),
    ("srli", Mnemonic::AluImm(AluOp::Srl)),
    ("srai", Mnemonic::AluImm(AluOp::Sra)),
    ("add", Mnemonic::AluReg(AluOp::Add)),
    ("sub", Mnemonic::AluReg(AluOp::Sub)),
    ("sll", Mnemonic::AluReg(AluOp::Sll)),
    ("slt", Mnemonic::AluReg(AluOp::Slt)),
    ("sltu", Mnemonic::AluReg(AluOp::Sltu)),
    ("xor", Mnemonic::AluReg(AluOp::Xor)),
    ("srl", Mnemonic::AluReg(AluOp::Srl)),
    ("sra", Mnemonic::AluReg(AluOp::Sra)),
    ("or", Mnemonic::AluReg(AluOp::Or)),
    ("and", Mnemonic::AluReg(AluOp::And)),
    ("mul", Mnemonic::MulDiv(MulOp::Mul)),
    ("mulhu", Mnemonic::MulDiv(MulOp::Mulhu)),
    ("divu", Mnemonic::MulDiv(MulOp::Divu)),
    ("remu", Mnemonic::MulDiv(MulOp::Remu)),
    ("ecall", Mnemonic::Ecall),
];

// What a name means, by a table.
pub(crate) fn lookup<T: Copy>(table: &[(&str, T)], name: &str) -> Result<T, Problem>
    ensures { IfErr result (λ p. p ≡ UnknownInstruction) }
{
    table
        .iter()
        .find(|(known, _)| *known == name)
        .map(|(_, meaning)| *meaning)
        .ok_or(Problem::UnknownInstruction)
}

impl FromStr for Mnemonic {
    type Err = Problem;

    ghost from_str_gives = { λ _ r. IfErr r (λ p. p ≡ UnknownInstruction) };

    fn from_str(name: &str) -> Result<Mnemonic, Problem> {
        lookup(&MNEMONICS, name)
    }
}

impl From<Instr> for Mnemonic {
    fn from(instr: Instr) -> Mnemonic {
        match instr {
            Instr::Lui { .. } => Mnemonic::Lui,
            Instr::Auipc { .. } => Mnemonic::Auipc,
            Instr::Jal { .. } => Mnemonic::Jal,
            Instr::Jalr { .. } => Mnemonic::Jalr,
            Instr::Branch { cond, .. } => Mnemonic::Branch(cond),
            Instr::Load { .. } => Mnemonic::Load,
            Instr::Store { .. } => Mnemonic::Store,
            Instr::AluImm { op, .. } => Mnemonic::AluImm(op),
            Instr::AluReg { op, .. } => Mnemonic::AluReg(op),
            Instr::MulDiv { op, .. } => Mnemonic::MulDiv(op),
            Instr::Ecall => Mnemonic::Ecall,
        }
    }
}

impl Mnemonic {
    // None for what is no instruction: an immediate's subtraction.
    pub fn name(self) -> Option<&'static str> {
        MNEMONICS
            .iter()
            .find(|(_, meaning)| *meaning == self)
            .map(|(name, _)| *name)
    }
}
