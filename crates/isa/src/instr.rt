// The instructions, taken apart. An immediate or offset is the word that is added: sign-extended to 32 bits.
ghost use Rattle.std.specs.Prelude.{◌≡◌};
ghost use Rattle.isa.specs.Executing.{source1, source2};
ghost use Rattle.isa.specs.Ops.{alu_f3, alu_other, cond_f3, mul_f3, IsCond, IsMul};

use crate::reg::Reg;

// Register-register operations, and those with an immediate.
#[derive(Clone, Copy, PartialEq, Eq)]
pub enum AluOp {
    Add,
    Sub,
    Sll,
    Slt,
    Sltu,
    Xor,
    Srl,
    Sra,
    Or,
    And,
}

// The operations of the M extension that the core has: low product, high product, quotient, remainder, all unsigned.
#[derive(Clone, Copy, PartialEq, Eq)]
pub enum MulOp {
    Mul,
    Mulhu,
    Divu,
    Remu,
}

// When a branch is taken.
#[derive(Clone, Copy, PartialEq, Eq)]
pub enum Cond {
    Eq,
    Ne,
    Lt,
    Ge,
    Ltu,
    Geu,
}

// A field 3 that no such instruction has.
#[derive(Clone, Copy, Debug, PartialEq, Eq)]
pub struct UnknownFunct3(pub u32);

impl TryFrom<u32> for Cond {
    type Error = UnknownFunct3;

    ghost try_from_gives = { IsCond };

    fn try_from(funct3: u32) -> Result<Cond, UnknownFunct3> {
        match funct3 {
            0 => Ok(Cond::Eq),
            1 => Ok(Cond::Ne),
            4 => Ok(Cond::Lt),
            5 => Ok(Cond::Ge),
            6 => Ok(Cond::Ltu),
            7 => Ok(Cond::Geu),
            _ => Err(UnknownFunct3(funct3)),
        }
    }
}

impl From<Cond> for u32 {
    ghost from_gives = { λ cond funct3. funct3 ≡ cond_f3 cond };

    fn from(cond: Cond) -> u32 {
        match cond {
            Cond::Eq => 0,
            Cond::Ne => 1,
            Cond::Lt => 4,
            Cond::Ge => 5,
            Cond::Ltu => 6,
            Cond::Geu => 7,
        }
    }
}

impl TryFrom<u32> for MulOp {
    type Error = UnknownFunct3;

    ghost try_from_gives = { IsMul };

    fn try_from(funct3: u32) -> Result<MulOp, UnknownFunct3> {
        match funct3 {
            0 => Ok(MulOp::Mul),
            3 => Ok(MulOp::Mulhu),
            5 => Ok(MulOp::Divu),
            7 => Ok(MulOp::Remu),
            _ => Err(UnknownFunct3(funct3)),
        }
    }
}

impl From<MulOp> for u32 {
    ghost from_gives = { λ op funct3. funct3 ≡ mul_f3 op };

    fn from(op: MulOp) -> u32 {
        match op {
            MulOp::Mul => 0,
            MulOp::Mulhu => 3,
            MulOp::Divu => 5,
            MulOp::Remu => 7,
        }
    }
}

impl AluOp {
    // Field 3. Two operations share one: `is_other` tells them apart.
    pub fn funct3(self) -> u32
        ensures { result ≡ alu_f3 self }
    {
        match self {
            AluOp::Add | AluOp::Sub => 0,
            AluOp::Sll => 1,
            AluOp::Slt => 2,
            AluOp::Sltu => 3,
            AluOp::Xor => 4,
            AluOp::Srl | AluOp::Sra => 5,
            AluOp::Or => 6,
            AluOp::And => 7,
        }
    }

    // Subtraction, and the shift to the right that keeps the sign.
    pub fn is_other(self) -> bool
        ensures { result ≡ alu_other self }
    {
        matches!(self, AluOp::Sub | AluOp::Sra)
    }
}

#[derive(Clone, Copy, PartialEq, Eq)]
pub enum Instr {
    Lui {
        rd: Reg,
        imm: u32,
    },
    Auipc {
        rd: Reg,
        imm: u32,
    },
    Jal {
        rd: Reg,
        offset: u32,
    },
    Jalr {
        rd: Reg,
        rs1: Reg,
        offset: u32,
    },
    Branch {
        cond: Cond,
        rs1: Reg,
        rs2: Reg,
        offset: u32,
    },
    Load {
        rd: Reg,
        rs1: Reg,
        offset: u32,
    },
    Store {
        rs1: Reg,
        rs2: Reg,
        offset: u32,
    },
    AluImm {
        op: AluOp,
        rd: Reg,
        rs1: Reg,
        imm: u32,
    },
    AluReg {
        op: AluOp,
        rd: Reg,
        rs1: Reg,
        rs2: Reg,
    },
    MulDiv {
        op: MulOp,
        rd: Reg,
        rs1: Reg,
        rs2: Reg,
    },
    Ecall,
}

impl Instr {
    // The first register that is read, or x0.
    pub fn rs1(self) -> Reg
        ensures { result.number ≡ (source1 self).number }
    {
        match self {
            Instr::Lui { .. } | Instr::Auipc { .. } | Instr::Jal { .. } | Instr::Ecall => Reg {
                number: 0,
            },
            Instr::Jalr { rs1, .. }
            | Instr::Branch { rs1, .. }
            | Instr::Load { rs1, .. }
            | Instr::Store { rs1, .. }
            | Instr::AluImm { rs1, .. }
            | Instr::AluReg { rs1, .. }
            | Instr::MulDiv { rs1, .. } => rs1,
        }
    }

    // The second register that is read, or x0.
    pub fn rs2(self) -> Reg
        ensures { result.number ≡ (source2 self).number }
    {
        match self {
            Instr::Branch { rs2, .. }
            | Instr::Store { rs2, .. }
            | Instr::AluReg { rs2, .. }
            | Instr::MulDiv { rs2, .. } => rs2,
            _ => Reg { number: 0 },
        }
    }
}
