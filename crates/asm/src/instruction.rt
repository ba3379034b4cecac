// From a statement to the word of an instruction.
ghost use Rattle.std.specs.Prelude.{◌≡◌, IfOk, Some};
ghost use Rattle.isa.specs.declared.instr.Instr.TheVariants.{AluReg, Branch};
ghost use Rattle.isa.specs.Decoding.{decodes};

use crate::error::{Fault, Problem};
use crate::names::{Mnemonic, RA};
use crate::operands::Located;
use encoding::encode;
use isa::instr::{AluOp, Cond, Instr};
use isa::reg::Reg;

// The word of an instruction; it is refused for the operand at `place`.
pub fn word(instr: Instr, place: usize) -> Result<u32, Fault>
    ensures { IfOk result (λ w. decodes w ≡ Some instr) }
{
    encode(instr).ok_or(Fault::operand(place, Problem::OutOfRange))
}

pub fn operation(op: AluOp, rd: Reg, rs1: Reg, rs2: Reg) -> Result<u32, Fault>
    ensures { IfOk result (λ w. decodes w ≡ Some (AluReg op rd rs1 rs2)) }
{
    word(Instr::AluReg { op, rd, rs1, rs2 }, 0)
}

pub fn branch(cond: Cond, rs1: Reg, rs2: Reg, offset: u32, place: usize) -> Result<u32, Fault>
    ensures { IfOk result (λ w. decodes w ≡ Some (Branch cond rs1 rs2 offset)) }
{
    word(
        Instr::Branch {
            cond,
            rs1,
            rs2,
            offset,
        },
        place,
    )
}

impl Located<'_, '_> {
    // The word of a statement whose name is the mnemonic. A match, as each kind holds what its word needs.
    pub fn instruction(self, m: Mnemonic) -> Result<u32, Fault> {
        match m {
            Mnemonic::Lui => {
                let (rd, imm) = self.upper_operands()?;
                word(Instr::Lui { rd, imm }, 1)
            }
            Mnemonic::Auipc => {
                let (rd, imm) = self.upper_operands()?;
                word(Instr::Auipc { rd, imm }, 1)
            }
            Mnemonic::Jal => self.jal(),
            Mnemonic::Jalr => self.jalr(),
            Mnemonic::Branch(cond) => {
                let (rs1, rs2, offset) = self.branch_operands()?;
                branch(cond, rs1, rs2, offset, 2)
            }
            Mnemonic::Load => {
                let (rd, rs1, offset) = self.memory_operands()?;
                word(Instr::Load { rd, rs1, offset }, 1)
            }
            Mnemonic::Store => {
                let (rs2, rs1, offset) = self.memory_operands()?;
                word(Instr::Store { rs1, rs2, offset }, 1)
            }
            Mnemonic::AluImm(op) => self.alu_imm(op),
            Mnemonic::AluReg(op) => {
                let [rd, rs1, rs2] = self.statement.registers::<3>(3)?;
                operation(op, rd, rs1, rs2)
            }
            Mnemonic::MulDiv(op) => {
                let [rd, rs1, rs2] = self.statement.registers::<3>(3)?;
                word(Instr::MulDiv { op, rd, rs1, rs2 }, 2)
            }
            Mnemonic::Ecall => {
                self.statement.expect(0)?;
                word(Instr::Ecall, 0)
            }
        }
    }

    // Registers, and then how far the target lies from here.
    pub(crate) fn jump_operands<const N: usize>(self) -> Result<([Reg; N], u32), Fault> {
        let registers = self.statement.registers::<N>(N + 1)?;
        Ok((registers, self.offset(N)?))
    }

    // Of a branch: two registers, and how far the target lies from here.
    pub fn branch_operands(self) -> Result<(Reg, Reg, u32), Fault> {
        let ([rs1, rs2], offset) = self.jump_operands::<2>()?;
        Ok((rs1, rs2, offset))
    }

    // `r, offset(rs1)`.
    fn memory_operands(self) -> Result<(Reg, Reg, u32), Fault> {
        let [r] = self.statement.registers::<1>(2)?;
        let (rs1, offset) = self.address(1)?;
        Ok((r, rs1, offset))
    }

    // Of `lui` and `auipc`: a register and 20 bits.
    fn upper_operands(self) -> Result<(Reg, u32), Fault> {
        let [rd] = self.statement.registers::<1>(2)?;
        let number = self.value(1)?;
        if number > 0xfffff {
            return Err(Fault::operand(1, Problem::OutOfRange));
        }
        Ok((rd, number << 12))
    }

    // `jal rd, target` or `jal target`, which puts the return address into `ra`.
    fn jal(self) -> Result<u32, Fault> {
        if self.statement.count() < 2 {
            return self.jump(RA);
        }
        let ([rd], offset) = self.jump_operands::<1>()?;
        word(Instr::Jal { rd, offset }, 1)
    }

    // A jump to the only operand.
    pub fn jump(self, rd: Reg) -> Result<u32, Fault> {
        let ([], offset) = self.jump_operands::<0>()?;
        word(Instr::Jal { rd, offset }, 0)
    }

    // `jalr rd, offset(rs1)`, `jalr rd, rs1, offset` or `jalr rs1`, which puts the return address into `ra`.
    fn jalr(self) -> Result<u32, Fault> {
        match self.statement.count() {
            0 | 1 => self.jump_register(RA),
            2 => {
                let (rd, rs1, offset) = self.memory_operands()?;
                word(Instr::Jalr { rd, rs1, offset }, 1)
            }
            _ => {
                let [rd, rs1] = self.statement.registers::<2>(3)?;
                let offset = self.value(2)?;
                word(Instr::Jalr { rd, rs1, offset }, 2)
            }
        }
    }

    // A jump to the address in the only operand.
    pub fn jump_register(self, rd: Reg) -> Result<u32, Fault> {
        let [rs1] = self.statement.registers::<1>(1)?;
        word(Instr::Jalr { rd, rs1, offset: 0 }, 0)
    }

    // A shift to the right that keeps the sign has bit 10 of its immediate set.
    fn alu_imm(self, op: AluOp) -> Result<u32, Fault> {
        let [rd, rs1] = self.statement.registers::<2>(3)?;
        let number = self.value(2)?;
        let imm = if op == AluOp::Sra {
            number.wrapping_add(1 << 10)
        } else {
            number
        };
        word(Instr::AluImm { op, rd, rs1, imm }, 2)
    }
}
