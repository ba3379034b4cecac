// Random programs: few registers and addresses, so that instructions depend on one another.
ghost use Rattle.std.specs.Prelude.{◌≤◌};

use asm::program::{Placed, Program};
use encoding::encode;
use isa::instr::{AluOp, Cond, Instr, MulOp};
use isa::reg::Reg;
use sim::rng::Rng;
use std::alloc::{AllocError, Global};

// Where data and devices are, a loop's counter, and an address to jump to.
const DATA: Reg = Reg { number: 10 };

const DEVICE: Reg = Reg { number: 11 };

const COUNTER: Reg = Reg { number: 12 };

const TARGET: Reg = Reg { number: 13 };

const ZERO: Reg = Reg { number: 0 };

#[derive(Drop)]
struct Generator {
    rng: Rng,
    code: Vec<Placed>,
    next: u32,
    // The address to which the loop that is open goes back.
    start: Option<u32>,
}

// The program of a seed: 20 to 60 instructions and a few more, then ecall.
pub fn random_program(heap: Global, seed: u64) -> Result<Program, AllocError> {
    let mut generator = Generator {
        rng: Rng::new(seed),
        code: Vec::new(heap),
        next: 0,
        start: None,
    };
    generator.begin()?;
    let count = 20 + generator.rng.below(41);
    for _ in 0..count {
        generator.add_random()?;
    }
    generator.close_loop()?;
    generator.end()?;
    Ok(Program {
        code: generator.code,
        data: Vec::new(heap),
        answers: Vec::new(heap),
        start: 0,
    })
}

impl Generator {
    fn add_word(&mut self, word: u32) -> Result<(), AllocError> {
        self.code.push(Placed {
            address: self.next,
            word,
        })?;
        self.next = self.next.wrapping_add(4);
        Ok(())
    }

    // What has no word is left out.
    fn add(&mut self, instr: Instr) -> Result<(), AllocError> {
        match encode(instr) {
            Some(word) => self.add_word(word),
            None => Ok(()),
        }
    }

    fn begin(&mut self) -> Result<(), AllocError> {
        self.add(add_imm(DATA, ZERO, 256))?;
        self.add(Instr::Lui {
            rd: DEVICE,
            imm: 0x8000_0000,
        })
    }

    // Jumps over the last instructions land here too.
    fn end(&mut self) -> Result<(), AllocError> {
        for _ in 0..8 {
            self.add(Instr::Ecall)?;
        }
        Ok(())
    }

    // One of these, each as often as it has numbers out of 32.
    fn add_random(&mut self) -> Result<(), AllocError> {
        match self.rng.below(32) {
            0..=4 => self.add_alu_imm(),
            5..=9 => self.add_alu_reg(),
            10..=11 => self.add_muldiv(),
            12..=16 => self.add_load(),
            17..=21 => self.add_store(),
            22..=25 => self.add_branch(),
            26 => self.add_upper(),
            27 => self.add_jump(),
            28 => self.add_register_jump(),
            29 => self.open_loop(),
            30 => self.close_loop(),
            _ => self.add_odd(),
        }
    }

    // x0, or one of six.
    fn register(&mut self) -> Reg {
        let number = self.rng.pick(&[0, 4, 5, 6, 7, 8, 9]);
        Reg { number }
    }

    // A small number, often negative, or any of twelve bits.
    fn immediate(&mut self) -> u32 {
        if self.rng.below(3) == 0 {
            self.rng.below(4096).wrapping_sub(2048)
        } else {
            self.rng.below(16).wrapping_sub(8)
        }
    }

    fn add_alu_imm(&mut self) -> Result<(), AllocError> {
        let rd = self.register();
        let rs1 = self.register();
        let op = self.alu_op();
        let imm = match op {
            AluOp::Sll | AluOp::Srl => self.rng.below(32),
            AluOp::Sra => 1024 + self.rng.below(32),
            _ => self.immediate(),
        };
        self.add(Instr::AluImm { op, rd, rs1, imm })
    }

    fn add_alu_reg(&mut self) -> Result<(), AllocError> {
        let op = self.alu_op();
        let rd = self.register();
        let rs1 = self.register();
        let rs2 = self.register();
        self.add(Instr::AluReg { op, rd, rs1, rs2 })
    }

    fn add_muldiv(&mut self) -> Result<(), AllocError> {
        let op = self
            .rng
            .pick(&[MulOp::Mul, MulOp::Mulhu, MulOp::Divu, MulOp::Remu]);
        let rd = self.register();
        let rs1 = self.register();
        let rs2 = self.register();
        self.add(Instr::MulDiv { op, rd, rs1, rs2 })
    }

    fn alu_op(&mut self) -> AluOp {
        self.rng.pick(&[
            AluOp::Add,
            AluOp::Sub,
            AluOp::Sll,
            AluOp::Slt,
            AluOp::Sltu,
            AluOp::Xor,
            AluOp::Srl,
            AluOp::Sra,
            AluOp::Or,
            AluOp::And,
        ])
    }

    // Data three times out of four, else a device; one of four words.
    fn address(&mut self) -> (Reg, u32) {
        let base = if self.rng.below(4) == 0 { DEVICE } else { DATA };
        (base, 4 * self.rng.below(4))
    }

    fn add_load(&mut self) -> Result<(), AllocError> {
        let rd = self.register();
        let (rs1, offset) = self.address();
        self.add(Instr::Load { rd, rs1, offset })
    }

    fn add_store(&mut self) -> Result<(), AllocError> {
        let rs2 = self.register();
        let (rs1, offset) = self.address();
        self.add(Instr::Store { rs1, rs2, offset })
    }

    // Forward, over up to six instructions.
    fn forward(&mut self) -> u32
        ensures { result ≤ 28 }
    {
        4 + 4 * self.rng.below(7)
    }

    fn add_branch(&mut self) -> Result<(), AllocError> {
        let cond = self.rng.pick(&[Cond::Eq, Cond::Ne, Cond::Lt, Cond::Ge, Cond::Ltu, Cond::Geu]);
        let rs1 = self.register();
        let rs2 = self.register();
        let offset = self.forward();
        self.add(Instr::Branch {
            cond,
            rs1,
            rs2,
            offset,
        })
    }

    fn add_upper(&mut self) -> Result<(), AllocError> {
        let rd = self.register();
        let imm = self.rng.word() & 0xffff_f000;
        let instr = self
            .rng
            .pick(&[Instr::Lui { rd, imm }, Instr::Auipc { rd, imm }]);
        self.add(instr)
    }

    fn add_jump(&mut self) -> Result<(), AllocError> {
        let rd = self.register();
        let offset = self.forward();
        self.add(Instr::Jal { rd, offset })
    }

    // By an address that was just made, seldom a misaligned one.
    fn add_register_jump(&mut self) -> Result<(), AllocError> {
        let rd = self.register();
        let odd = if self.rng.below(8) == 0 {
            2
        } else {
            self.rng.below(2)
        };
        let offset = 4 + self.forward() + odd;
        self.add(Instr::Auipc { rd: TARGET, imm: 0 })?;
        self.add(Instr::Jalr {
            rd,
            rs1: TARGET,
            offset,
        })
    }

    // A loop of up to eight rounds begins here, if none is open.
    fn open_loop(&mut self) -> Result<(), AllocError> {
        if self.start.is_some() {
            return Ok(());
        }
        let rounds = 1 + self.rng.below(8);
        self.add(add_imm(COUNTER, ZERO, rounds))?;
        self.start = Some(self.next);
        Ok(())
    }

    // The loop that is open ends here.
    fn close_loop(&mut self) -> Result<(), AllocError> {
        let Some(start) = self.start.take() else {
            return Ok(());
        };
        self.add(add_imm(COUNTER, COUNTER, 1u32.wrapping_neg()))?;
        self.add(Instr::Branch {
            cond: Cond::Lt,
            rs1: ZERO,
            rs2: COUNTER,
            offset: start.wrapping_sub(self.next),
        })
    }

    // Now and then a word that is no instruction, an address that is misaligned, or an address from a register. The ranges say
    // how often, as in add_random.
    fn add_odd(&mut self) -> Result<(), AllocError> {
        let rd = self.register();
        let rs1 = self.register();
        let offset = self.immediate();
        match self.rng.below(8) {
            0 => self.add_word(0),
            1 => self.add(Instr::Load { rd, rs1, offset }),
            2 => self.add(Instr::Store {
                rs1,
                rs2: rd,
                offset,
            }),
            3 => self.add(Instr::Branch {
                cond: Cond::Eq,
                rs1,
                rs2: rd,
                offset: 6,
            }),
            _ => self.add(add_imm(rd, ZERO, offset)),
        }
    }
}

fn add_imm(rd: Reg, rs1: Reg, imm: u32) -> Instr {
    Instr::AluImm {
        op: AluOp::Add,
        rd,
        rs1,
        imm,
    }
}
