// A commit log: the lines that the simulator Spike writes, one for each instruction that is done.
use isa::execute::{Outcome, perform};
use isa::reg::Reg;
use isa::regs::Regs;
use pins::ports::{Request, Retired};
use std::fmt;

// An instruction that is done, and what it reads or writes of memory and devices.
#[derive(Clone, Copy)]
pub struct Commit {
    pub retired: Retired,
    pub word: u32,
    pub access: Option<Request>,
}

// `core   0: 3 0x00000018 (0x0043a303) x6  0x00000063 mem 0x80000004`
impl fmt::Display for Commit {
    fn fmt<W: fmt::Write>(&self, f: &mut fmt::Formatter<W>) -> fmt::Result {
        let Retired { pc, reg, value } = self.retired;
        let word = self.word;
        write!(f, "core   0: 3 {pc:#010x} ({word:#010x})")?;
        if reg != 0 {
            write!(f, " x{reg:<2} {value:#010x}")?;
        }
        match self.access {
            Some(Request::Read { address }) => write!(f, " mem {address:#010x}"),
            Some(Request::Write { address, value }) => {
                write!(f, " mem {address:#010x} {value:#010x}")
            }
            None => Ok(()),
        }
    }
}

// The registers, as the instructions so far have left them.
#[derive(Clone, Copy)]
pub struct CommitLog {
    regs: Regs,
}

impl CommitLog {
    // Before the first instruction.
    pub fn new() -> CommitLog {
        CommitLog { regs: Regs::new() }
    }

    // The next instruction that is done, and its word.
    pub fn commit(&mut self, retired: Retired, word: u32) -> Commit {
        let access = self.access(retired.pc, word);
        if let 1..=31 = retired.reg {
            let number = retired.reg as u8;
            self.regs.write(Reg { number }, retired.value);
        }
        Commit {
            retired,
            word,
            access,
        }
    }

    // Where an instruction loads or stores, at the registers that it finds.
    fn access(&self, pc: u32, word: u32) -> Option<Request> {
        match perform(&self.regs, pc, word) {
            Outcome::Load { address, .. } => Some(Request::Read { address }),
            Outcome::Store { address, value } => Some(Request::Write { address, value }),
            Outcome::Write { .. } | Outcome::Jump { .. } | Outcome::Halt(_) => None,
        }
    }
}
