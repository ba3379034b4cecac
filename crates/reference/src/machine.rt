// The manual's machine: registers, pc and data, one instruction at a time.
ghost use Rattle.std.specs.Prelude.{◌≡◌, ℕ, List, drop};
ghost use Rattle.isa.specs.Manual.{asked, saved, step};
ghost use Rattle.isa.specs.Executing.{enact};
ghost use Rattle.reference.specs.History.{RunsTo};
ghost use Rattle.reference.specs.Memory.{words_of};
ghost use Rattle.reference.specs.Machine.{started, state, written, moved, traced, untraced, StepsTo, TriesTo};

use crate::history::History;
use crate::memory::Memory;
use crate::trace::{Done, Effect, Halt, Step};
use isa::devices::DEVICES;
use isa::execute::{Outcome, perform};
use isa::reg::Reg;
use isa::regs::Regs;
use pins::ports::Retired;
use std::alloc::{AllocError, Global};

// `used` counts the devices' answers that it has read.
#[derive(Drop)]
pub struct Machine {
    pub regs: Regs,
    pub pc: u32,
    pub memory: Memory,
    pub used: usize,
}

impl Machine {
    // All registers 0, with these first data.
    pub fn new(pc: u32, memory: Memory) -> Machine
        ensures { (answers : List ℕ) → state result answers ≡ started pc (words_of memory) answers }
    {
        Machine {
            regs: Regs::new(),
            pc,
            memory,
            used: 0,
        }
    }

    // Writes a register and goes on at `next`.
    fn write(&mut self, rd: Reg, value: u32, next: u32) -> Retired
        ensures machine { self.new ≡ written self.old rd.number value next }
        ensures trace { result ≡ traced self.old.pc rd.number value }
    {
        let pc = self.pc;
        let reg = u32::from(rd.number);
        self.regs.write(rd, value);
        self.pc = next;
        Retired {
            pc,
            reg,
            value: if reg == 0 { 0 } else { value },
        }
    }

    // Goes on at `next`.
    fn jump(&mut self, next: u32) -> Retired
        ensures machine { self.new ≡ moved self.old next }
        ensures trace { result ≡ untraced self.old.pc }
    {
        let pc = self.pc;
        self.pc = next;
        Retired {
            pc,
            reg: 0,
            value: 0,
        }
    }

    // Reads a device: its next answer, if it has come.
    fn ask(&mut self, rd: Reg, address: u32, answers: &[u32]) -> Step
        ensures { StepsTo result self.old self.new answers.now (asked (state self.old answers.now) rd.number address (drop self.old.used answers.now)) }
    {
        let Some(value) = answers.get(self.used) else {
            return Err(Halt::NoAnswer);
        };
        self.used += 1;
        let next = self.pc.wrapping_add(4);
        Ok(Done {
            trace: self.write(rd, *value, next),
            effect: Some(Effect::Ask { address }),
        })
    }

    fn load(&mut self, rd: Reg, address: u32, answers: &[u32]) -> Step
        ensures { StepsTo result self.old self.new answers.now (enact (state self.old answers.now) (Outcome.Load rd address)) }
    {
        if address >= DEVICES {
            return self.ask(rd, address, answers);
        }
        let value = self.memory.get(address / 4);
        let next = self.pc.wrapping_add(4);
        Ok(Done {
            trace: self.write(rd, value, next),
            effect: None,
        })
    }

    // On an error nothing was done.
    fn store(&mut self, address: u32, value: u32) -> Result<Step, AllocError>
        ensures { (answers : List ℕ) → TriesTo result self.old self.new answers (saved (state self.old answers) address value) }
    {
        if address < DEVICES {
            self.memory.set(address / 4, value)?;
        }
        let next = self.pc.wrapping_add(4);
        Ok(Ok(Done {
            trace: self.jump(next),
            effect: Some(Effect::Write { address, value }),
        }))
    }

    // On an error, for want of memory, nothing was done.
    fn enact(&mut self, outcome: Outcome, answers: &[u32]) -> Result<Step, AllocError>
        ensures { TriesTo result self.old self.new answers.now (enact (state self.old answers.now) outcome) }
    {
        match outcome {
            Outcome::Write { rd, value, next } => Ok(Ok(Done {
                trace: self.write(rd, value, next),
                effect: None,
            })),
            Outcome::Jump { next } => Ok(Ok(Done {
                trace: self.jump(next),
                effect: None,
            })),
            Outcome::Load { rd, address } => Ok(self.load(rd, address, answers)),
            Outcome::Store { address, value } => self.store(address, value),
            Outcome::Halt(stop) => Ok(Err(Halt::Stopped(stop))),
        }
    }

    // One instruction of the manual. `answers` is all that the devices have told so far.
    // On an error, for want of memory, nothing was done.
    pub fn step(&mut self, code: &Memory, answers: &[u32]) -> Result<Step, AllocError>
        ensures { TriesTo result self.old self.new answers.now (step (words_of code.now) (state self.old answers.now)) }
    {
        let word = code.get(self.pc / 4);
        let outcome = perform(&self.regs, self.pc, word);
        self.enact(outcome, answers)
    }

    // The first `count` instructions, fewer where it stops or an answer is missing. On an error the machine stands
    // somewhere on the way.
    pub fn run(
        &mut self,
        heap: Global,
        code: &Memory,
        answers: &[u32],
        count: usize,
    ) -> Result<History, AllocError>
        ensures { RunsTo result (words_of code.now) (state self.old answers.now) count (state self.new answers.now) }
    {
        let mut history = History::new(heap);
        for _ in 0..count {
            match self.step(code, answers)? {
                Ok(done) => history.push(done.trace, done.effect)?,
                Err(halt) => return Ok(history.ended(Some(halt))),
            }
        }
        Ok(history)
    }
}
