// A program and the world that it is run in.
use crate::checker::Checker;
use crate::failure::Failure;
use crate::session::Session;
use asm::program::{Placed, Program};
use reference::machine::Machine;
use reference::memory::Memory;
use sim::delay::Delay;
use sim::devices::{Devices, Rest};
use sim::world::World;
use std::alloc::{AllocError, Global};

#[derive(Clone, Copy)]
pub struct Setup<'a> {
    pub program: &'a Program,
    pub delay: Delay,
    // What devices answer after the program's answers.
    pub rest: Rest,
    pub seed: u64,
}

impl Setup<'_> {
    // The core, before its first clock.
    pub fn session(&self, heap: Global) -> Result<Session, Failure> {
        let devices = Devices {
            answers: self.program.answers.clone()?,
            rest: self.rest,
        };
        let code = memory(heap, &self.program.code)?;
        let data = memory(heap, &self.program.data)?;
        let world = World::new(heap, code, data, devices, self.delay, self.seed);
        Session::start(heap, self.program.start, world)
    }

    // The manual, before its first instruction.
    pub fn checker(&self, heap: Global) -> Result<Checker, AllocError> {
        let code = memory(heap, &self.program.code)?;
        let data = memory(heap, &self.program.data)?;
        let machine = Machine::new(self.program.start, data);
        Ok(Checker::new(heap, code, machine, self.delay.most()))
    }
}

fn memory(heap: Global, words: &[Placed]) -> Result<Memory, AllocError> {
    let mut memory = Memory::new(heap);
    for placed in words {
        memory.set(placed.address / 4, placed.word)?;
    }
    Ok(memory)
}
