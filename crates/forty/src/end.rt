// What a run of the core leaves behind.
use crate::expected::Expected;
use isa::devices::DEVICES;
use isa::execute::Stop;
use isa::reg::Reg;
use isa::regs::Regs;
use pins::ports::Retired;
use reference::memory::Memory;
use reference::trace::Effect;
use std::alloc::Global;
use testbench::failure::Failure;
use testbench::runner;
use testbench::session::Clock;
use testbench::setup::Setup;
use testbench::summary::Summary;

#[derive(Drop)]
pub struct End {
    pub summary: Summary,
    regs: Regs,
    data: Memory,
    // What devices were asked.
    devices: Vec<Effect>,
}

impl End {
    // Of the core alone, until it stops or up to a number of clocks.
    pub fn of(heap: Global, setup: &Setup, limit: u64) -> Result<End, Failure> {
        let mut session = setup.session(heap)?;
        let mut end = End {
            summary: Summary::new(),
            regs: Regs::new(),
            data: Memory::new(heap),
            devices: Vec::new(heap),
        };
        for placed in setup.program.data.iter() {
            end.data.set(placed.address / 4, placed.word)?;
        }
        end.summary = runner::run(&mut session, limit, |_, clock| end.add(clock))?;
        Ok(end)
    }

    fn add(&mut self, clock: &Clock) -> Result<(), Failure> {
        for retired in clock.done() {
            self.write_register(*retired);
        }
        if let Some(effect) = clock.effect() {
            self.add_effect(effect)?;
        }
        Ok(())
    }

    fn write_register(&mut self, retired: Retired) {
        if let 1..=31 = retired.reg {
            let number = retired.reg as u8;
            self.regs.write(Reg { number }, retired.value);
        }
    }

    fn add_effect(&mut self, effect: Effect) -> Result<(), Failure> {
        match effect {
            Effect::Write { address, value } if address < DEVICES => {
                self.data.set(address / 4, value)?;
            }
            _ => self.devices.push(effect)?,
        }
        Ok(())
    }

    // Whether it is as expected. Something must be.
    pub fn meets(&self, expected: &[Expected]) -> bool {
        let devices = expected.iter().filter_map(|one| one.device());
        let stop = expected.iter().rev().find_map(|one| one.stop());
        !expected.is_empty()
            && expected.iter().all(|one| self.holds(*one))
            && devices.eq(self.devices.iter().copied())
            && self.summary.stopped == Some(stop.unwrap_or(Stop::EnvCall))
    }

    // Whether a register or a word of data memory holds what is expected of it.
    fn holds(&self, expected: Expected) -> bool {
        match expected {
            Expected::Register { reg, value } => self.regs.read(reg) == value,
            Expected::Word { address, value } => self.data.get(address / 4) == value,
            Expected::Device(_) | Expected::Stop(_) => true,
        }
    }
}
