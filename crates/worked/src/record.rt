// What a run did, in full.
use pins::ports::Retired;
use reference::trace::Effect;
use std::alloc::Global;
use testbench::failure::Failure;
use testbench::runner;
use testbench::session::Clock;
use testbench::setup::Setup;
use testbench::summary::Summary;

#[derive(Drop)]
pub struct Record {
    pub summary: Summary,
    pub done: Vec<Retired>,
    pub effects: Vec<Effect>,
    // The most clocks in a row without an instruction done.
    pub gap: u64,
    idle: u64,
}

impl Record {
    // The run of the core alone, until it stops or up to a number of clocks.
    pub fn of(heap: Global, setup: &Setup, limit: u64) -> Result<Record, Failure> {
        let mut session = setup.session(heap)?;
        let mut record = Record {
            summary: Summary::new(),
            done: Vec::new(heap),
            effects: Vec::new(heap),
            gap: 0,
            idle: 0,
        };
        record.summary = runner::run(&mut session, limit, |_, clock| record.add(clock))?;
        Ok(record)
    }

    fn add(&mut self, clock: &Clock) -> Result<(), Failure> {
        self.done.extend_from_slice(clock.done())?;
        if let Some(effect) = clock.effect() {
            self.effects.push(effect)?;
        }
        self.idle = if clock.done().is_empty() {
            self.idle.saturating_add(1)
        } else {
            0
        };
        self.gap = self.gap.max(self.idle);
        Ok(())
    }
}
