// What is promised at the ports, checked clock by clock against the manual.
use crate::effects::next_effect;
use crate::mismatch::{CheckError, Mismatch};
use crate::session::Clock;
use isa::execute::Stop;
use pins::ports::{Inputs, Outputs, Retired};
use reference::machine::Machine;
use reference::memory::Memory;
use reference::trace::{Done, Effect, Halt};
use std::alloc::Global;
use std::collections::VecDeque;

// An effect of an instruction that is done, to be asked yet, and the clock in which that was done.
#[derive(Clone, Copy)]
struct Owed {
    effect: Effect,
    clock: u64,
}

// How many words of code, or requests, are open.
#[derive(Clone, Copy, Default)]
struct Open(u32);

impl Open {
    // One clock more.
    fn count(&mut self, answered: bool, asked: bool) {
        let left = self.0.saturating_sub(u32::from(answered));
        self.0 = left.saturating_add(u32::from(asked));
    }

    fn is_too_many(self) -> bool {
        self.0 > 4
    }
}

// The manual after the instructions that are done.
#[derive(Drop)]
pub struct Checker {
    code: Memory,
    machine: Machine,
    // Effects of what is done, to be asked yet; effects asked, of what is to be done yet. One of the two is empty.
    owed: VecDeque<Owed>,
    early: VecDeque<Effect>,
    wants: Open,
    requests: Open,
    // In so many clocks an instruction is done, and what is owed is asked.
    patience: u64,
    clock: u64,
    idle: u64,
}

impl Checker {
    // `most` is how many clocks an answer waits at most.
    pub fn new(heap: Global, code: Memory, machine: Machine, most: u32) -> Checker {
        Checker {
            code,
            machine,
            owed: VecDeque::new(heap),
            early: VecDeque::new(heap),
            wants: Open::default(),
            requests: Open::default(),
            patience: 64 + 16 * u64::from(most),
            clock: 0,
            idle: 0,
        }
    }

    // One clock more. `told` is all that devices have answered, this clock's answer too.
    pub fn check(&mut self, told: &[u32], clock: &Clock) -> Result<(), CheckError> {
        self.check_open(&clock.inputs, &clock.outputs)?;
        for retired in clock.done() {
            self.check_retired(told, *retired)?;
        }
        if let Some(effect) = clock.effect() {
            self.check_asked(effect)?;
        }
        self.check_order()?;
        if let Some(stop) = clock.outputs.stopped {
            return self.check_stop(told, stop);
        }
        self.check_progress(clock.done().is_empty())?;
        self.clock = self.clock.saturating_add(1);
        Ok(())
    }

    // At most four words of code and four requests are open.
    fn check_open(&mut self, inputs: &Inputs, outputs: &Outputs) -> Result<(), Mismatch> {
        self.wants
            .count(inputs.code.is_some(), outputs.want.is_some());
        self.requests
            .count(inputs.answer.is_some(), outputs.request.is_some());
        if self.wants.is_too_many() {
            return Err(Mismatch::TooManyWants);
        }
        if self.requests.is_too_many() {
            return Err(Mismatch::TooManyRequests);
        }
        Ok(())
    }

    // What is done is what the manual does next.
    fn check_retired(&mut self, told: &[u32], core: Retired) -> Result<(), CheckError> {
        match self.machine.step(&self.code, told)? {
            Ok(Done { trace, effect }) => {
                if core != trace {
                    return Err(Mismatch::Done {
                        core,
                        manual: trace,
                    }
                    .into());
                }
                if let Some(effect) = effect {
                    self.check_effect(effect)?;
                }
                Ok(())
            }
            Err(Halt::Stopped(_)) => Err(Mismatch::DoneAfterStop { core }.into()),
            Err(Halt::NoAnswer) => Err(Mismatch::DoneUnanswered { core }.into()),
        }
    }

    // An instruction that is done has an effect: it was asked already, or is owed.
    fn check_effect(&mut self, effect: Effect) -> Result<(), CheckError> {
        if let Some(core) = self.early.pop_front() {
            return Ok(same(core, effect)?);
        }
        let clock = self.clock;
        self.owed.push_back(Owed { effect, clock })?;
        Ok(())
    }

    // An effect is asked: it is the oldest that is owed, or early.
    fn check_asked(&mut self, core: Effect) -> Result<(), CheckError> {
        if let Some(owed) = self.owed.pop_front() {
            return Ok(same(core, owed.effect)?);
        }
        self.early.push_back(core)?;
        Ok(())
    }

    // Of what is not done only the next instruction's effect is asked; and at most eight are owed. A second early one is kept,
    // so that it is refused in the clocks after this one too.
    fn check_order(&self) -> Result<(), Mismatch> {
        if self.owed.len() > 8 {
            return Err(Mismatch::Behind);
        }
        let Some(core) = self.early.back().copied() else {
            return Ok(());
        };
        if self.early.len() > 1 {
            return Err(Mismatch::AskedEarly { core });
        }
        let next = next_effect(&self.machine, &self.code);
        same(core, next.ok_or(Mismatch::AskedEarly { core })?)
    }

    // It stops as the manual does, with everything asked.
    fn check_stop(&mut self, told: &[u32], core: Stop) -> Result<(), CheckError> {
        if let Some(owed) = self.owed.front() {
            let effect = owed.effect;
            return Err(Mismatch::StoppedWithout { effect }.into());
        }
        match self.machine.step(&self.code, told)? {
            Err(Halt::Stopped(manual)) if core == manual => Ok(()),
            Err(Halt::Stopped(manual)) => Err(Mismatch::Stopped { core, manual }.into()),
            _ => Err(Mismatch::StoppedEarly { core }.into()),
        }
    }

    // In time an instruction is done, and what is owed is asked.
    fn check_progress(&mut self, idle: bool) -> Result<(), Mismatch> {
        self.idle = if idle { self.idle.saturating_add(1) } else { 0 };
        if self.idle >= self.patience {
            return Err(Mismatch::Idle { clocks: self.idle });
        }
        match self.owed.front() {
            Some(owed) if self.clock.saturating_sub(owed.clock) >= self.patience => {
                Err(Mismatch::Late {
                    effect: owed.effect,
                })
            }
            _ => Ok(()),
        }
    }
}

// What the core asks is what the manual asks.
fn same(core: Effect, manual: Effect) -> Result<(), Mismatch> {
    if core == manual {
        Ok(())
    } else {
        Err(Mismatch::Asked { core, manual })
    }
}
