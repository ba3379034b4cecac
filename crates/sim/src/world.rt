// Memories and devices, clock by clock.
ghost use Rattle.std.specs.Prelude.{IfOk, OnOk};
ghost use Rattle.sim.specs.Worlds.{Fetches, Answers, Gives, Takes, KeepsCode, KeepsData, KeepsOpen};

use crate::delay::Delay;
use crate::devices::Devices;
use crate::error::WorldError;
use crate::queue::Queue;
use crate::rng::Rng;
use isa::devices::DEVICES;
use pins::ports::{Inputs, Outputs, Request};
use reference::memory::Memory;
use std::alloc::Global;

// `clock` is the number of the next clock, and `told` what devices have answered.
#[derive(Drop)]
pub struct World {
    pub code: Memory,
    pub data: Memory,
    pub devices: Devices,
    pub delay: Delay,
    pub rng: Rng,
    pub wants: Queue<u32>,
    pub requests: Queue<Request>,
    pub told: Vec<u32>,
    pub clock: u64,
}

impl World {
    // Before the first clock. Called once, so that a struct for what it takes would be the world itself.
    pub fn new(
        heap: Global,
        code: Memory,
        data: Memory,
        devices: Devices,
        delay: Delay,
        seed: u64,
    ) -> World {
        World {
            code,
            data,
            devices,
            delay,
            rng: Rng::new(seed),
            wants: Queue::new(heap),
            requests: Queue::new(heap),
            told: Vec::new(heap),
            clock: 0,
        }
    }

    // This clock's answers. A write is in memory once it is answered.
    pub fn inputs(&mut self) -> Result<Inputs, WorldError>
        ensures { IfOk result (λ i. Gives self.old self.new i) }
    {
        let code = self.fetch();
        // No `map`: its contract says nothing of the world that the closure would change.
        let answer = match self.requests.pop(self.clock) {
            Some(request) => Some(self.answer(request)?),
            None => None,
        };
        Ok(Inputs { code, answer })
    }

    fn fetch(&mut self) -> Option<u32>
        ensures code { Fetches self.old self.new result }
        ensures rest { KeepsData self.old self.new }
    {
        let address = self.wants.pop(self.clock)?;
        Some(self.code.get(address / 4))
    }

    // A write may be answered by any word.
    fn answer(&mut self, request: Request) -> Result<u32, WorldError>
        ensures right { IfOk result (λ x. Answers self.old self.new request x) }
        ensures rest { KeepsCode self.old self.new }
    {
        match request {
            Request::Read { address } if address < DEVICES => Ok(self.data.get(address / 4)),
            Request::Read { .. } => {
                let word = self.devices.answer(self.told.len(), &mut self.rng);
                self.told.push(word)?;
                Ok(word)
            }
            Request::Write { address, value } => {
                if address < DEVICES {
                    self.data.set(address / 4, value)?;
                }
                Ok(self.rng.word())
            }
        }
    }

    // Takes what is asked in this clock, which then is over. What is refused draws no random number.
    pub fn take(&mut self, outs: &Outputs) -> Result<(), WorldError>
        ensures { OnOk result (Takes self.old self.new outs.now) }
    {
        if let Some(address) = outs.want {
            self.wants.room(WorldError::TooManyWants)?;
            let due = self.due();
            self.wants.push(address, due)?;
        }
        if let Some(request) = outs.request {
            self.requests.room(WorldError::TooManyRequests)?;
            let due = self.due();
            self.requests.push(request, due)?;
        }
        self.clock = self.clock.saturating_add(1);
        Ok(())
    }

    // The first clock that may answer what is asked in this one.
    fn due(&mut self) -> u64
        ensures { KeepsOpen self.old self.new }
    {
        let wait = self.delay.pick(&mut self.rng);
        self.clock.saturating_add(1 + u64::from(wait))
    }
}
