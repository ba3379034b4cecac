// A core with the world around it, clock by clock.
ghost use Rattle.std.specs.Prelude.{◌≡◌};
ghost use Rattle.pins.specs.Outside.{ev_of};
ghost use Rattle.pins.specs.PortWords.{request_of};
ghost use Rattle.reference.specs.Machine.{events_of};

use crate::effects::effect_of;
use crate::failure::Failure;
use pins::ports::{Inputs, Outputs, Retired};
use pins::{CORE_WORDS, Clocked, Started};
use reference::trace::Effect;
use sim::world::World;
use std::alloc::Global;

#[derive(Drop)]
pub struct Session {
    core: Vec<u32>,
    pub world: World,
}

// What is given and shown in a clock.
#[derive(Clone, Copy)]
pub struct Clock {
    pub number: u64,
    pub inputs: Inputs,
    pub outputs: Outputs,
}

impl Clock {
    // The instructions that are done, oldest first.
    pub fn done(&self) -> &[Retired] {
        self.outputs.done.retired()
    }

    // The write or the read of a device that is asked, if any.
    pub fn effect(&self) -> Option<Effect>
        ensures { events_of result ≡ ev_of (request_of self.now.outputs.request) }
    {
        self.outputs.request.and_then(effect_of)
    }
}

impl Session {
    // A core that begins at an address.
    pub fn start(heap: Global, address: u32, world: World) -> Result<Session, Failure> {
        let mut core = vec![in heap; 0u32; CORE_WORDS]?;
        match ahead::start(address, &mut core) {
            Started::Ready => Ok(Session { core, world }),
            Started::Few => Err(Failure::NoCore),
        }
    }

    // The words of the core, as the next clock finds them.
    pub fn core(&self) -> &[u32] {
        &self.core
    }

    // One clock of the core and the world.
    pub fn clock(&mut self) -> Result<Clock, Failure> {
        let number = self.world.clock;
        let inputs = self.world.inputs()?;
        let ins = inputs.words();
        let mut outs = [0u32; 20];
        match ahead::clock(&mut self.core, &ins, &mut outs) {
            Clocked::Done => {}
            Clocked::NoCore | Clocked::NoPorts => return Err(Failure::NoCore),
        }
        let outputs = Outputs::read(&outs).ok_or(Failure::NoOutputs)?;
        self.world.take(&outputs)?;
        Ok(Clock {
            number,
            inputs,
            outputs,
        })
    }
}
