// What requests and instructions do to the outside.
ghost use Rattle.std.specs.Prelude.{◌≡◌, Some};
ghost use Rattle.pins.specs.Outside.{ev_of};
ghost use Rattle.pins.specs.PortWords.{request_of};
ghost use Rattle.reference.specs.Machine.{events_of};

use isa::devices::DEVICES;
use isa::execute::{Outcome, perform};
use pins::ports::Request;
use reference::machine::Machine;
use reference::memory::Memory;
use reference::trace::Effect;

// Reading data memory is no effect.
pub fn effect_of(request: Request) -> Option<Effect>
    ensures { events_of result ≡ ev_of (request_of (Some request)) }
{
    match request {
        Request::Read { address } if address < DEVICES => None,
        Request::Read { address } => Some(Effect::Ask { address }),
        Request::Write { address, value } => Some(Effect::Write { address, value }),
    }
}

// The effect of the manual's next instruction.
pub fn next_effect(machine: &Machine, code: &Memory) -> Option<Effect> {
    match perform(&machine.regs, machine.pc, code.get(machine.pc / 4)) {
        Outcome::Load { address, .. } if address >= DEVICES => Some(Effect::Ask { address }),
        Outcome::Store { address, value } => Some(Effect::Write { address, value }),
        _ => None,
    }
}
