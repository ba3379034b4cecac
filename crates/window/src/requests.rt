// Requests for loads and devices, and whether the core has stopped: the machine's rules on the datapath.
ghost use Rattle.std.specs.Prelude.{◌≡◌};
ghost use Rattle.window.specs.Rings.{outcome_at};
ghost use Rattle.window.specs.Asking.{memory_at, load_at, load_address, load_asked, read_of, free, device_at, device_address, device_asked, halt_at, halts};

use crate::datapath::Datapath;
use crate::entry::{Number, Source, Tag};
use crate::ring::source;
use isa::devices::DEVICES;
use isa::execute::{Outcome, Stop};
use pins::held::Reading;
use pins::ports::Request;

fn memory_at(address: u32, source: Source) -> Option<u32>
    ensures { result ≡ memory_at address source }
{
    matches!(source, Source::Memory).then_some(address)
}

impl Datapath {
    // The n-th instruction's outcome, once it has one.
    fn outcome(&self, n: u32) -> Option<Outcome>
        ensures { result ≡ outcome_at self.now.window n }
    {
        self.window.get(n)?.outcome
    }

    // The address that the n-th instruction's load can be asked for at, by its outcome.
    fn load_at(&self, n: u32, outcome: Outcome) -> Option<u32>
        ensures { result ≡ load_at self.now n outcome }
    {
        match outcome {
            Outcome::Load { address, .. } if address < DEVICES => {
                memory_at(address, source(&self.window, &self.stores, address / 4, n))
            }
            _ => None,
        }
    }

    fn load_address(&self, n: u32) -> Option<u32>
        ensures { result ≡ load_address self.now n }
    {
        self.load_at(n, self.outcome(n)?)
    }

    // The load of the n-th instruction is asked for, if its word is in memory.
    pub fn ask_load(&mut self, n: u32) -> Option<Request>
        ensures core { self.new ≡ load_asked self.old n }
        ensures asks { result ≡ read_of (load_address self.old n) }
    {
        let address = self.load_address(n)?;
        self.requests.push_if_room(Tag::Load(Number(n)));
        Some(Request::Read { address })
    }

    // No store waits, and no device is read.
    fn free(&self) -> bool
        ensures { result ≡ free self.now }
    {
        self.device == Reading::Idle && self.stores.count == 0
    }

    fn device_at(&self, outcome: Outcome) -> Option<u32>
        ensures { result ≡ device_at self.now outcome }
    {
        match outcome {
            Outcome::Load { address, .. } if address >= DEVICES && self.free() => Some(address),
            _ => None,
        }
    }

    fn device_address(&self) -> Option<u32>
        ensures { result ≡ device_address self.now }
    {
        self.device_at(self.outcome(0)?)
    }

    // The device that the oldest reads is asked.
    pub fn ask_device(&mut self) -> Option<Request>
        ensures core { self.new ≡ device_asked self.old }
        ensures asks { result ≡ read_of (device_address self.old) }
    {
        let address = self.device_address()?;
        self.device = Reading::Waiting { address };
        self.requests.push_if_room(Tag::Device);
        Some(Request::Read { address })
    }

    fn halt_at(&self, outcome: Outcome) -> Option<Stop>
        ensures { result ≡ halt_at self.now outcome }
    {
        match outcome {
            Outcome::Halt(stop) if self.free() => Some(stop),
            _ => None,
        }
    }

    // It has stopped: the oldest halts, and nothing before it is left to be done.
    pub fn halted(&self) -> Option<Stop>
        ensures { result ≡ halts self.now }
    {
        self.halt_at(self.outcome(0)?)
    }
}
