// Clocks that are made up, and what the checker says of them.
use asm::assemble::assemble;
use isa::execute::Stop;
use pins::ports::{Done, Inputs, Outputs, Request, Retired};
use sim::delay::Delay;
use sim::devices::Rest;
use std::alloc::{AllocError, Global};
use testbench::failure::Failure;
use testbench::mismatch::Mismatch;
use testbench::session::Clock;
use testbench::setup::Setup;
use testbench::versus::Difference;

// The clocks of a program. `answered` is the one from which on a device has answered 99.
#[derive(Drop)]
pub struct History<'a> {
    text: &'a str,
    clocks: Vec<Outputs>,
    answered: Option<usize>,
}

pub const IDLE: Outputs = Outputs {
    want: None,
    request: None,
    stopped: None,
    done: Done {
        count: 0,
        at: [Retired {
            pc: 0,
            reg: 0,
            value: 0,
        }; 4],
    },
};

pub fn done(pc: u32, reg: u32, value: u32) -> Outputs {
    Outputs {
        done: Done::one(Retired { pc, reg, value }),
        ..IDLE
    }
}

pub fn write(address: u32, value: u32) -> Outputs {
    Outputs {
        request: Some(Request::Write { address, value }),
        ..IDLE
    }
}

pub fn read(address: u32) -> Outputs {
    Outputs {
        request: Some(Request::Read { address }),
        ..IDLE
    }
}

pub fn want(address: u32) -> Outputs {
    Outputs {
        want: Some(address),
        ..IDLE
    }
}

pub fn stop(how: Stop) -> Outputs {
    Outputs {
        stopped: Some(how),
        ..IDLE
    }
}

impl<'a> History<'a> {
    // Before the first clock.
    pub fn new(heap: Global, text: &'a str) -> History<'a> {
        History {
            text,
            clocks: Vec::new(heap),
            answered: None,
        }
    }

    // With these clocks more.
    pub(crate) fn then(mut self, outputs: &[Outputs]) -> Result<History<'a>, AllocError> {
        self.clocks.extend_from_slice(outputs)?;
        Ok(self)
    }

    // The device answers in the clock that comes next.
    pub(crate) fn answered(mut self) -> History<'a> {
        self.answered = Some(self.clocks.len());
        self
    }

    // What the checker says, of a program whose answers come in the next clock.
    pub fn judge(&self, heap: Global) -> Result<Result<(), Difference>, Failure> {
        let Ok(program) = assemble(heap, self.text) else {
            return Err(Failure::Input(String::from_str(heap, "no program")?));
        };
        let setup = Setup {
            program: &program,
            delay: Delay::Fixed(0),
            rest: Rest::Zero,
            seed: 1,
        };
        let mut checker = setup.checker(heap)?;
        for (i, outputs) in self.clocks.iter().enumerate() {
            let clock = clock(i as u64, *outputs);
            if let Err(error) = checker.check(self.told(i), &clock) {
                return Ok(Err(Difference {
                    clock: clock.number,
                    mismatch: Mismatch::try_from(error)?,
                }));
            }
        }
        Ok(Ok(()))
    }

    // What devices have answered by a clock.
    fn told(&self, clock: usize) -> &[u32] {
        if self.answered.is_some_and(|first| first <= clock) {
            &[99]
        } else {
            &[]
        }
    }
}

// A clock in which nothing is given.
fn clock(number: u64, outputs: Outputs) -> Clock {
    Clock {
        number,
        inputs: Inputs {
            code: None,
            answer: None,
        },
        outputs,
    }
}
