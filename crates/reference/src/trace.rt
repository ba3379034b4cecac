// What a step shows.
use isa::execute::Stop;
use pins::ports::Retired;

// What is done to the outside: a word of data or of a device is written, or a device is asked.
#[derive(Clone, Copy, Debug, PartialEq, Eq)]
pub enum Effect {
    Write { address: u32, value: u32 },
    Ask { address: u32 },
}

// An instruction that is done: what the ports show of it, and what it does to the outside.
#[derive(Clone, Copy, PartialEq, Eq)]
pub struct Done {
    pub trace: Retired,
    pub effect: Option<Effect>,
}

// Why no more is done: the machine has stopped, or it waits for an answer that no device has given yet.
#[derive(Clone, Copy, PartialEq, Eq)]
pub enum Halt {
    Stopped(Stop),
    NoAnswer,
}

// A step: an instruction is done, or the machine halts.
pub type Step = Result<Done, Halt>;
