// The parts of a core with a window.
use isa::execute::Outcome;

// One instruction at work: its address, where the next is predicted to be, and what is known of it so far: its word, its
// two operands, its outcome, and the word of data that it loads.
#[derive(Clone, Copy, PartialEq, Eq)]
pub struct Entry {
    pub pc: u32,
    pub predicted: u32,
    pub word: Option<u32>,
    pub left: Option<u32>,
    pub right: Option<u32>,
    pub outcome: Option<Outcome>,
    pub loaded: Option<u32>,
}

// An instruction's number in the window: 0 is the oldest.
#[derive(Clone, Copy, PartialEq, Eq)]
pub struct Number(pub u32);

// What an open request is for: a store's acknowledgment; the load of an instruction at work; an instruction that was
// flushed; the device that the oldest reads.
#[derive(Clone, Copy, PartialEq, Eq)]
pub enum Tag {
    Acknowledgment,
    Load(Number),
    Stale,
    Device,
}

// Where a load finds its word: not known yet, since an older store may be to it; in memory; with a store before it. Three
// states, which an Option of an Option would hide.
#[derive(Clone, Copy, PartialEq, Eq)]
pub enum Source {
    Unknown,
    Memory,
    Forwarded(u32),
}
