// The first core's state, by value, part by part.
use isa::execute::Stop;
use isa::reg::Reg;
use isa::regs::Regs;
use pins::held::{Reading, Store};
use pins::ports::{Done, Request};
use rings::queue::Queue;
use rings::ring::Ring;

// The fetch unit: words that came and are not used yet, oldest first; how many wanted words are still to come,
// and how many older ones are to be dropped before them; the next address to want.
#[derive(Clone, Copy)]
pub struct Fetch {
    pub words: Queue<u32, 2>,
    pub coming: u32,
    pub stale: u32,
    pub next: u32,
}

// The store buffer: a ring of eight, the oldest at `begin`.
pub type StoreBuffer = Ring<Store, 8>;

// What an open request is for.
#[derive(Clone, Copy)]
pub enum Open {
    Acknowledgment,
    Load,
}

// The open requests, oldest first.
pub type OpenRequests = Queue<Open, 4>;

// The load-store unit.
#[derive(Clone, Copy)]
pub struct Lsu {
    pub stores: StoreBuffer,
    pub requests: OpenRequests,
    // The load at work.
    pub load: Reading,
}

// The number of the instruction at work: how many were done before it, modulo 2^32.
#[derive(Clone, Copy)]
pub struct Number(pub u32);

#[derive(Clone, Copy)]
pub struct Core {
    pub regs: Regs,
    pub pc: u32,
    pub number: Number,
    pub fetch: Fetch,
    pub lsu: Lsu,
    pub stopped: Option<Stop>,
}

// What the instruction at work does in a clock: nothing yet; stops; is done, writing a register; is done, going on
// elsewhere; is done, its store in the buffer; requests its load.
#[derive(Clone, Copy)]
pub enum Action {
    Wait,
    Halt(Stop),
    Write { rd: Reg, value: u32, next: u32 },
    Jump { next: u32 },
    Push(Store),
    Ask { address: u32 },
}

// What an action shows at the ports.
#[derive(Clone, Copy)]
pub struct Effect {
    pub done: Done,
    pub request: Option<Request>,
}
