// Where the stages' instructions stand in the window.
ghost use Rattle.std.specs.Prelude.{◌≡◌};
ghost use Rattle.window.specs.Rings.{entry};
ghost use Rattle.pipeline.specs.Stages.{is_load, asked, waits_outcome, waits, stands, first_from, at_stage, ask_outcome, ask_at};

use isa::devices::DEVICES;
use isa::execute::Outcome;
use window::datapath::Datapath;
use window::entry::{Entry, Number, Tag};
use window::queues::Requests;

// Reading registers, executing, memory: an enum, as the definitions name the three.
#[derive(Clone, Copy)]
pub enum Stage {
    Read,
    Execute,
    Memory,
}

// What the memory stage wants of the request port.
#[derive(Clone, Copy)]
pub enum Ask {
    Load(u32),
    Device,
}

fn is_load(tag: Tag, n: u32) -> bool
    ensures { result ≡ is_load n tag }
{
    tag == Tag::Load(Number(n))
}

// Is the load of the n-th instruction asked for?
fn asked(requests: &Requests, n: u32) -> bool
    ensures { result ≡ asked requests.now n }
{
    requests
        .at
        .iter()
        .take(requests.count as usize)
        .any(|tag| is_load(*tag, n))
}

// Does the memory stage stop at an instruction with this outcome: at a load that is to be asked for, at a device, where it halts?
fn waits_outcome(asked: bool, e: Entry, outcome: Outcome) -> bool
    ensures { result ≡ waits_outcome asked e outcome }
{
    match outcome {
        Outcome::Load { address, .. } => address >= DEVICES || (e.loaded.is_none() && !asked),
        Outcome::Halt(_) => true,
        _ => false,
    }
}

fn waits(asked: bool, e: Entry) -> bool
    ensures { result ≡ waits asked e }
{
    e.outcome
        .is_none_or(|outcome| waits_outcome(asked, e, outcome))
}

impl Stage {
    // Does it stand at the n-th instruction, which is e?
    fn stands(self, requests: &Requests, n: u32, e: Entry) -> bool
        ensures { result ≡ stands self requests.now n e }
    {
        match self {
            Stage::Read => e.left.is_none() || e.right.is_none(),
            Stage::Execute => e.outcome.is_none(),
            Stage::Memory => waits(asked(requests, n), e),
        }
    }

    fn stands_at(self, path: &Datapath, n: u32) -> bool
        ensures { result ≡ stands self path.now.requests n (entry path.now.window n) }
    {
        self.stands(&path.requests, n, path.window.entry(n))
    }

    // The oldest instruction at which it stands; as many as are at work if there is none.
    pub fn first(self, path: &Datapath) -> u32
        ensures { result ≡ at_stage self path.now }
    {
        (0..path.window.count)
            .find(|n| self.stands_at(path, *n))
            .unwrap_or(path.window.count)
    }
}

// What the n-th instruction, which is e, wants of the request port.
fn ask_outcome(n: u32, e: Entry, outcome: Outcome) -> Option<Ask>
    ensures { result ≡ ask_outcome n e outcome }
{
    match outcome {
        Outcome::Load { address, .. } if address >= DEVICES => (n == 0).then_some(Ask::Device),
        Outcome::Load { .. } if e.loaded.is_none() => Some(Ask::Load(n)),
        _ => None,
    }
}

impl Ask {
    pub fn at(path: &Datapath, n: u32) -> Option<Ask>
        ensures { result ≡ ask_at path.now n }
    {
        let e = path.window.get(n)?;
        ask_outcome(n, e, e.outcome?)
    }
}
