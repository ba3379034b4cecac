// The rules of a clock: writing, memory, executing, reading registers, the request port, fetching.
ghost use Rattle.std.specs.Prelude.{◌≡◌};
ghost use Rattle.pipeline.specs.Step.{code_in, data_in, memory_stage, memory_ask, next_after, mispredicted, redirect_by, execute_stage, read_stage, store_goes, ported, port_request, fetch_room, fetch_stage, fetch_want, next, outputs, done_of};

use crate::stages::{Ask, Stage};
use crate::state::Core;
use isa::execute::Outcome;
use pins::ports::{Done, Inputs, Outputs, Request, Retired};
use window::datapath::Datapath;
use window::entry::Entry;

// The word of code that came, and the answer to a request: two ports, with a line for each.
fn take_code(path: &mut Datapath, code: Option<u32>)
    ensures { path.new ≡ code_in path.old code }
{
    if let Some(x) = code {
        path.take_code(x);
    }
}

fn take_data(path: &mut Datapath, answer: Option<u32>)
    ensures { path.new ≡ data_in path.old answer }
{
    if let Some(x) = answer {
        path.take_data(x);
    }
}

// Memory: the oldest load that has not got its word gets it from an older store, or is to be asked for.
fn memory(path: &mut Datapath) -> Option<Ask>
    ensures path { path.new ≡ memory_stage path.old }
    ensures asks { result ≡ memory_ask path.old }
{
    let n = Stage::Memory.first(path);
    path.forward(n);
    Ask::at(path, n)
}

// Where an instruction goes on, by its outcome.
fn next_after(e: Entry, outcome: Outcome) -> Option<u32>
    ensures { result ≡ next_after e outcome }
{
    match outcome {
        Outcome::Write { next, .. } | Outcome::Jump { next } => Some(next),
        Outcome::Load { .. } | Outcome::Store { .. } => Some(e.pc.wrapping_add(4)),
        Outcome::Halt(_) => None,
    }
}

// The same, if it is not what was predicted.
fn mispredicted(e: Entry) -> Option<u32>
    ensures { result ≡ mispredicted e }
{
    next_after(e, e.outcome?).filter(|next| *next != e.predicted)
}

// After a wrong prediction what is younger than the n-th is flushed.
fn redirect(path: &mut Datapath, n: u32)
    ensures { path.new ≡ redirect_by path.old n }
{
    if let Some(e) = path.window.get(n)
        && let Some(next) = mispredicted(e)
    {
        path.redirect(n, next);
    }
}

// Executing: the oldest without its outcome gets it, if its operands are there.
fn execute(path: &mut Datapath)
    ensures { path.new ≡ execute_stage path.old }
{
    let n = Stage::Execute.first(path);
    path.execute(n);
    redirect(path, n);
}

// Reading registers: the oldest without its operands gets those that are there.
fn read(path: &mut Datapath)
    ensures { path.new ≡ read_stage path.old }
{
    let n = Stage::Read.first(path);
    path.read_left(n);
    path.read_right(n);
}

// Does a waiting store take the request port? It and loads take turns; a full buffer goes first.
fn store_goes(turn: bool, count: u32, ask: Option<Ask>) -> bool
    ensures { result ≡ store_goes turn count ask }
{
    match ask {
        Some(Ask::Load(_)) => count > 0 && (turn || count >= 8),
        _ => count > 0,
    }
}

impl Core {
    // The request port, if fewer than four requests are open.
    fn port(&mut self, ask: Option<Ask>) -> Option<Request>
        ensures core { self.new ≡ ported self.old ask }
        ensures asks { result ≡ port_request self.old ask }
    {
        if self.path.requests.full() {
            return None;
        }
        if store_goes(self.turn, self.path.stores.count, ask) {
            self.turn = false;
            return self.path.drain();
        }
        self.turn = true;
        match ask? {
            Ask::Load(n) => self.path.ask_load(n),
            Ask::Device => self.path.ask_device(),
        }
    }
}

fn fetch_room(path: &Datapath) -> bool
    ensures { result ≡ fetch_room path.now }
{
    !path.fetches.full() && !path.window.full()
}

// Fetching: the next word of code is wanted, and predicted to be followed by the one behind it.
fn fetch(path: &mut Datapath) -> Option<u32>
    ensures path { path.new ≡ fetch_stage path.old }
    ensures wants { result ≡ fetch_want path.old }
{
    if !fetch_room(path) {
        return None;
    }
    let pc = path.next_pc();
    path.fetch(pc.wrapping_add(4));
    Some(pc)
}

fn done(retired: Option<Retired>) -> Done
    ensures { result ≡ done_of retired }
{
    retired.map_or(Done::none(), Done::one)
}

impl Core {
    // One clock: answers, then the stages from the last to the first, so that an instruction passes one of them.
    pub fn clock(&mut self, inputs: Inputs) -> Outputs
        ensures after { self.new ≡ next self.old inputs }
        ensures value { result ≡ outputs self.old inputs }
    {
        take_code(&mut self.path, inputs.code);
        take_data(&mut self.path, inputs.answer);
        let retired = self.path.retire();
        let ask = memory(&mut self.path);
        execute(&mut self.path);
        read(&mut self.path);
        let request = self.port(ask);
        let want = fetch(&mut self.path);
        Outputs {
            want,
            request,
            stopped: self.path.halted(),
            done: done(retired),
        }
    }
}
