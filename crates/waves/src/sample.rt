// What the wires carry in one clock.
ghost use Rattle.std.specs.Prelude.{◌≡◌, length, map};

use crate::wires::Signal;
use first::state::Core;
use pins::held::Reading;
use pins::ports::{Done, Inputs, Outputs, Request, Retired};
use std::array;

#[derive(Clone, Copy)]
pub struct Sample {
    pub ports: [Signal; 25],
    pub inside: [Signal; 11],
}

// What they carry alone, each in its place.
#[derive(Clone, Copy)]
pub(crate) struct Carried {
    pub(crate) ports: [Option<u32>; 25],
    pub(crate) inside: [Option<u32>; 11],
}

impl Sample {
    pub(crate) fn carried(&self) -> Carried
        ensures ports { length self.now.ports ≡ 25 → result.ports ≡ map (λ s. s.value) self.now.ports }
        ensures inside { length self.now.inside ≡ 11 → result.inside ≡ map (λ s. s.value) self.now.inside }
    {
        Carried {
            ports: array::from_fn(|place| self.ports[place].value),
            inside: array::from_fn(|place| self.inside[place].value),
        }
    }

    // The core as the clock begins, what it is given and what it shows.
    pub fn new(core: &Core, inputs: &Inputs, outputs: &Outputs) -> Sample {
        Sample {
            ports: ports(inputs, outputs),
            inside: inside(core),
        }
    }

    // A core at its start, with nothing given or shown.
    pub fn idle() -> Sample {
        let inputs = Inputs {
            code: None,
            answer: None,
        };
        let outputs = Outputs {
            want: None,
            request: None,
            stopped: None,
            done: Done::none(),
        };
        Sample::new(&Core::start(0), &inputs, &outputs)
    }
}

// What is given, then what is shown.
fn ports(inputs: &Inputs, outputs: &Outputs) -> [Signal; 25] {
    let [read, write, address, value] = request(outputs.request);
    let how = outputs.stopped.map(u32::from);
    let [a, b, c, d] = done(&outputs.done);
    [
        Signal::flag("code_given", inputs.code.is_some()),
        Signal::word("code_word", inputs.code),
        Signal::flag("answer_given", inputs.answer.is_some()),
        Signal::word("answer_word", inputs.answer),
        Signal::flag("code_wanted", outputs.want.is_some()),
        Signal::word("code_address", outputs.want),
        read,
        write,
        address,
        value,
        Signal::flag("stopped", how.is_some()),
        Signal::bits("stopped_how", 2, how),
        Signal::bits("done_count", 3, Some(outputs.done.count)),
        Signal::word("done0_pc", a.map(|done| done.pc)),
        Signal::bits("done0_reg", 5, a.map(|done| done.reg)),
        Signal::word("done0_value", a.map(|done| done.value)),
        Signal::word("done1_pc", b.map(|done| done.pc)),
        Signal::bits("done1_reg", 5, b.map(|done| done.reg)),
        Signal::word("done1_value", b.map(|done| done.value)),
        Signal::word("done2_pc", c.map(|done| done.pc)),
        Signal::bits("done2_reg", 5, c.map(|done| done.reg)),
        Signal::word("done2_value", c.map(|done| done.value)),
        Signal::word("done3_pc", d.map(|done| done.pc)),
        Signal::bits("done3_reg", 5, d.map(|done| done.reg)),
        Signal::word("done3_value", d.map(|done| done.value)),
    ]
}

// Whether it reads, whether it writes, where and what.
fn request(request: Option<Request>) -> [Signal; 4] {
    let (read, write, address, value) = match request {
        None => (false, false, None, None),
        Some(Request::Read { address }) => (true, false, Some(address), None),
        Some(Request::Write { address, value }) => (false, true, Some(address), Some(value)),
    };
    [
        Signal::flag("data_read", read),
        Signal::flag("data_write", write),
        Signal::word("data_address", address),
        Signal::word("data_value", value),
    ]
}

// The instructions that are done, and none in the places after them.
fn done(done: &Done) -> [Option<Retired>; 4] {
    let done = done.retired();
    array::from_fn(|place| done.get(place).copied())
}

// The instruction at work and its word, its load, and how much is held, open and to come.
fn inside(core: &Core) -> [Signal; 11] {
    let word = core.fetch.head();
    let (waiting, answered, address) = match core.lsu.load {
        Reading::Idle => (false, false, None),
        Reading::Waiting { address } => (true, false, Some(address)),
        Reading::Answered { address, .. } => (false, true, Some(address)),
    };
    [
        Signal::word("pc", Some(core.pc)),
        Signal::flag("word_held", word.is_some()),
        Signal::word("word", word),
        Signal::flag("load_waiting", waiting),
        Signal::flag("load_answered", answered),
        Signal::word("load_address", address),
        Signal::bits("stores_held", 4, Some(core.lsu.stores.count)),
        Signal::bits("requests_open", 3, Some(core.lsu.requests.count)),
        Signal::bits("words_held", 2, Some(core.fetch.words.count)),
        Signal::bits("words_coming", 3, Some(core.fetch.coming)),
        Signal::bits("words_stale", 3, Some(core.fetch.stale)),
    ]
}
