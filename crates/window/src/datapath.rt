// The state of a core with a window, but for its tables; and the machine's rules on it.
ghost use Rattle.std.specs.Prelude.{◌≡◌};
ghost use Rattle.window.specs.Machine.{executed, forwarded};
ghost use Rattle.window.specs.Datapaths.{datapath_start, named, operand_for, left_for, right_for, outcome_for, forward_by, forward_for, ruled, Learns, code_for, code_taken, data_for, data_taken, next_pc_of, flushed, redirect_to, redirected, wanted};

use crate::entry::{Entry, Number, Source, Tag};
use crate::known::{left_register, right_register, work};
use crate::queues::{Fetches, Numbered, Requests};
use crate::ring::{Window, operand, source};
use crate::stores::StoreBuffer;
use isa::devices::DEVICES;
use isa::execute::Outcome;
use isa::reg::Reg;
use isa::regs::Regs;
use pins::held::{Reading, Store};

#[derive(Clone, Copy)]
pub struct Datapath {
    pub regs: Regs,
    pub pc: u32,
    pub stores: StoreBuffer,
    // The device that the oldest reads.
    pub device: Reading,
    pub window: Window,
    pub requests: Requests,
    pub fetches: Fetches,
}

impl Entry {
    // With its outcome, if its word and its operands are there.
    fn executed(self) -> Option<Entry>
        ensures { result ≡ executed self }
    {
        let outcome = work(self.pc, self.word?, self.left?, self.right?);
        Some(self.with_outcome(outcome))
    }

    fn outcome_for(self) -> Option<Entry>
        ensures { result ≡ outcome_for self }
    {
        if self.outcome.is_some() {
            return None;
        }
        self.executed()
    }

    fn forwarded(self, source: Source) -> Option<Entry>
        ensures { result ≡ forwarded self source }
    {
        match source {
            Source::Forwarded(x) => Some(self.with_loaded(x)),
            _ => None,
        }
    }
}

impl Datapath {
    // Nothing has happened yet.
    pub fn start(address: u32) -> Datapath
        ensures { result ≡ datapath_start address }
    {
        Datapath {
            regs: Regs::new(),
            pc: address,
            stores: StoreBuffer::new(Store {
                address: 0,
                value: 0,
            }),
            device: Reading::Idle,
            window: Window::new(Entry::new(0, 0)),
            requests: Requests::new(Tag::Acknowledgment),
            fetches: Fetches::new(None),
        }
    }

    // An operand of the n-th instruction, by the register that its word names: if it is not known yet, and can be.
    fn operand_for(&self, n: u32, known: Option<u32>, register: Option<Reg>) -> Option<u32>
        ensures { result ≡ operand_for self.now n known (named register) }
    {
        if known.is_some() {
            return None;
        }
        operand(&self.window, &self.regs, register?, n)
    }

    // What the n-th instruction, which is e, learns by each rule.
    fn left_for(&self, n: u32, e: Entry) -> Option<Entry>
        ensures { result ≡ left_for self.now n e }
    {
        let x = self.operand_for(n, e.left, e.word.map(left_register))?;
        Some(e.with_left(x))
    }

    fn right_for(&self, n: u32, e: Entry) -> Option<Entry>
        ensures { result ≡ right_for self.now n e }
    {
        let x = self.operand_for(n, e.right, e.word.map(right_register))?;
        Some(e.with_right(x))
    }

    fn forward_by(&self, n: u32, e: Entry, outcome: Outcome) -> Option<Entry>
        ensures { result ≡ forward_by self.now n e outcome }
    {
        match outcome {
            Outcome::Load { address, .. } if address < DEVICES => {
                e.forwarded(source(&self.window, &self.stores, address / 4, n))
            }
            _ => None,
        }
    }

    fn forward_for(&self, n: u32, e: Entry) -> Option<Entry>
        ensures { result ≡ forward_for self.now n e }
    {
        if e.loaded.is_some() {
            return None;
        }
        self.forward_by(n, e, e.outcome?)
    }

    // The n-th instruction learns by a rule, if there is one.
    fn learn<F: FnOnce(&Datapath, Entry) -> Option<Entry>>(&mut self, n: u32, rule: F)
        requires { F.IsAlwaysCallable rule }
        ensures { Learns (λ e o. (k : _) × (k.now ≡ self.old) × F.post rule k e o) self.old n self.new }
    {
        if let Some(e) = self.window.get(n)
            && let Some(d) = rule(self, e)
        {
            self.window.put(n, d);
        }
    }

    pub fn read_left(&mut self, n: u32)
        ensures { self.new ≡ ruled left_for self.old n }
    {
        self.learn(n, |path, e| path.left_for(n, e));
    }

    pub fn read_right(&mut self, n: u32)
        ensures { self.new ≡ ruled right_for self.old n }
    {
        self.learn(n, |path, e| path.right_for(n, e));
    }

    pub fn execute(&mut self, n: u32)
        ensures { self.new ≡ ruled (λ _ _ e. outcome_for e) self.old n }
    {
        self.learn(n, |_, e| e.outcome_for());
    }

    pub fn forward(&mut self, n: u32)
        ensures { self.new ≡ ruled forward_for self.old n }
    {
        self.learn(n, |path, e| path.forward_for(n, e));
    }

    // A word of code that came, for an instruction at work or for nobody.
    fn code_for(&mut self, x: u32, fetch: Option<Number>)
        ensures { self.new ≡ code_for self.old x fetch }
    {
        if let Some(number) = fetch {
            self.learn(number.0, |_, e| Some(e.with_word(x)));
        }
    }

    pub fn take_code(&mut self, x: u32)
        ensures { self.new ≡ code_taken self.old x }
    {
        if let Some(fetch) = self.fetches.oldest() {
            self.fetches.shift(None);
            self.code_for(x, fetch);
        }
    }

    // An answer to a request, by what it was for.
    fn data_for(&mut self, x: u32, tag: Tag)
        ensures { self.new ≡ data_for self.old x tag }
    {
        match tag {
            Tag::Acknowledgment | Tag::Stale => {}
            Tag::Load(number) => {
                self.learn(number.0, |_, e| Some(e.with_loaded(x)));
            }
            Tag::Device => {
                self.device = self.device.answered(x);
            }
        }
    }

    pub fn take_data(&mut self, x: u32)
        ensures { self.new ≡ data_taken self.old x }
    {
        if let Some(tag) = self.requests.oldest() {
            self.requests.shift(Tag::Acknowledgment);
            self.data_for(x, tag);
        }
    }

    // The instructions from n on are flushed.
    pub(crate) fn flush(&mut self, n: u32)
        ensures { self.new ≡ flushed self.old n }
    {
        self.window.cut(n);
        self.requests.flushed(n);
        self.fetches.flushed(n);
    }

    // The n-th instruction, which is e, is predicted to be followed by `next`: what is younger is flushed.
    fn redirect_to(&mut self, n: u32, next: u32, e: Entry)
        ensures { self.new ≡ redirect_to self.old n next e }
    {
        let m = n.wrapping_add(1);
        self.window.put(n, e.with_predicted(next));
        self.flush(m);
    }

    pub fn redirect(&mut self, n: u32, next: u32)
        ensures { self.new ≡ redirected self.old n next }
    {
        if let Some(e) = self.window.get(n) {
            self.redirect_to(n, next, e);
        }
    }

    // Where the next word of code is, by the predictions so far.
    pub fn next_pc(&self) -> u32
        ensures { result ≡ next_pc_of self.now }
    {
        let youngest = self.window.get(self.window.count.saturating_sub(1));
        youngest.map_or(self.pc, |e| e.predicted)
    }

    // The next word of code is wanted, and `predicted` to be followed by another.
    pub fn fetch(&mut self, predicted: u32)
        ensures { self.new ≡ wanted self.old predicted }
    {
        let number = Number(self.window.count);
        let pc = self.next_pc();
        self.window.push_if_room(Entry::new(pc, predicted));
        self.fetches.push_if_room(Some(number));
    }
}
