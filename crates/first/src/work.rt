// The instruction at work: what it does in a clock is decided from the state, and then done.
ghost use Rattle.std.specs.Prelude.{◌≡◌, if◌then◌else◌};
ghost use Rattle.first.specs.WorkRules.{core_start, no_stores, ask_device, forward_or_ask, load_action, outcome_action, action, retire, act, nothing, retired, effect};
ghost use Rattle.first.specs.declared.state.Action.TheVariants.{Wait, Write};
ghost use Rattle.isa.specs.Words.{add};
ghost use Rattle.first.specs.Step.{next, outputs};
ghost use Rattle.first.specs.StoreRules.{forwarded};

use crate::state::{Action, Core, Effect, Fetch, Lsu, Number};
use crate::stores::forward;
use isa::devices::DEVICES;
use isa::execute::{Outcome, perform};
use isa::reg::Reg;
use isa::regs::Regs;
use pins::held::{Reading, Store};
use pins::ports::{Done, Inputs, Outputs, Request, Retired};

impl Action {
    // The action, once it is ready.
    fn when(ready: bool, action: Action) -> Action
        ensures { result ≡ (if ready then action else Wait) }
    {
        if ready { action } else { Action::Wait }
    }
}

impl Core {
    // A core to which nothing has happened yet.
    pub fn start(address: u32) -> Core
        ensures { result ≡ core_start address }
    {
        Core {
            regs: Regs::new(),
            pc: address,
            number: Number(0),
            fetch: Fetch::start(address),
            lsu: Lsu::start(),
            stopped: None,
        }
    }

    fn no_stores(&self) -> bool
        ensures { result ≡ no_stores self.now }
    {
        self.lsu.stores.count == 0
    }

    // A device is read only when every store before is requested: the reading is seen outside.
    fn ask_device(&self, address: u32) -> Action
        ensures { result ≡ ask_device self.now address }
    {
        Action::when(self.lsu.room() && self.no_stores(), Action::Ask { address })
    }

    // The load is done, with the word that it got.
    fn loaded(&self, rd: Reg, value: u32) -> Action
        ensures { result ≡ Write rd value (add self.now.pc 4) }
    {
        Action::Write {
            rd,
            value,
            next: self.pc.wrapping_add(4),
        }
    }

    // A word of data comes from the newest waiting store to it, or is requested.
    fn ask_data(&self, rd: Reg, address: u32) -> Action
        ensures { result ≡ forward_or_ask self.now rd address (forwarded self.now.lsu.stores address) }
    {
        match forward(&self.lsu.stores, address) {
            Some(value) => self.loaded(rd, value),
            None => Action::when(self.lsu.room(), Action::Ask { address }),
        }
    }

    fn decide_load(&self, rd: Reg, address: u32) -> Action
        ensures { result ≡ load_action self.now rd address self.now.lsu.load }
    {
        match self.lsu.load {
            Reading::Idle => {
                if address >= DEVICES {
                    self.ask_device(address)
                } else {
                    self.ask_data(rd, address)
                }
            }
            Reading::Waiting { .. } => Action::Wait,
            Reading::Answered { value, .. } => self.loaded(rd, value),
        }
    }

    fn decide_outcome(&self, outcome: Outcome) -> Action
        ensures { result ≡ outcome_action self.now outcome }
    {
        match outcome {
            Outcome::Write { rd, value, next } => Action::Write { rd, value, next },
            Outcome::Jump { next } => Action::Jump { next },
            Outcome::Load { rd, address } => self.decide_load(rd, address),
            Outcome::Store { address, value } => Action::when(
                self.lsu.stores.count < 8,
                Action::Push(Store { address, value }),
            ),
            Outcome::Halt(stop) => Action::when(self.no_stores(), Action::Halt(stop)),
        }
    }

    // What the instruction at work does in this clock.
    pub fn decide(&self) -> Action
        ensures { result ≡ action self.now }
    {
        let None = self.stopped else {
            return Action::Wait;
        };
        let Some(word) = self.fetch.head() else {
            return Action::Wait;
        };
        self.decide_outcome(perform(&self.regs, self.pc, word))
    }
}

impl Effect {
    fn nothing() -> Effect
        ensures { result ≡ nothing }
    {
        Effect {
            done: Done::none(),
            request: None,
        }
    }

    fn retired(pc: u32, reg: u32, value: u32) -> Effect
        ensures { result ≡ retired pc reg value }
    {
        Effect {
            done: Done::one(Retired { pc, reg, value }),
            request: None,
        }
    }
}

impl Core {
    // The instruction at work is done, and the next is at `next`.
    fn retire(&mut self, next: u32)
        ensures { self.new ≡ retire self.old self.old.regs self.old.lsu next }
    {
        self.fetch.goto(self.pc, next);
        self.pc = next;
        self.number = Number(self.number.0.wrapping_add(1));
        self.lsu.load = Reading::Idle;
    }

    // Does what was decided.
    pub fn act(&mut self, action: Action) -> Effect
        ensures after { self.new ≡ act self.old action }
        ensures value { result ≡ effect self.old action }
    {
        let pc = self.pc;
        match action {
            Action::Wait => Effect::nothing(),
            Action::Halt(stop) => {
                self.stopped = Some(stop);
                Effect::nothing()
            }
            Action::Write { rd, value, next } => {
                self.regs.write(rd, value);
                self.retire(next);
                Effect::retired(pc, rd.number as u32, if rd.number == 0 { 0 } else { value })
            }
            Action::Jump { next } => {
                self.retire(next);
                Effect::retired(pc, 0, 0)
            }
            Action::Push(store) => {
                self.lsu.stores.push(store);
                self.retire(pc.wrapping_add(4));
                Effect::retired(pc, 0, 0)
            }
            Action::Ask { address } => {
                self.lsu.ask(address);
                Effect {
                    done: Done::none(),
                    request: Some(Request::Read { address }),
                }
            }
        }
    }

    // One clock: take the answer, work, take the code, drain a store, want code.
    #[tactic(auto, unfolding(crate::specs::Step::next, crate::specs::Step::outputs))]
    pub fn clock(&mut self, inputs: Inputs) -> Outputs
        ensures after { self.new ≡ next self.old inputs }
        ensures value { result ≡ outputs self.old inputs }
    {
        self.lsu.take(inputs.answer);
        let action = self.decide();
        let effect = self.act(action);
        self.fetch.take(inputs.code);
        let request = self.lsu.drain(effect.request);
        let want = self.fetch.want();
        Outputs {
            want,
            request,
            stopped: self.stopped,
            done: effect.done,
        }
    }
}
