// What a run did: its traces, what it did to the outside, and how it ended.
ghost use Rattle.std.specs.Prelude.{◌≡◌, [], ◌∷◌, ◌++◌, None, OnOk};
ghost use Rattle.pins.specs.PortWords.{ret_of};
ghost use Rattle.reference.specs.Machine.{events_of};
ghost use Rattle.reference.specs.History.{rets_of, evs_of};

use crate::trace::{Effect, Halt};
use pins::ports::Retired;
use std::alloc::{AllocError, Global};

#[derive(Drop)]
pub struct History {
    pub traces: Vec<Retired>,
    pub effects: Vec<Effect>,
    // Why it ended, if before it had done as many instructions as it was to do.
    pub end: Option<Halt>,
}

impl History {
    pub(crate) fn new(heap: Global) -> History
        ensures traces { rets_of result ≡ [] }
        ensures effects { evs_of result ≡ [] }
        ensures end { result.end ≡ None }
    {
        History {
            traces: Vec::new(heap),
            effects: Vec::new(heap),
            end: None,
        }
    }

    // One instruction more.
    pub(crate) fn push(&mut self, trace: Retired, effect: Option<Effect>) -> Result<(), AllocError>
        ensures traces { OnOk result (rets_of self.new ≡ rets_of self.old ++ ret_of trace ∷ []) }
        ensures effects { OnOk result (evs_of self.new ≡ evs_of self.old ++ events_of effect) }
        ensures end { self.new.end ≡ self.old.end }
    {
        self.traces.push(trace)?;
        if let Some(effect) = effect {
            self.effects.push(effect)?;
        }
        Ok(())
    }

    // The same, ended so.
    pub(crate) fn ended(self, end: Option<Halt>) -> History
        ensures traces { rets_of result ≡ rets_of self }
        ensures effects { evs_of result ≡ evs_of self }
        ensures end { result.end ≡ end }
    {
        History { end, ..self }
    }
}
