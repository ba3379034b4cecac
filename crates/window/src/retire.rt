// Retiring the oldest instruction, and requests: the machine's rules on the datapath.
ghost use Rattle.std.specs.Prelude.{◌≡◌};
ghost use Rattle.window.specs.Retiring.{numbers_popped, moved_on, write_done, plain_done, written, load_retired, load_done, store_retired, store_done, outcome_retired, outcome_done, retired, done, drained, drain_request};

use crate::datapath::Datapath;
use crate::entry::{Entry, Tag};
use crate::queues::Numbered;
use isa::execute::Outcome;
use isa::reg::Reg;
use pins::held::{Reading, Store};
use pins::ports::{Request, Retired};

impl Datapath {
    // The oldest leaves the window: in the queues each number is one less.
    fn pop_numbers(&mut self)
        ensures { self.new ≡ numbers_popped self.old }
    {
        self.requests.retired();
        self.fetches.retired();
    }

    // It goes on at `next`: after a right prediction the younger ones stay, after a wrong one they are flushed.
    fn move_on(&mut self, predicted: u32, next: u32)
        ensures { self.new ≡ moved_on self.old predicted next }
    {
        if next == predicted {
            self.pop_numbers();
            self.window.pop_if_any();
        } else {
            self.flush(0);
        }
        self.pc = next;
        self.device = Reading::Idle;
    }

    // What is shown of an instruction that writes a register, or none.
    fn write_done(&self, rd: Reg, value: u32) -> Retired
        ensures { result ≡ write_done self.now rd.number value }
    {
        Retired {
            pc: self.pc,
            reg: u32::from(rd.number),
            value: if rd.number == 0 { 0 } else { value },
        }
    }

    fn retire_write(&mut self, e: Entry, rd: Reg, value: u32, next: u32) -> Retired
        ensures core { self.new ≡ written self.old e rd.number value next }
        ensures shows { result ≡ write_done self.old rd.number value }
    {
        let shown = self.write_done(rd, value);
        self.regs.write(rd, value);
        self.move_on(e.predicted, next);
        shown
    }

    // No register is written: retire_write at x0 would write x0's place.
    fn retire_plain(&mut self, e: Entry, next: u32) -> Retired
        ensures core { self.new ≡ moved_on self.old e.predicted next }
        ensures shows { result ≡ plain_done self.old }
    {
        let shown = self.write_done(Reg { number: 0 }, 0);
        self.move_on(e.predicted, next);
        shown
    }

    // A load, once its word is there: from memory or an older store, or from the device.
    fn retire_load(&mut self, e: Entry, rd: Reg) -> Option<Retired>
        ensures core { self.new ≡ load_retired self.old e rd.number e.loaded }
        ensures shows { result ≡ load_done self.old rd.number e.loaded }
    {
        let value = e.loaded.or(self.device.answer())?;
        Some(self.retire_write(e, rd, value, self.pc.wrapping_add(4)))
    }

    // A store, if the buffer has room for it.
    fn retire_store(&mut self, e: Entry, store: Store) -> Option<Retired>
        ensures core { self.new ≡ store_retired self.old e store }
        ensures shows { result ≡ store_done self.old }
    {
        if self.stores.full() {
            return None;
        }
        self.stores.push(store);
        Some(self.retire_plain(e, self.pc.wrapping_add(4)))
    }

    fn retire_outcome(&mut self, e: Entry, outcome: Outcome) -> Option<Retired>
        ensures core { self.new ≡ outcome_retired self.old e outcome }
        ensures shows { result ≡ outcome_done self.old e outcome }
    {
        match outcome {
            Outcome::Write { rd, value, next } => Some(self.retire_write(e, rd, value, next)),
            Outcome::Jump { next } => Some(self.retire_plain(e, next)),
            Outcome::Load { rd, .. } => self.retire_load(e, rd),
            Outcome::Store { address, value } => self.retire_store(e, Store { address, value }),
            Outcome::Halt(_) => None,
        }
    }

    // The oldest, if it can be retired.
    pub fn retire(&mut self) -> Option<Retired>
        ensures core { self.new ≡ retired self.old }
        ensures shows { result ≡ done self.old }
    {
        let e = self.window.get(0)?;
        self.retire_outcome(e, e.outcome?)
    }

    // The oldest waiting store goes out.
    pub fn drain(&mut self) -> Option<Request>
        ensures core { self.new ≡ drained self.old }
        ensures shows { result ≡ drain_request self.old }
    {
        if self.stores.count == 0 {
            return None;
        }
        let store = self.stores.entry(0);
        self.stores.pop();
        self.requests.push_if_room(Tag::Acknowledgment);
        Some(store.into())
    }
}
