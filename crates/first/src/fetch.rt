// The fetch unit: wants one word after the other, keeps up to two, drops what is no longer wanted.
ghost use Rattle.std.specs.Prelude.{◌≡◌};
ghost use Rattle.first.specs.FetchRules.{fetch_start, fetch_take, fetch_head, fetch_flush, fetch_goto, fetch_room, fetch_wanted, fetch_want};

use crate::state::Fetch;
use rings::queue::Queue;

impl Fetch {
    pub fn start(address: u32) -> Fetch
        ensures { result ≡ fetch_start address }
    {
        Fetch {
            words: Queue::new(0),
            coming: 0,
            stale: 0,
            next: address,
        }
    }

    // A word of code that comes: a stale one is dropped, one that nobody wants is ignored.
    pub fn take(&mut self, code: Option<u32>)
        ensures { self.new ≡ fetch_take self.old code }
    {
        let Some(word) = code else {
            return;
        };
        if self.stale > 0 {
            self.stale -= 1;
        } else if self.coming > 0 {
            self.words.push(word);
            self.coming -= 1;
        }
    }

    // The word of the instruction at work, if it has come.
    pub fn head(&self) -> Option<u32>
        ensures { result ≡ fetch_head self.now }
    {
        (self.words.count > 0).then_some(self.words.at[0])
    }

    // Throws away what was fetched ahead, and goes on at `address`.
    fn flush(&mut self, address: u32)
        ensures { self.new ≡ fetch_flush self.old address }
    {
        self.words.count = 0;
        self.stale = self.stale.wrapping_add(self.coming);
        self.coming = 0;
        self.next = address;
    }

    // The instruction at `pc` is done, and the next is at `address`.
    pub fn goto(&mut self, pc: u32, address: u32)
        ensures { self.new ≡ fetch_goto self.old pc address }
    {
        if address == pc.wrapping_add(4) {
            self.words.pop();
        } else {
            self.flush(address);
        }
    }

    fn room(&self) -> bool
        ensures { result ≡ fetch_room self.now }
    {
        self.words.count.wrapping_add(self.coming) < 2 && self.stale.wrapping_add(self.coming) < 4
    }

    // The next word of code is wanted.
    pub fn want(&mut self) -> Option<u32>
        ensures after { self.new ≡ fetch_wanted self.old }
        ensures value { result ≡ fetch_want self.old }
    {
        if !self.room() {
            return None;
        }
        let address = self.next;
        self.coming = self.coming.wrapping_add(1);
        self.next = address.wrapping_add(4);
        Some(address)
    }
}
