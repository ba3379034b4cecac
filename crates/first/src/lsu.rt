// The load-store unit: open requests in order, the load at work, and the stores that wait.
ghost use Rattle.std.specs.Prelude.{◌≡◌};
ghost use Rattle.first.specs.LsuRules.{lsu_start, lsu_take, lsu_ask, lsu_room, drains, lsu_drain, drain_request};

use crate::state::{Lsu, Open};
use pins::held::{Reading, Store};
use pins::ports::Request;
use rings::queue::Queue;
use rings::ring::Ring;

impl Lsu {
    pub fn start() -> Lsu
        ensures { result ≡ lsu_start }
    {
        Lsu {
            stores: Ring::new(Store {
                address: 0,
                value: 0,
            }),
            requests: Queue::new(Open::Acknowledgment),
            load: Reading::Idle,
        }
    }

    // An answer that comes; one that nobody waits for is ignored.
    pub fn take(&mut self, answer: Option<u32>)
        ensures { self.new ≡ lsu_take self.old answer }
    {
        let Some(word) = answer else {
            return;
        };
        if self.requests.count == 0 {
            return;
        }
        match self.requests.pop() {
            Open::Acknowledgment => {}
            Open::Load => {
                self.load = self.load.answered(word);
            }
        }
    }

    // Fewer than four requests are open.
    pub fn room(&self) -> bool
        ensures { result ≡ lsu_room self.now }
    {
        self.requests.count < 4
    }

    // The load at work is requested.
    pub fn ask(&mut self, address: u32)
        ensures { self.new ≡ lsu_ask self.old address }
    {
        self.requests.push(Open::Load);
        self.load = Reading::Waiting { address };
    }

    fn drains(&self) -> bool
        ensures { result ≡ drains self.now }
    {
        self.stores.count > 0 && self.room()
    }

    // The oldest waiting store takes the request port, if that is free.
    pub fn drain(&mut self, request: Option<Request>) -> Option<Request>
        ensures after { self.new ≡ lsu_drain self.old request }
        ensures value { result ≡ drain_request self.old request }
    {
        if request.is_some() || !self.drains() {
            return request;
        }
        let store = self.stores.entry(0);
        self.stores.pop();
        self.requests.push(Open::Acknowledgment);
        Some(store.into())
    }
}
