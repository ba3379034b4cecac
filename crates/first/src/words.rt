// The core in its lent words: read from them, and written back.
ghost use Rattle.std.specs.Prelude.{◌≡◌, ℕ, ◌+◌, ◌<◌, ◌≤◌, ◌++◌, List, [], ◌∷◌, length, drop, ⊤};
ghost use Rattle.first.specs.Layout.{word, stop_of, regs_of, fetch_of, load_of, open_of, requests_of, store_of, stores_of, core_of, decode, stop_tag, fetch_words, load_words, open_tag, requests_words, stores_words, core_words, Shaped};
ghost use Rattle.first.specs.Back.{stop_back, regs_back, fetch_back, load_back, requests_back, stores_back};

use crate::state::{Core, Fetch, Lsu, Number, Open, OpenRequests, StoreBuffer};
use isa::execute::Stop;
use isa::regs::Regs;
use pins::CORE_WORDS;
use pins::held::{Reading, Store};
use rings::queue::Queue;
use rings::ring::Ring;
use std::array;

// What the first word of a first core is.
const MARK: u32 = 0x4649_5253;

// A part of the core, which stands in N words.
trait InWords<const N: usize>: Sized {
    // The part that words are.
    ghost of: { List ℕ → Self };

    // The words that a part is.
    ghost words_of: { Self → List ℕ };

    // Its arrays have their lengths.
    ghost Shaped: { Self → Type 0 };

    fn load(w: &[u32]) -> Self
        requires { length w.now ≡ N }
        ensures { result ≡ of w.now };

    fn words(&self) -> [u32; N]
        ensures is { result ≡ words_of self.now }
        ensures shaped { Shaped self.now };

    // What is written is read back.
    ghost back: { (part : Self) → Shaped part → of (words_of part) ≡ part };
}

impl InWords<1> for Option<Stop> {
    ghost of = { λ w. stop_of (word w 0) };

    ghost words_of = { λ stopped. stop_tag stopped ∷ [] };

    ghost Shaped = { λ _. ⊤ };

    ghost back = { stop_back };

    fn load(w: &[u32]) -> Option<Stop> {
        match w[0] {
            0 => None,
            1 => Some(Stop::EnvCall),
            2 => Some(Stop::Illegal),
            _ => Some(Stop::Misaligned),
        }
    }

    fn words(&self) -> [u32; 1] {
        match *self {
            None => [0],
            Some(stop) => [1 + u32::from(stop)],
        }
    }
}

impl InWords<6> for Fetch {
    ghost of = { fetch_of };

    ghost words_of = { fetch_words };

    ghost Shaped = { λ f. length f.words.at ≡ 2 };

    ghost back = { fetch_back };

    fn load(w: &[u32]) -> Fetch {
        Fetch {
            words: Queue {
                count: w[0],
                at: [w[1], w[2]],
            },
            coming: w[3],
            stale: w[4],
            next: w[5],
        }
    }

    fn words(&self) -> [u32; 6] {
        let [a, b] = self.words.at;
        [self.words.count, a, b, self.coming, self.stale, self.next]
    }
}

impl InWords<3> for Reading {
    ghost of = { load_of };

    ghost words_of = { load_words };

    ghost Shaped = { λ _. ⊤ };

    ghost back = { load_back };

    fn load(w: &[u32]) -> Reading {
        match w[0] {
            0 => Reading::Idle,
            1 => Reading::Waiting { address: w[1] },
            _ => Reading::Answered {
                address: w[1],
                value: w[2],
            },
        }
    }

    fn words(&self) -> [u32; 3] {
        match *self {
            Reading::Idle => [0, 0, 0],
            Reading::Waiting { address } => [1, address, 0],
            Reading::Answered { address, value } => [2, address, value],
        }
    }
}

impl From<u32> for Open {
    ghost from_gives = { λ tag kind. kind ≡ open_of tag };

    fn from(tag: u32) -> Open {
        if tag == 0 {
            Open::Acknowledgment
        } else {
            Open::Load
        }
    }
}

impl From<Open> for u32 {
    ghost from_gives = { λ kind tag. tag ≡ open_tag kind };

    fn from(kind: Open) -> u32 {
        match kind {
            Open::Acknowledgment => 0,
            Open::Load => 1,
        }
    }
}

impl InWords<5> for OpenRequests {
    ghost of = { requests_of };

    ghost words_of = { requests_words };

    ghost Shaped = { λ q. length q.at ≡ 4 };

    ghost back = { requests_back };

    fn load(w: &[u32]) -> OpenRequests {
        Queue {
            count: w[0],
            at: array::from_fn(|i| w[1 + i].into()),
        }
    }

    fn words(&self) -> [u32; 5] {
        let [a, b, c, d] = self.at;
        [self.count, a.into(), b.into(), c.into(), d.into()]
    }
}

fn store_at(w: &[u32], i: usize) -> Store
    requires { i + 1 < length w.now }
    ensures { result ≡ store_of w.now i }
{
    Store {
        address: w[i],
        value: w[i + 1],
    }
}

impl InWords<18> for StoreBuffer {
    ghost of = { stores_of };

    ghost words_of = { stores_words };

    ghost Shaped = { λ b. length b.at ≡ 8 };

    ghost back = { stores_back };

    #[tactic(auto, unfolding(crate::specs::Layout::stores_of))]
    fn load(w: &[u32]) -> StoreBuffer {
        Ring {
            begin: w[0],
            count: w[1],
            at: array::from_fn(|i| store_at(w, 2 + 2 * i)),
        }
    }

    // Written out: no method flattens eight pairs into one array.
    #[tactic(auto, unfolding(crate::specs::Layout::stores_words))]
    fn words(&self) -> [u32; 18] {
        let [a, b, c, d, e, f, g, h] = self.at;
        [
            self.begin, self.count, a.address, a.value, b.address, b.value, c.address, c.value,
            d.address, d.value, e.address, e.value, f.address, f.value, g.address, g.value,
            h.address, h.value,
        ]
    }
}

impl InWords<32> for Regs {
    ghost of = { regs_of };

    ghost words_of = { λ g. g.values };

    ghost Shaped = { λ g. length g.values ≡ 32 };

    ghost back = { regs_back };

    fn load(w: &[u32]) -> Regs {
        let mut values = [0u32; 32];
        values.copy_from_slice(w);
        Regs { values }
    }

    // By a copy of their own, which the compiler moves in few large pieces.
    fn words(&self) -> [u32; 32] {
        let mut values = [0u32; 32];
        values.copy_from_slice(&self.values);
        values
    }
}

impl Core {
    #[tactic(auto, unfolding(crate::specs::Layout::core_of))]
    fn read(w: &[u32]) -> Core
        requires { 65536 ≤ length w.now }
        ensures { result ≡ core_of w.now }
    {
        let lsu = Lsu {
            stores: StoreBuffer::load(&w[18..36]),
            requests: OpenRequests::load(&w[13..18]),
            load: Reading::load(&w[10..13]),
        };
        Core {
            regs: Regs::load(&w[36..68]),
            pc: w[1],
            number: Number(w[2]),
            fetch: Fetch::load(&w[4..10]),
            lsu,
            stopped: Option::load(&w[3..4]),
        }
    }

    // The core that the words are, or none.
    #[tactic(auto, unfolding(crate::specs::Layout::decode))]
    pub fn load(w: &[u32]) -> Option<Core>
        ensures { result ≡ decode w.now }
    {
        if w.len() < CORE_WORDS || w[0] != MARK {
            return None;
        }
        Some(Core::read(w))
    }

    // Writes the core into the first of the words.
    pub fn save(&self, w: &mut [u32])
        requires { 68 ≤ length w.old }
        ensures is { w.new ≡ core_words self.now ++ drop 68 w.old }
        ensures shaped { Shaped self.now }
    {
        let [stop]: [u32; 1] = self.stopped.words();
        w[0..4].copy_from_slice(&[MARK, self.pc, self.number.0, stop]);
        w[4..10].copy_from_slice(&self.fetch.words());
        w[10..13].copy_from_slice(&self.lsu.load.words());
        w[13..18].copy_from_slice(&self.lsu.requests.words());
        w[18..36].copy_from_slice(&self.lsu.stores.words());
        w[36..68].copy_from_slice(&self.regs.words());
    }
}
