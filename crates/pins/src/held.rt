// What a core keeps of a request to data memory or a device.
ghost use Rattle.std.specs.Prelude.{◌≡◌};
ghost use Rattle.pins.specs.Held.{write_of, with_answer, answer_of};

use crate::ports::Request;

// A store that is done and waits to be requested.
#[derive(Clone, Copy, PartialEq, Eq)]
pub struct Store {
    pub address: u32,
    pub value: u32,
}

impl From<Store> for Request {
    ghost from_gives = { λ store request. request ≡ write_of store };

    fn from(store: Store) -> Request {
        let Store { address, value } = store;
        Request::Write { address, value }
    }
}

// A word that is read: not requested; requested; answered. Three states, which an Option of an Option would hide.
#[derive(Clone, Copy, PartialEq, Eq)]
pub enum Reading {
    Idle,
    Waiting { address: u32 },
    Answered { address: u32, value: u32 },
}

impl Reading {
    // The answer comes.
    pub fn answered(self, word: u32) -> Reading
        ensures { result ≡ with_answer word self }
    {
        match self {
            Reading::Waiting { address } => Reading::Answered {
                address,
                value: word,
            },
            other => other,
        }
    }

    // The answer, once it has come.
    pub fn answer(self) -> Option<u32>
        ensures { result ≡ answer_of self }
    {
        match self {
            Reading::Answered { value, .. } => Some(value),
            _ => None,
        }
    }
}
