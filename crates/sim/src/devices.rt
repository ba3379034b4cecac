// What devices answer.
use crate::rng::Rng;

// After the given answers: always 0, or random words.
#[derive(Clone, Copy)]
pub enum Rest {
    Zero,
    Random,
}

#[derive(Drop)]
pub struct Devices {
    pub answers: Vec<u32>,
    pub rest: Rest,
}

impl Devices {
    // The answer to the read of a device that comes after `told` others.
    pub fn answer(&self, told: usize, rng: &mut Rng) -> u32 {
        let given = self.answers.get(told).copied();
        given.unwrap_or_else(|| match self.rest {
            Rest::Zero => 0,
            Rest::Random => rng.word(),
        })
    }
}
