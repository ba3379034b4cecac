// How long answers take.
ghost use Rattle.std.specs.Prelude.{◌≡◌, ◌≤◌};
ghost use Rattle.sim.specs.Delays.{most_of};

use crate::rng::Rng;
use std::fmt;

// The clocks that an answer waits: with 0 it comes in the clock after the request.
#[derive(Clone, Copy)]
pub enum Delay {
    Fixed(u32),
    // A random number, this one at most.
    UpTo(u32),
}

impl Delay {
    pub fn most(self) -> u32
        ensures { result ≡ most_of self }
    {
        match self {
            Delay::Fixed(clocks) | Delay::UpTo(clocks) => clocks,
        }
    }

    pub fn pick(self, rng: &mut Rng) -> u32
        ensures { result ≤ most_of self }
    {
        match self {
            Delay::Fixed(clocks) => clocks,
            Delay::UpTo(most) => rng.below(most.saturating_add(1)),
        }
    }
}

impl fmt::Display for Delay {
    fn fmt<W: fmt::Write>(&self, f: &mut fmt::Formatter<W>) -> fmt::Result {
        match self {
            Delay::Fixed(clocks) => write!(f, "{clocks}"),
            Delay::UpTo(most) => write!(f, "0..{most}"),
        }
    }
}
