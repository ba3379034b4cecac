// How a core can differ from the manual.
ghost use Rattle.std.specs.Prelude.{◌≡◌, MatchResult};
ghost use Rattle.testbench.specs.declared.mismatch.CheckError.TheVariants.{Differs, NoMemory};

use crate::failure::Failure;
use crate::lines::Shown;
use isa::execute::Stop;
use pins::ports::Retired;
use reference::trace::Effect;
use sim::error::WorldError;
use std::alloc::AllocError;
use thiserror::Error;

#[derive(Clone, Copy, Debug, Error)]
pub enum Mismatch {
    // An instruction is done; the manual does another, or has stopped, or has no answer of a device yet.
    #[error("the core has done {}, the manual does {}", Shown(*.core), Shown(*.manual))]
    Done { core: Retired, manual: Retired },
    #[error("the core has done {}, the manual stops", Shown(*.core))]
    DoneAfterStop { core: Retired },
    #[error("the core has done {}, which no device has answered", Shown(*.core))]
    DoneUnanswered { core: Retired },
    // A request; the manual makes another, or none yet.
    #[error("the core's request is {}, the manual's {}", Shown(*.core), Shown(*.manual))]
    Asked { core: Effect, manual: Effect },
    #[error("the core's request is {}, the manual does not make it yet", Shown(*.core))]
    AskedEarly { core: Effect },
    #[error("more than eight requests are still to be made")]
    Behind,
    // It stops; the manual stops otherwise, or does not, or something is still to be asked.
    #[error("the core stops with {}, the manual with {}", Shown(*.core), Shown(*.manual))]
    Stopped { core: Stop, manual: Stop },
    #[error("the core stops with {}, the manual goes on", Shown(*.core))]
    StoppedEarly { core: Stop },
    #[error("the core stops without the request {}", Shown(*.effect))]
    StoppedWithout { effect: Effect },
    // Asked and not answered.
    #[error("more than four words of code are open")]
    TooManyWants,
    #[error("more than four requests are open")]
    TooManyRequests,
    // For too many clocks.
    #[error("nothing was done in {clocks} clocks")]
    Idle { clocks: u64 },
    #[error("the request {} is late", Shown(*.effect))]
    Late { effect: Effect },
    #[error("the core refuses its own words")]
    NoCore,
    #[error("what the core shows has no meaning")]
    NoOutputs,
}

// A clock that the core or the world refuses is a difference; any other failure is handed back.
impl TryFrom<Failure> for Mismatch {
    type Error = Failure;

    fn try_from(failure: Failure) -> Result<Mismatch, Failure> {
        match failure {
            Failure::NoCore => Ok(Mismatch::NoCore),
            Failure::NoOutputs => Ok(Mismatch::NoOutputs),
            Failure::World(WorldError::TooManyWants) => Ok(Mismatch::TooManyWants),
            Failure::World(WorldError::TooManyRequests) => Ok(Mismatch::TooManyRequests),
            other => Err(other),
        }
    }
}

// A check that did not pass, or found no memory.
#[derive(Clone, Copy, Debug, Error)]
pub enum CheckError {
    #[error(transparent)]
    Differs(#[from] Mismatch),
    #[error("out of memory")]
    NoMemory(#[from(alloc)] AllocError),
}

// What differs; want of memory is handed back.
impl TryFrom<CheckError> for Mismatch {
    type Error = AllocError;

    ghost try_from_gives = { λ e r. MatchResult r (λ m. e ≡ Differs m) (λ a. e ≡ NoMemory a) };

    fn try_from(error: CheckError) -> Result<Mismatch, AllocError> {
        match error {
            CheckError::Differs(mismatch) => Ok(mismatch),
            CheckError::NoMemory(e) => Err(e),
        }
    }
}
