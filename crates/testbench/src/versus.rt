// The core and the manual side by side.
use crate::checker::Checker;
use crate::failure::Failure;
use crate::mismatch::Mismatch;
use crate::session::{Clock, Session};
use crate::setup::Setup;
use crate::summary::Summary;
use std::alloc::Global;
use thiserror::Error;

// The first clock in which they differ, and how.
#[derive(Clone, Copy, Debug, Error)]
#[error("clock {clock}: {mismatch}")]
pub struct Difference {
    pub clock: u64,
    pub mismatch: Mismatch,
}

// Runs both until they stop, or up to a number of clocks: what that came to, or the first difference.
pub fn versus(
    heap: Global,
    setup: &Setup,
    limit: u64,
) -> Result<Result<Summary, Difference>, Failure> {
    let mut session = setup.session(heap)?;
    let mut checker = setup.checker(heap)?;
    let mut summary = Summary::new();
    for number in 0..limit {
        match clock(&mut session, &mut checker)? {
            Ok(clock) => summary.add(&clock),
            Err(mismatch) => return Ok(Err(Difference {
                clock: number,
                mismatch,
            })),
        }
        if summary.stopped.is_some() {
            break;
        }
    }
    Ok(Ok(summary))
}

// One clock of both.
fn clock(session: &mut Session, checker: &mut Checker) -> Result<Result<Clock, Mismatch>, Failure> {
    let clock = match session.clock() {
        Ok(clock) => clock,
        Err(failure) => return Ok(Err(Mismatch::try_from(failure)?)),
    };
    match checker.check(&session.world.told, &clock) {
        Ok(()) => Ok(Ok(clock)),
        Err(error) => Ok(Err(Mismatch::try_from(error)?)),
    }
}
