// Runs of the core.
ghost use Rattle.std.specs.Prelude.{◌≡◌, ◌≤◌, IfOk, IsNone};

use crate::failure::Failure;
use crate::session::{Clock, Session};
use crate::summary::Summary;

// Runs until it stops, or up to a number of clocks. `each` is called after each clock.
pub fn run<F: FnMut(&Session, &Clock) -> Result<(), Failure>>(
    session: &mut Session,
    limit: u64,
    mut each: F,
) -> Result<Summary, Failure>
    requires { F.IsAlwaysCallable each }
    ensures most { IfOk result (λ s. s.clocks ≤ limit) }
    ensures whole { IfOk result (λ s. IsNone s.stopped → s.clocks ≡ limit) }
{
    let mut summary = Summary::new();
    for _ in 0..limit {
        let clock = session.clock()?;
        summary.add(&clock);
        each(session, &clock)?;
        if summary.stopped.is_some() {
            break;
        }
    }
    Ok(summary)
}
