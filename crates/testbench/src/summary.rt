// What a run came to.
ghost use Rattle.std.specs.Prelude.{◌≡◌, ◌+◌, ◌^◌, ◌<◌};

use crate::ratio::Ratio;
use crate::session::Clock;
use isa::execute::Stop;
use pins::ports::Retired;
use std::fmt;

#[derive(Clone, Copy, Default)]
pub struct Summary {
    pub clocks: u64,
    pub instructions: u64,
    pub last: Option<Retired>,
    pub stopped: Option<Stop>,
}

impl Summary {
    // Of no clock.
    pub fn new() -> Summary
        ensures { result.clocks ≡ 0 }
    {
        Summary::default()
    }

    // One clock more.
    pub fn add(&mut self, clock: &Clock)
        ensures clocks { self.old.clocks + 1 < 2 ^ 64 → self.new.clocks ≡ self.old.clocks + 1 }
        ensures stopped { self.new.stopped ≡ clock.now.outputs.stopped }
    {
        let done = clock.done();
        self.clocks = self.clocks.saturating_add(1);
        self.instructions = self.instructions.saturating_add(done.len() as u64);
        self.stopped = clock.outputs.stopped;
        self.last = done.last().copied().or(self.last);
    }
}

// `41 clocks, 19 instructions, 2.16 clocks per instruction`
impl fmt::Display for Summary {
    fn fmt<W: fmt::Write>(&self, f: &mut fmt::Formatter<W>) -> fmt::Result {
        let clocks = self.clocks;
        let instructions = self.instructions;
        write!(f, "{clocks} clocks, {instructions} instructions")?;
        if instructions > 0 {
            let ratio = Ratio::from(self);
            write!(f, ", {ratio} clocks per instruction")?;
        }
        Ok(())
    }
}
