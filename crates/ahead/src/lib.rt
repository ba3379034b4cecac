// The public calls: a core that is started and clocked in lent words, at its ports.
#![tactic(auto)]

ghost use Rattle.pins.specs.Says.{StartedPost, ClockedPost};
ghost use Rattle.first.specs.Stands.{Stands};
ghost use Rattle.first.specs.Parts.{Parts};

use pins::{Clocked, Started};

// Makes the words a core that begins at `address`, to which nothing has happened yet; fewer than 65,536 are too few.
pub fn start(address: u32, core: &mut [u32]) -> Started
    ensures post { StartedPost Stands address core.old core.new result }
    ensures parts { Parts }
{
    first::start(address, core)
}

// One clock: four words in, twenty out.
pub fn clock(core: &mut [u32], ins: &[u32], outs: &mut [u32]) -> Clocked
    ensures post { ClockedPost Stands core.old core.new ins.now outs.old outs.new result }
    ensures parts { Parts }
{
    first::clock(core, ins, outs)
}
