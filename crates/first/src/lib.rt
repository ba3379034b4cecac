// The first core: one instruction at work, code fetched ahead, stores that wait in a buffer of eight.
#![tactic(auto)]

mod fetch;
mod lsu;
pub mod state;
pub mod stores;
mod words;
mod work;

ghost use Rattle.pins.specs.Says.{StartedPost, ClockedPost};
ghost use Rattle.first.specs.Stands.{Stands};
ghost use Rattle.first.specs.Parts.{Parts};

use pins::ports::Inputs;
use pins::{CORE_WORDS, Clocked, Started};
use state::Core;

// Makes the words a core that begins at `address`, to which nothing has happened yet; fewer than 65,536 are too few.
pub fn start(address: u32, core: &mut [u32]) -> Started
    ensures post { StartedPost Stands address core.old core.new result }
    ensures parts { Parts }
{
    if core.len() < CORE_WORDS {
        return Started::Few;
    }
    Core::start(address).save(core);
    Started::Ready
}

// One clock: four words in, twenty out.
pub fn clock(core: &mut [u32], ins: &[u32], outs: &mut [u32]) -> Clocked
    ensures post { ClockedPost Stands core.old core.new ins.now outs.old outs.new result }
    ensures parts { Parts }
{
    let Some(inputs) = Inputs::read(ins) else {
        return Clocked::NoPorts;
    };
    if outs.len() != 20 {
        return Clocked::NoPorts;
    }
    let Some(mut state) = Core::load(core) else {
        return Clocked::NoCore;
    };
    let outputs = state.clock(inputs);
    state.save(core);
    outputs.write(outs);
    Clocked::Done
}
