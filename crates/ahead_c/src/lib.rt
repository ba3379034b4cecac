// The public calls for C: numbers for answers, and each slice as a pointer and then its length.
#![tactic(auto)]

ghost use Rattle.ahead_c.specs.Codes.{StartedFor, ClockedFor};

use pins::{Clocked, Started};

// 0: ready; 1: the words are too few.
#[unsafe(no_mangle)]
pub extern "C" fn ahead_start(address: u32, core: &mut [u32]) -> u32
    ensures { StartedFor address core.old core.new result }
{
    match ahead::start(address, core) {
        Started::Ready => 0,
        Started::Few => 1,
    }
}

// 0: done; 1: the words are no core; 2: the ports' words are not four and twenty.
#[unsafe(no_mangle)]
pub extern "C" fn ahead_clock(core: &mut [u32], ins: &[u32], outs: &mut [u32]) -> u32
    ensures { ClockedFor core.old core.new ins.now outs.old outs.new result }
{
    match ahead::clock(core, ins, outs) {
        Clocked::Done => 0,
        Clocked::NoCore => 1,
        Clocked::NoPorts => 2,
    }
}
