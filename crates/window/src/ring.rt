// The window: the instructions at work as a ring, oldest first.
ghost use Rattle.std.specs.Prelude.{◌≡◌};
ghost use Rattle.window.specs.Scans.{decides};
ghost use Rattle.window.specs.Rings.{entry, writer_below, operand, store_below, source_in};

use crate::entry::{Entry, Source};
use crate::stores::{self, StoreBuffer};
use isa::reg::Reg;
use isa::regs::Regs;
use rings::ring::Ring;
use rings::search::newest;

// How many instructions can be at work. (The definition `size` says the same to the proofs.)
pub const SIZE: usize = 16;

pub type Window = Ring<Entry, SIZE>;

// The newest instruction before the n-th that may write the register.
fn writer(window: &Window, r: Reg, n: u32) -> Option<u32>
    ensures { result ≡ writer_below window.now r.number n }
{
    newest(n, |k| window.entry(k).writes(r))
}

// What the register holds for the n-th instruction: by the newest before it that writes it, or the register file. None: wait.
pub fn operand(window: &Window, regs: &Regs, r: Reg, n: u32) -> Option<u32>
    ensures { result ≡ operand window.now regs.now.values r.number n }
{
    if r.number == 0 {
        return Some(0);
    }
    match writer(window, r, n) {
        None => Some(regs.read(r)),
        Some(k) => window.entry(k).result(),
    }
}

// What the n-th instruction says of where the word of data with this number is, if that is up to it.
fn decides(window: &Window, number: u32, n: u32) -> Option<Source>
    ensures { result ≡ decides number (entry window.now n) }
{
    window.entry(n).decides(number)
}

// What the newest instruction before the n-th says that decides where the word of data with this number is.
fn decided(window: &Window, number: u32, n: u32) -> Option<Source>
    ensures { result ≡ store_below window.now number n }
{
    let k = newest(n, |k| decides(window, number, k).is_some())?;
    decides(window, number, k)
}

// Where the n-th instruction finds the word of data with this number: with an older instruction, a waiting store, or in memory.
pub fn source(window: &Window, stores: &StoreBuffer, number: u32, n: u32) -> Source
    ensures { result ≡ source_in window.now stores.now number n }
{
    decided(window, number, n).unwrap_or_else(|| stores::source(stores, number))
}
