// The registers: an array of 32 by value. x0 reads as 0, whatever was written to its place.
ghost use Rattle.std.specs.Prelude.{◌≡◌, ℕ, ◌<◌};
ghost use Rattle.isa.specs.Words.{put};
ghost use Rattle.isa.specs.Registers.{value_in, no_regs};

use crate::reg::Reg;

#[derive(Clone, Copy, PartialEq, Eq)]
pub struct Regs {
    pub values: [u32; 32],
}

impl Regs {
    // All registers 0.
    pub fn new() -> Regs
        ensures { result ≡ no_regs }
    {
        Regs { values: [0; 32] }
    }

    pub fn read(&self, r: Reg) -> u32
        ensures { result ≡ value_in self.now.values r.number }
    {
        if r.number == 0 {
            0
        } else {
            self.values[r.number as usize]
        }
    }

    pub fn write(&mut self, r: Reg, v: u32)
        ensures { self.new.values ≡ put self.old.values r.number v }
    {
        self.values[r.number as usize] = v;
    }
}
