// A core in a loop of four instructions, with all code answered at once.
use first::state::Core;
use pins::CORE_WORDS;
use pins::ports::Inputs;
use std::alloc::{AllocError, Global};

// addi x1, x1, 1; addi x2, x2, 2; add x3, x2, x1; jal x0, -12
const LOOP: [u32; 4] = [0x0010_8093, 0x0021_0113, 0x0011_01b3, 0xff5f_f06f];

// The words are arrays, as C lends them.
#[derive(Drop)]
pub struct Rig {
    core: Vec<u32>,
    ins: [u32; 4],
    outs: [u32; 20],
    pub retired: u64,
}

impl Rig {
    pub fn new(heap: Global) -> Result<Rig, AllocError> {
        let mut core = vec![in heap; 0u32; CORE_WORDS]?;
        let _ = ahead::start(0, &mut core);
        Ok(Rig {
            core,
            ins: [0; 4],
            outs: [0; 20],
            retired: 0,
        })
    }

    // One clock; what it wants of code is answered in the next.
    fn clock(&mut self) {
        let _ = ahead::clock(&mut self.core, &self.ins, &mut self.outs);
        self.answer();
    }

    fn answer(&mut self) {
        let [wants, address, _, _, _, _, _, done, ..] = self.outs;
        self.ins = [wants, LOOP[(address / 4 % 4) as usize], 0, 0];
        self.retired = self.retired.wrapping_add(u64::from(done));
    }

    pub fn clocks(&mut self, count: u64) {
        for _ in 0..count {
            self.clock();
        }
    }

    // The same on a core by value, which stays out of its words meanwhile. None where they are no core.
    pub fn steps(&mut self, count: u64) -> Option<()> {
        let mut core = Core::load(&self.core)?;
        for _ in 0..count {
            self.step(&mut core)?;
        }
        if self.core.len() >= CORE_WORDS {
            core.save(&mut self.core);
        }
        Some(())
    }

    fn step(&mut self, core: &mut Core) -> Option<()> {
        let inputs = Inputs::read(&self.ins)?;
        core.clock(inputs).write(&mut self.outs);
        self.answer();
        Some(())
    }
}
