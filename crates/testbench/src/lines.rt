// The lines that show a run.
use asm::listing::Listing;
use asm::names::register_name;
use isa::execute::Stop;
use isa::reg::Reg;
use pins::ports::Retired;
use reference::trace::Effect;
use std::alloc::{AllocError, Global};
use std::fmt;

// A number, decimal and hexadecimal.
#[derive(Clone, Copy)]
pub struct Word(pub u32);

impl fmt::Display for Word {
    fn fmt<W: fmt::Write>(&self, f: &mut fmt::Formatter<W>) -> fmt::Result {
        let word = self.0;
        write!(f, "{word} ({word:#010x})")
    }
}

// Something of another crate, to be shown here.
#[derive(Clone, Copy)]
pub struct Shown<T>(pub T);

// An instruction that is done, and the register that it wrote: `0x00000000 t0 = 4 (0x00000004)`.
impl fmt::Display for Shown<Retired> {
    fn fmt<W: fmt::Write>(&self, f: &mut fmt::Formatter<W>) -> fmt::Result {
        let pc = self.0.pc;
        write!(f, "{pc:#010x}")?;
        if let Some(wrote) = Wrote::of(self.0) {
            write!(f, " {wrote}")?;
        }
        Ok(())
    }
}

impl fmt::Display for Shown<Effect> {
    fn fmt<W: fmt::Write>(&self, f: &mut fmt::Formatter<W>) -> fmt::Result {
        match self.0 {
            Effect::Write { address, value } => {
                let value = Word(value);
                write!(f, "write {address:#010x} <- {value}")
            }
            Effect::Ask { address } => write!(f, "ask {address:#010x}"),
        }
    }
}

impl fmt::Display for Shown<Stop> {
    fn fmt<W: fmt::Write>(&self, f: &mut fmt::Formatter<W>) -> fmt::Result {
        f.write_str(match self.0 {
            Stop::EnvCall => "ecall",
            Stop::Illegal => "illegal instruction",
            Stop::Misaligned => "misaligned address",
        })
    }
}

// What an instruction wrote: `t0 = 4 (0x00000004)`.
#[derive(Clone, Copy)]
struct Wrote {
    reg: u32,
    value: u32,
}

impl Wrote {
    // None where it wrote no register.
    fn of(retired: Retired) -> Option<Wrote> {
        let Retired { reg, value, .. } = retired;
        (reg != 0).then_some(Wrote { reg, value })
    }
}

impl fmt::Display for Wrote {
    fn fmt<W: fmt::Write>(&self, f: &mut fmt::Formatter<W>) -> fmt::Result {
        let reg = self.reg;
        let value = Word(self.value);
        if reg < 32 {
            let name = register_name(Reg { number: reg as u8 });
            write!(f, "{name} = {value}")
        } else {
            write!(f, "x{reg} = {value}")
        }
    }
}

// An instruction that is done, with its word: `0x00000000  addi t0, zero, 4          t0 = 4 (0x00000004)`.
pub fn instruction(heap: Global, retired: Retired, word: u32) -> Result<String, AllocError> {
    let pc = retired.pc;
    let listing = Listing { pc, word };
    let Some(wrote) = Wrote::of(retired) else {
        return format!(in heap; "{pc:#010x}  {listing}");
    };
    let text = listing.to_string(heap)?;
    format!(in heap; "{pc:#010x}  {text:<24}  {wrote}")
}
