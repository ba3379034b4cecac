// Where the words of a text go.
ghost use Rattle.std.specs.Prelude.{◌≡◌, ◌+◌, ◌*◌, ◌%◌, ◌^◌};
ghost use Rattle.asm.specs.Cursors.{here};

use crate::error::{Fault, Problem};
use crate::pseudo::Pseudo;
use crate::text::{Statement, number};

// Whether it is code or data that is placed, and where the next word of each goes.
#[derive(Clone, Copy)]
pub struct Cursor {
    pub in_data: bool,
    code: u32,
    data: Option<u32>,
}

impl Cursor {
    pub const START: Cursor = Cursor {
        in_data: false,
        code: 0,
        data: None,
    };

    // The address of the next word.
    pub fn address(self) -> u32
        ensures { result ≡ here self }
    {
        if self.in_data {
            self.data.unwrap_or(0)
        } else {
            self.code
        }
    }

    // The same section, at another address.
    pub fn at(self, address: u32) -> Cursor
        ensures there { here result ≡ address }
        ensures section { result.in_data ≡ self.in_data }
    {
        if self.in_data {
            Cursor {
                data: Some(address),
                ..self
            }
        } else {
            Cursor {
                code: address,
                ..self
            }
        }
    }

    // Some words on; addresses go round at 2^32.
    pub fn on(self, words: usize) -> Cursor
        ensures there { here result ≡ (here self + 4 * words) % 2 ^ 32 }
        ensures section { result.in_data ≡ self.in_data }
    {
        let bytes = (words % (1 << 30)) as u32 * 4;
        self.at(self.address().wrapping_add(bytes))
    }

    // Where it stands after a statement.
    pub fn after(self, s: Statement) -> Result<Cursor, Fault> {
        match s.name {
            ".org" => Ok(self.at(fixed_address(s)?)),
            ".data" => self.to_data(s),
            ".text" => {
                s.expect(0)?;
                Ok(Cursor {
                    in_data: false,
                    ..self
                })
            }
            ".word" => Ok(self.on(s.count())),
            ".start" | ".answers" => Ok(self),
            _ => Ok(self.on(instruction_size(s)?)),
        }
    }

    // `.data address`, or `.data` to go on where the data stopped.
    fn to_data(self, s: Statement) -> Result<Cursor, Fault> {
        let address = if s.count() == 0 {
            self.data.ok_or(Problem::NoDataAddress)?
        } else {
            fixed_address(s)?
        };
        Ok(Cursor {
            in_data: true,
            data: Some(address),
            ..self
        })
    }
}

// The only operand, a number that is a multiple of 4.
fn fixed_address(s: Statement) -> Result<u32, Fault> {
    s.expect(1)?;
    s.read(0, |text| aligned(number(text)?))
}

// An address, if it is a multiple of 4.
pub(crate) fn aligned(address: u32) -> Result<u32, Problem> {
    if address % 4 != 0 {
        return Err(Problem::Misaligned(address));
    }
    Ok(address)
}

// How many words an instruction has.
fn instruction_size(s: Statement) -> Result<usize, Fault> {
    match s.name.parse::<Pseudo>() {
        Ok(p) if p.takes_both(s)? => Ok(2),
        _ => Ok(1),
    }
}
