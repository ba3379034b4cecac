// Values of options.
ghost use Rattle.std.specs.Prelude.{◌≡◌, ◌%◌, All, IfOk, string_bytes};

use crate::failure::Failure;
use asm::program::Placed;
use asm::text::number;
use std::alloc::{AllocError, Global};

// What stands after an option, or a part of it.
#[derive(Clone, Copy)]
pub struct Value<'a> {
    pub heap: Global,
    pub option: &'a str,
    pub text: &'a str,
}

impl<'a> Value<'a> {
    pub fn string(self) -> Result<String, AllocError>
        ensures { IfOk result (λ s. string_bytes s ≡ self.entry.text.now) }
    {
        String::from_str(self.heap, self.text)
    }

    // A number, decimal or `0x` and hexadecimal.
    pub fn number(self) -> Result<u32, Failure> {
        number(self.text).try_map_err(|_| self.wrong("no number"))
    }

    // Numbers with commas between them, added to a list.
    pub fn numbers(self, list: &mut Vec<u32>) -> Result<(), Failure> {
        for part in self.text.split(',') {
            list.push(self.part(part).number()?)?;
        }
        Ok(())
    }

    // `ADDRESS=WORD,..`, added to a list. Its loop stands apart: with a closure, `aligned` for any predicate was tried and not admitted.
    pub fn placed(self, list: &mut Vec<Placed>) -> Result<(), Failure>
        ensures aligned { All (λ (p : Placed). p.address % 4 ≡ 0) list.old.items → All (λ (p : Placed). p.address % 4 ≡ 0) list.new.items }
    {
        for part in self.text.split(',') {
            list.push(self.part(part).one_placed()?)?;
        }
        Ok(())
    }

    fn one_placed(self) -> Result<Placed, Failure>
        ensures { IfOk result (λ p. p.address % 4 ≡ 0) }
    {
        let Some((address, word)) = self.text.split_once('=') else {
            return Err(self.wrong("not ADDRESS=WORD")?);
        };
        let address = self.part(address).number()?;
        if address % 4 != 0 {
            let heap = self.heap;
            let option = self.option;
            return Err(Failure::Input(format!(in heap;
                "{option}: not a multiple of 4: {address}"
            )?));
        }
        let word = self.part(word).number()?;
        Ok(Placed { address, word })
    }

    fn part(self, text: &'a str) -> Value<'a> {
        Value { text, ..self }
    }

    // That the text is not what it has to be.
    pub fn wrong(self, what: &str) -> Result<Failure, Failure> {
        let Value { heap, option, text } = self;
        Ok(Failure::Input(format!(in heap; "{option}: {what} '{text}'")?))
    }
}
