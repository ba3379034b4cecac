// The words of a program as they are placed.
use crate::cursor::{Cursor, aligned};
use crate::error::{Fault, Problem};
use crate::names::Mnemonic;
use crate::operands::Located;
use crate::program::{Placed, Program};
use crate::pseudo::{Pseudo, Words};
use crate::symbols::value;
use isa::devices::DEVICES;
use std::alloc::{AllocError, Global};
use std::collections::BTreeMap;

#[derive(Drop)]
pub struct Output {
    code: BTreeMap<u32, u32>,
    data: BTreeMap<u32, u32>,
    answers: Vec<u32>,
    start: Option<u32>,
    // The address of the first code.
    first: Option<u32>,
}

impl Output {
    pub fn new(heap: Global) -> Output {
        Output {
            code: BTreeMap::new(heap),
            data: BTreeMap::new(heap),
            answers: Vec::new(heap),
            start: None,
            first: None,
        }
    }

    // Does what a statement says, and answers where the next one stands.
    pub fn add(&mut self, located: Located) -> Result<Cursor, Fault> {
        let cursor = located.cursor;
        match located.statement.name {
            ".org" | ".data" | ".text" => {}
            ".word" => located.each_value(|i, word| self.place(cursor.on(i), word))?,
            ".answers" => located.each_value(|_, answer| Ok(self.answers.push(answer)?))?,
            ".start" => self.set_start(located)?,
            _ => {
                let words = located.words()?;
                self.place(cursor, words.first)?;
                if let Some(second) = words.second {
                    self.place(cursor.on(1), second)?;
                }
            }
        }
        cursor.after(located.statement)
    }

    // Puts a word at the cursor, where none may be yet.
    pub fn place(&mut self, cursor: Cursor, word: u32) -> Result<(), Problem> {
        let address = cursor.address();
        let old = if cursor.in_data {
            if address >= DEVICES {
                return Err(Problem::DeviceAddress(address));
            }
            self.data.insert(address, word)?
        } else {
            self.first.get_or_insert(address);
            self.code.insert(address, word)?
        };
        if old.is_some() {
            return Err(Problem::PlacedTwice(address));
        }
        Ok(())
    }

    fn set_start(&mut self, located: Located) -> Result<(), Fault> {
        let statement = located.statement;
        statement.expect(1)?;
        let address = statement.read(0, |text| aligned(value(located.symbols, text)?))?;
        if self.start.is_some() {
            return Err(Fault::operand(0, Problem::StartTwice));
        }
        self.start = Some(address);
        Ok(())
    }

    // It starts where it says, or else at its first code.
    pub fn program(self, heap: Global) -> Result<Program, AllocError> {
        let Output {
            code,
            data,
            answers,
            start,
            first,
        } = self;
        Ok(Program {
            code: placed(heap, code)?,
            data: placed(heap, data)?,
            answers,
            start: start.or(first).unwrap_or(0),
        })
    }
}

fn placed(heap: Global, words: BTreeMap<u32, u32>) -> Result<Vec<Placed>, AllocError> {
    words
        .into_iter()
        .map(|(address, word)| Placed { address, word })
        .collect(heap)
}

impl Located<'_, '_> {
    // The words of an instruction.
    fn words(self) -> Result<Words, Fault> {
        let name = self.statement.name;
        if name.starts_with('.') {
            return Err(Fault::name(Problem::UnknownDirective));
        }
        if let Ok(m) = name.parse::<Mnemonic>() {
            self.expect_code()?;
            return Ok(Words::one(self.instruction(m)?));
        }
        let p = name.parse::<Pseudo>()?;
        self.expect_code()?;
        self.pseudo_words(p)
    }

    // Refuses to stand among data.
    fn expect_code(self) -> Result<(), Fault> {
        if self.cursor.in_data {
            return Err(Fault::name(Problem::NotData));
        }
        Ok(())
    }
}
