// The operands of a statement, by their places from 0.
ghost use Rattle.std.specs.Prelude.{◌≡◌, ◌↔◌, [], IsErr, IfOk, IfErr, None};
ghost use Rattle.asm.specs.declared.error.Problem.TheVariants.{MissingOperand};

use crate::cursor::Cursor;
use crate::error::{AsmError, Fault, Problem};
use crate::names::{ZERO, register};
use crate::symbols::{Symbols, value};
use crate::text::Statement;
use isa::reg::Reg;
use std::cmp::Ordering;

impl<'a> Statement<'a> {
    // The text of the operand at a place, or nothing if it is missing; the name where there is no place.
    pub fn part(self, place: Option<usize>) -> &'a str
        ensures { place ≡ None → result.now ≡ self.entry.name.now }
    {
        let Some(place) = place else {
            return self.name;
        };
        self.text(place)
    }

    pub fn blame(self, fault: Fault, line: usize) -> AsmError<'a> {
        fault.problem.at(line, self.part(fault.place))
    }

    pub fn count(self) -> usize {
        if self.operands.is_empty() {
            0
        } else {
            self.operands.split(',').count()
        }
    }

    // Refuses more or fewer operands.
    pub fn expect(self, count: usize) -> Result<(), Fault> {
        match self.count().cmp(&count) {
            Ordering::Less => Err(Fault::name(Problem::MissingOperand)),
            Ordering::Greater => Err(Fault::name(Problem::TooManyOperands)),
            Ordering::Equal => Ok(()),
        }
    }

    // Refuses a list with nothing in it.
    pub fn expect_some(self) -> Result<(), Fault> {
        if self.count() == 0 {
            return Err(Fault::name(Problem::MissingOperand));
        }
        Ok(())
    }

    // An operand's text, or nothing if it is missing.
    fn text(self, place: usize) -> &'a str {
        self.operands.split(',').nth(place).unwrap_or("").trim()
    }

    // What an operand is read as.
    pub(crate) fn read<T, F: FnOnce(&'a str) -> Result<T, Problem>>(
        self,
        place: usize,
        f: F,
    ) -> Result<T, Fault>
        requires { F.IsAlwaysCallable f }
    {
        read(place, self.text(place), f)
    }

    // An operand by its place, from 0.
    pub fn operand(self, place: usize) -> Result<&'a str, Fault>
        ensures there { IfOk result (λ t. t.now ≡ [] → ⊥) }
        ensures error { IfErr result (λ f. (f.problem ≡ MissingOperand) × (f.place ≡ None)) }
    {
        present(self.text(place))
    }

    pub fn register(self, place: usize) -> Result<Reg, Fault> {
        self.read(place, |text| register(text).ok_or(Problem::BadRegister))
    }

    // The first operands, which are registers, of as many operands as `count`.
    pub(crate) fn registers<const N: usize>(self, count: usize) -> Result<[Reg; N], Fault> {
        self.expect(count)?;
        let mut all = [ZERO; N];
        for (place, reg) in all.iter_mut().enumerate() {
            *reg = self.register(place)?;
        }
        Ok(all)
    }
}

// A statement with what its operands depend on: where it stands, and the addresses of the labels.
#[derive(Clone, Copy)]
pub struct Located<'s, 'a> {
    pub statement: Statement<'a>,
    pub symbols: &'s Symbols<'a>,
    pub cursor: Cursor,
}

impl Located<'_, '_> {
    pub fn value(self, place: usize) -> Result<u32, Fault> {
        self.statement.read(place, |text| value(self.symbols, text))
    }

    // Calls a function with the place and the value of each operand, of at least one.
    pub(crate) fn each_value<F: FnMut(usize, u32) -> Result<(), Problem>>(
        self,
        mut f: F,
    ) -> Result<(), Fault>
        requires { F.IsAlwaysCallable f }
    {
        self.statement.expect_some()?;
        for (place, text) in self.statement.operands.split(',').enumerate() {
            let number = read(place, text.trim(), |text| value(self.symbols, text))?;
            f(place, number)?;
        }
        Ok(())
    }

    // How far a target lies from here.
    pub fn offset(self, place: usize) -> Result<u32, Fault> {
        Ok(self.value(place)?.wrapping_sub(self.cursor.address()))
    }

    // The register and the offset of an operand `offset(register)`.
    pub fn address(self, place: usize) -> Result<(Reg, u32), Fault> {
        self.statement
            .read(place, |text| address(self.symbols, text))
    }
}

// The text of an operand, which may not be missing.
fn present<'a>(text: &'a str) -> Result<&'a str, Fault>
    ensures missing { IsErr result ↔ (text.now ≡ []) }
    ensures same { IfOk result (λ t. t.now ≡ text.now) }
    ensures error { IfErr result (λ f. (f.problem ≡ MissingOperand) × (f.place ≡ None)) }
{
    if text.is_empty() {
        return Err(Fault::name(Problem::MissingOperand));
    }
    Ok(text)
}

// What the operand at `place` is read as, by its text.
fn read<'a, T, F: FnOnce(&'a str) -> Result<T, Problem>>(
    place: usize,
    text: &'a str,
    f: F,
) -> Result<T, Fault>
    requires { F.IsAlwaysCallable f }
{
    f(present(text)?).map_err(|problem| Fault::operand(place, problem))
}

// `offset(register)`, where no offset is 0.
fn address(symbols: &Symbols, text: &str) -> Result<(Reg, u32), Problem> {
    let (offset, rest) = text.rsplit_once('(').ok_or(Problem::BadAddress)?;
    let base = rest.strip_suffix(')').ok_or(Problem::BadAddress)?;
    let reg = register(base.trim()).ok_or(Problem::BadRegister)?;
    match offset.trim() {
        "" => Ok((reg, 0)),
        offset => Ok((reg, value(symbols, offset)?)),
    }
}
