// What can be wrong with a program's text.
ghost use Rattle.std.specs.Prelude.{◌≡◌, Some, None};
ghost use Rattle.asm.specs.declared.error.Problem.TheVariants.{NoMemory};

use std::alloc::{AllocError, AllocFailed};
use std::error::Error;
use std::fmt;

// What is wrong, the line that has it, counted from 1, and the text that is at fault.
#[derive(Clone, Copy, Debug, PartialEq, Eq)]
pub struct AsmError<'a> {
    pub line: usize,
    pub problem: Problem,
    pub text: &'a str,
}

#[derive(Clone, Copy, Debug, PartialEq, Eq)]
pub enum Problem {
    UnknownInstruction,
    UnknownDirective,
    MissingOperand,
    TooManyOperands,
    BadRegister,
    BadNumber,
    BadAddress,
    OutOfRange,
    BadLabel,
    UndefinedLabel,
    LabelTwice,
    StartTwice,
    NotData,
    NoDataAddress,
    DeviceAddress(u32),
    Misaligned(u32),
    PlacedTwice(u32),
    NoMemory,
}

// By hand: the text at fault stands inside the message, and it is no part of the problem.
impl fmt::Display for AsmError<'_> {
    fn fmt<W: fmt::Write>(&self, f: &mut fmt::Formatter<W>) -> fmt::Result {
        let line = self.line;
        let text = self.text;
        write!(f, "line {line}: ")?;
        match self.problem {
            Problem::UnknownInstruction => write!(f, "unknown instruction '{text}'"),
            Problem::UnknownDirective => write!(f, "unknown directive '{text}'"),
            Problem::MissingOperand => write!(f, "missing operand of '{text}'"),
            Problem::TooManyOperands => write!(f, "too many operands of '{text}'"),
            Problem::BadRegister => write!(f, "unknown register '{text}'"),
            Problem::BadNumber => write!(f, "bad number '{text}'"),
            Problem::BadAddress => write!(f, "expected offset(register), found '{text}'"),
            Problem::OutOfRange => write!(f, "out of range: '{text}'"),
            Problem::BadLabel => write!(f, "bad label '{text}'"),
            Problem::UndefinedLabel => write!(f, "undefined label '{text}'"),
            Problem::LabelTwice => write!(f, "label '{text}' defined twice"),
            Problem::StartTwice => write!(f, "second start '{text}'"),
            Problem::NotData => write!(f, "instruction '{text}' among data"),
            Problem::NoDataAddress => write!(f, "the first '{text}' needs an address"),
            Problem::DeviceAddress(address) => write!(f, "data at device address {address:#x}"),
            Problem::Misaligned(address) => write!(
                f,
                "address {address:#x} is not a multiple of 4"
            ),
            Problem::PlacedTwice(address) => write!(f, "second word at address {address:#x}"),
            Problem::NoMemory => write!(f, "out of memory"),
        }
    }
}

impl Error for AsmError<'_> {}

impl Problem {
    // The same, on a line, with the text that is at fault.
    pub(crate) fn at<'a>(self, line: usize, text: &'a str) -> AsmError<'a> {
        AsmError {
            line,
            problem: self,
            text,
        }
    }
}

impl From<AllocError> for Problem {
    ghost from_gives = { λ _ p. p ≡ NoMemory };

    fn from(_e: AllocError) -> Problem {
        Problem::NoMemory
    }
}

impl<T: Drop> From<AllocFailed<T>> for Problem {
    ghost from_gives = { λ _ p. p ≡ NoMemory };

    fn from(_e: AllocFailed<T>) -> Problem {
        Problem::NoMemory
    }
}

// What is wrong with a statement, and the place of the operand that is at fault, or none if the name is.
#[derive(Clone, Copy, Debug, PartialEq, Eq)]
pub struct Fault {
    pub problem: Problem,
    pub place: Option<usize>,
}

impl Fault {
    pub fn name(problem: Problem) -> Fault
        ensures problem { result.problem ≡ problem }
        ensures place { result.place ≡ None }
    {
        Fault {
            problem,
            place: None,
        }
    }

    pub fn operand(place: usize, problem: Problem) -> Fault
        ensures problem { result.problem ≡ problem }
        ensures place { result.place ≡ Some place }
    {
        Fault {
            problem,
            place: Some(place),
        }
    }
}

impl From<Problem> for Fault {
    ghost from_gives = { λ p f. (f.problem ≡ p) × (f.place ≡ None) };

    fn from(problem: Problem) -> Fault {
        Fault::name(problem)
    }
}
