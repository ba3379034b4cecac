// One instruction at work: what it learns, and what it leaves for those behind it.
ghost use Rattle.std.specs.Prelude.{◌≡◌, ℕ, ◌<◌};
ghost use Rattle.window.specs.Entries.{fresh, with_word, with_left, with_right, with_outcome, with_loaded, with_predicted};
ghost use Rattle.window.specs.Operands.{target, is_store, left_register, right_register, written_register, may_store, work_with};
ghost use Rattle.window.specs.Scans.{hits_outcome, hits, leaves_outcome, leaves, stored, decides};

use crate::entry::{Entry, Source};
use isa::decode::decode;
use isa::devices::DEVICES;
use isa::execute::{Outcome, Stop, execute};
use isa::instr::Instr;
use isa::reg::Reg;

// The register that an instruction writes, or x0.
pub fn target(instr: Instr) -> Reg
    ensures { result.number ≡ target instr }
{
    match instr {
        Instr::Lui { rd, .. }
        | Instr::Auipc { rd, .. }
        | Instr::Jal { rd, .. }
        | Instr::Jalr { rd, .. }
        | Instr::Load { rd, .. }
        | Instr::AluImm { rd, .. }
        | Instr::AluReg { rd, .. }
        | Instr::MulDiv { rd, .. } => rd,
        Instr::Branch { .. } | Instr::Store { .. } | Instr::Ecall => Reg { number: 0 },
    }
}

fn stores(instr: Instr) -> bool
    ensures { result ≡ is_store instr }
{
    matches!(instr, Instr::Store { .. })
}

// The registers that a word reads and writes, or x0.
pub fn left_register(word: u32) -> Reg
    ensures { result.number ≡ left_register word }
{
    decode(word).map_or(Reg { number: 0 }, Instr::rs1)
}

pub fn right_register(word: u32) -> Reg
    ensures { result.number ≡ right_register word }
{
    decode(word).map_or(Reg { number: 0 }, Instr::rs2)
}

pub fn written_register(word: u32) -> Reg
    ensures { result.number ≡ written_register word }
{
    decode(word).map_or(Reg { number: 0 }, target)
}

fn may_store(word: u32) -> bool
    ensures { result ≡ may_store word }
{
    decode(word).is_some_and(stores)
}

// What a word does at its address and the values of its operands.
#[tactic(auto, unfolding(crate::specs::Operands::work_with))]
pub fn work(pc: u32, word: u32, x: u32, y: u32) -> Outcome
    ensures { result ≡ work_with pc word x y }
{
    if pc % 4 != 0 {
        return Outcome::Halt(Stop::Misaligned);
    }
    decode(word).map_or(
        Outcome::Halt(Stop::Illegal),
        |instr| execute(instr, pc, x, y),
    )
}

// May it write the register?
fn outcome_writes(outcome: Outcome, r: Reg) -> bool
    ensures { result ≡ hits_outcome r.number outcome }
{
    match outcome {
        Outcome::Write { rd, .. } | Outcome::Load { rd, .. } => rd == r,
        Outcome::Jump { .. } | Outcome::Store { .. } => false,
        Outcome::Halt(_) => true,
    }
}

// What it leaves in the register that it writes; None: wait.
fn outcome_result(outcome: Outcome, loaded: Option<u32>) -> Option<u32>
    ensures { result ≡ leaves_outcome loaded outcome }
{
    match outcome {
        Outcome::Write { value, .. } => Some(value),
        Outcome::Load { .. } => loaded,
        _ => None,
    }
}

// Is it a store to the word of data with this number?
fn stored(outcome: Outcome, number: u32) -> Option<Source>
    ensures { result ≡ stored number outcome }
{
    match outcome {
        Outcome::Store { address, value } if address < DEVICES && address / 4 == number => {
            Some(Source::Forwarded(value))
        }
        _ => None,
    }
}

impl Entry {
    // Its word is wanted, and nothing is known yet.
    pub fn new(pc: u32, predicted: u32) -> Entry
        ensures { result ≡ fresh pc predicted }
    {
        Entry {
            pc,
            predicted,
            word: None,
            left: None,
            right: None,
            outcome: None,
            loaded: None,
        }
    }

    // With its word; and below with what else it learns: an update and a definition for each field.
    pub fn with_word(self, x: u32) -> Entry
        ensures { result ≡ with_word self x }
    {
        Entry {
            word: Some(x),
            ..self
        }
    }

    pub fn with_left(self, x: u32) -> Entry
        ensures { result ≡ with_left self x }
    {
        Entry {
            left: Some(x),
            ..self
        }
    }

    pub fn with_right(self, x: u32) -> Entry
        ensures { result ≡ with_right self x }
    {
        Entry {
            right: Some(x),
            ..self
        }
    }

    pub fn with_outcome(self, o: Outcome) -> Entry
        ensures { result ≡ with_outcome self o }
    {
        Entry {
            outcome: Some(o),
            ..self
        }
    }

    pub fn with_loaded(self, x: u32) -> Entry
        ensures { result ≡ with_loaded self x }
    {
        Entry {
            loaded: Some(x),
            ..self
        }
    }

    // Another prediction of where the next is.
    pub fn with_predicted(self, next: u32) -> Entry
        ensures { result ≡ with_predicted self next }
    {
        Entry {
            predicted: next,
            ..self
        }
    }

    // May it write the register?
    pub fn writes(&self, r: Reg) -> bool
        ensures { result ≡ hits r.number self.now }
    {
        match self.outcome {
            Some(outcome) => outcome_writes(outcome, r),
            None => self.word.is_none_or(|word| written_register(word) == r),
        }
    }

    // What it leaves in the register that it writes; None: wait.
    pub fn result(&self) -> Option<u32>
        ensures { result ≡ leaves self.now }
    {
        outcome_result(self.outcome?, self.loaded)
    }

    // Where a load behind it finds the word of data with this number, if that is up to this instruction.
    pub fn decides(&self, number: u32) -> Option<Source>
        ensures { result ≡ decides number self.now }
    {
        match self.outcome {
            Some(outcome) => stored(outcome, number),
            None => self.word.is_none_or(may_store).then_some(Source::Unknown),
        }
    }
}
