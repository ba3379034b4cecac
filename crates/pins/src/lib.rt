// The core's ports: what the two public calls answer, and the words of one clock.
#![tactic(auto)]

pub mod held;
pub mod laws;
pub mod ports;

ghost use Rattle.pins.specs.Cases.{Worked};

// The words that a core is lent, at least.
pub const CORE_WORDS: usize = 65_536;

// A core was started, or its words are too few. An enum and no Result: the promise of the call names these answers.
#[derive(Clone, Copy, PartialEq, Eq)]
pub enum Started {
    Ready,
    Few,
}

// A clock went by; or the words are no core; or the ports' words are not four and twenty. An enum like Started.
#[derive(Clone, Copy, PartialEq, Eq)]
pub enum Clocked {
    Done,
    NoCore,
    NoPorts,
}

// The worked examples hold of the manual's run, of the ports' words and of the outside.
pub fn worked_examples()
    ensures { Worked }
{}
