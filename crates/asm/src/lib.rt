// Text of programs: an assembler, a disassembler and a reader of hex words.
#![tactic(auto)]

pub mod assemble;
pub mod cursor;
pub mod error;
pub mod hex;
pub mod instruction;
pub mod listing;
pub mod names;
pub mod operands;
pub mod output;
pub mod program;
pub mod pseudo;
pub mod symbols;
pub mod text;
