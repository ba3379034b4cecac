// The instruction set: words taken apart, and what one instruction does at given operands.
#![tactic(auto)]

pub mod alu;
pub mod decode;
pub mod devices;
pub mod execute;
pub mod fields;
pub mod instr;
pub mod laws;
pub mod reg;
pub mod regs;
