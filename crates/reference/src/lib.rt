// The manual as a program: the reference model that cores are compared with.
#![tactic(auto)]

pub mod history;
pub mod machine;
pub mod memory;
pub mod trace;
