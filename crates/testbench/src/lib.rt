// The core on the bench: programs loaded, run and compared with the manual.
#![tactic(auto)]

pub mod args;
pub mod checker;
pub mod effects;
pub mod failure;
pub mod files;
pub mod generator;
pub mod lines;
pub mod mismatch;
pub mod options;
pub mod ratio;
pub mod runner;
pub mod session;
pub mod setup;
pub mod summary;
pub mod trace;
pub mod versus;
