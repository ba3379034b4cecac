// The outside of a core: memories and devices that answer after a time.
#![tactic(auto)]

pub mod delay;
pub mod devices;
pub mod error;
pub mod queue;
pub mod rng;
pub mod world;
