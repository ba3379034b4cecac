// What is recorded of a run: waveforms and a commit log.
#![tactic(auto)]

pub mod commit;
pub mod sample;
pub mod vcd;
pub mod wires;
