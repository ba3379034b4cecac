// The pipeline: five stages over the window.
#![tactic(auto)]

mod rules;
pub mod stages;
pub mod state;
