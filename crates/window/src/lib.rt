// The window: instructions at work, oldest first, each with what is known of it; and the laws of every core that has one.
#![tactic(auto)]

pub mod datapath;
pub mod entry;
pub mod known;
pub mod laws;
pub mod queues;
mod requests;
mod retire;
pub mod ring;
pub mod stores;
