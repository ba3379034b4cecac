// Rows of a fixed size, by value: a ring, of which no element moves, and a queue, whose oldest stands in front.
#![tactic(auto)]

pub mod places;
pub mod queue;
pub mod ring;
pub mod search;
