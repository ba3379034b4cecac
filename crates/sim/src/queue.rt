// What is asked and not yet answered.
ghost use Rattle.std.specs.Prelude.{◌≡◌, ℕ, ◌≤◌, ◌↔◌, [], ◌∷◌, ◌++◌, MatchOption, OnOk, IsErr, IfErr, nat_le};
ghost use Rattle.std.specs.VecDeque.{deque_len};

use crate::error::WorldError;
use std::alloc::{AllocFailed, Global};
use std::collections::VecDeque;

// How many may be open at a time.
pub const MOST: usize = 4;

// Something asked, and the first clock that may answer it.
#[derive(Clone, Copy)]
pub struct Open<T> {
    pub asked: T,
    pub due: u64,
}

// Oldest first.
#[derive(Drop)]
pub struct Queue<T> {
    pub items: VecDeque<Open<T>>,
}

impl<T: Copy> Queue<T> {
    pub fn new(heap: Global) -> Queue<T>
        ensures { result.items.items ≡ [] }
    {
        Queue {
            items: VecDeque::new(heap),
        }
    }

    pub fn is_full(&self) -> bool
        ensures { result ≡ nat_le 4 (deque_len self.now.items) }
    {
        self.items.len() >= MOST
    }

    pub fn push(&mut self, asked: T, due: u64) -> Result<(), AllocFailed<Open<T>>>
        ensures { OnOk result (self.new.items.items ≡ self.old.items.items ++ record { asked = asked; due = due } ∷ []) }
    {
        self.items.push_back(Open { asked, due })
    }

    // Refuses with `full` where no more may be open.
    pub(crate) fn room(&self, full: WorldError) -> Result<(), WorldError>
        ensures refused { IsErr result ↔ (4 ≤ deque_len self.now.items) }
        ensures error { IfErr result (λ e. e ≡ full) }
    {
        if self.is_full() {
            return Err(full);
        }
        Ok(())
    }

    // Takes the oldest, if this clock may answer it.
    pub fn pop(&mut self, clock: u64) -> Option<T>
        ensures { MatchOption result (self.new.items.items ≡ self.old.items.items) (λ x. (due : ℕ) × (self.old.items.items ≡ record { asked = x; due = due } ∷ self.new.items.items) × (due ≤ clock)) }
    {
        let oldest = self.items.pop_front_if(|open| open.due <= clock)?;
        Some(oldest.asked)
    }
}
