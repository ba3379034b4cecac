// What the open requests and the wanted words of code are for, oldest first: at most four of each.
ghost use Rattle.std.specs.Prelude.{◌≡◌, ℕ, Option, Some};
ghost use Rattle.window.specs.Machine.{popped, kept, retag, renumber};
ghost use Rattle.window.specs.Queues.{requests_by, fetches_by};

use crate::entry::{Number, Tag};
use rings::queue::Queue;

pub type Requests = Queue<Tag, 4>;

pub type Fetches = Queue<Option<Number>, 4>;

impl Number {
    // When the oldest is retired: one less, and none for the oldest itself.
    pub(crate) fn popped(self) -> Option<Number>
        ensures { result ≡ renumber popped (Some self) }
    {
        self.0.checked_sub(1).map(Number)
    }

    // When all from n on are flushed.
    pub(crate) fn kept(self, n: u32) -> Option<Number>
        ensures { result ≡ renumber (kept n) (Some self) }
    {
        if self.0 < n { Some(self) } else { None }
    }
}

impl Tag {
    pub(crate) fn popped(self) -> Tag
        ensures { result ≡ retag popped self }
    {
        match self {
            Tag::Load(number) => number.popped().map_or(Tag::Stale, Tag::Load),
            other => other,
        }
    }

    pub(crate) fn kept(self, n: u32) -> Tag
        ensures { result ≡ retag (kept n) self }
    {
        match self {
            Tag::Load(number) => number.kept(n).map_or(Tag::Stale, Tag::Load),
            other => other,
        }
    }
}

// A queue that names instructions at work by their numbers.
pub trait Numbered: Sized {
    // The same with each number changed, or gone.
    ghost by: { (ℕ → Option ℕ) → Self → Self };

    // The oldest instruction is retired.
    fn retired(&mut self)
        ensures { self.new ≡ by popped self.old };

    // The instructions from n on are flushed.
    fn flushed(&mut self, n: u32)
        ensures { self.new ≡ by (kept n) self.old };
}

impl Numbered for Requests {
    ghost by = { requests_by };

    fn retired(&mut self) {
        *self = self.map(|tag| tag.popped());
    }

    fn flushed(&mut self, n: u32) {
        *self = self.map(|tag| tag.kept(n));
    }
}

impl Numbered for Fetches {
    ghost by = { fetches_by };

    fn retired(&mut self) {
        *self = self.map(|fetch| fetch.and_then(Number::popped));
    }

    fn flushed(&mut self, n: u32) {
        *self = self.map(|fetch| fetch.and_then(|number| number.kept(n)));
    }
}
