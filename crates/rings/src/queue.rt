// A queue of N places: the oldest stands in front, and `count` are held. An array, since a core has no heap.
ghost use Rattle.std.specs.Prelude.{◌≡◌, ℕ, ◌<◌, Some, length, slice_get};
ghost use Rattle.rings.specs.QueueRules.{queue_of, queue_pushed, queue_popped};

#[derive(Clone, Copy, PartialEq, Eq)]
pub struct Queue<T, const N: usize> {
    pub count: u32,
    pub at: [T; N],
}

impl<T: Copy, const N: usize> Queue<T, N> {
    // Nothing held; `fill` stands in each place.
    pub fn new(fill: T) -> Queue<T, N>
        ensures { result ≡ queue_of fill }
    {
        Queue {
            count: 0,
            at: [fill; N],
        }
    }

    // One more behind the newest; in a full queue it takes the oldest one's place.
    pub fn push(&mut self, x: T)
        requires { 0 < N }
        ensures { self.new ≡ queue_pushed self.old x }
    {
        self.at[self.count as usize % N] = x;
        self.count = self.count.wrapping_add(1);
    }

    // What stands in front; the others move up.
    pub fn pop(&mut self) -> T
        requires { 0 < N }
        ensures rest { self.new ≡ queue_popped self.old }
        ensures oldest { slice_get self.old.at 0 ≡ Some result }
        ensures places { length self.old.at ≡ N }
    {
        let oldest = self.at[0];
        self.at.copy_within(1.., 0);
        self.count = self.count.saturating_sub(1);
        oldest
    }
}
