// A ring of N places: the oldest stands at `begin`, and `count` are held. An array, since a core has no heap.
ghost use Rattle.std.specs.Prelude.{◌≡◌, ℕ, ◌<◌, ◌≤◌, ◌^◌, Some, slice_get};
ghost use Rattle.rings.specs.RingRules.{ring_of, slot, pushed, popped};

#[derive(Clone, Copy, PartialEq, Eq)]
pub struct Ring<T, const N: usize> {
    pub begin: u32,
    pub count: u32,
    pub at: [T; N],
}

impl<T: Copy, const N: usize> Ring<T, N> {
    // Nothing held; `fill` stands in each place.
    pub fn new(fill: T) -> Ring<T, N>
        ensures { result ≡ ring_of fill }
    {
        Ring {
            begin: 0,
            count: 0,
            at: [fill; N],
        }
    }

    // Where the n-th oldest stands.
    pub fn slot(&self, n: u32) -> usize
        requires { 0 < N }
        ensures value { result ≡ slot self.now n }
        ensures upper_bound { result < N }
    {
        (self.begin as usize % N + n as usize % N) % N
    }

    // What stands there.
    pub fn entry(&self, n: u32) -> T
        requires { 0 < N }
        ensures { slice_get self.now.at (slot self.now n) ≡ Some result }
    {
        self.at[self.slot(n)]
    }

    // One more behind the newest; in a full ring it takes the oldest one's place.
    pub fn push(&mut self, x: T)
        requires { 0 < N }
        ensures { self.new ≡ pushed self.old x }
    {
        let i = self.slot(self.count);
        self.at[i] = x;
        self.count = self.count.wrapping_add(1);
    }

    // Without the oldest.
    pub fn pop(&mut self)
        requires nonzero { 0 < N }
        requires begin_fits { N ≤ 2 ^ 32 }
        ensures { self.new ≡ popped self.old }
    {
        self.begin = ((self.begin as usize % N + 1) % N) as u32;
        self.count = self.count.saturating_sub(1);
    }
}
