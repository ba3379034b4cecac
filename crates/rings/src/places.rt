// What stands in a ring and in a queue, by its number: it is held where that is less than `count`.
ghost use Rattle.std.specs.Prelude.{◌≡◌, ℕ, ◌<◌, ◌≤◌, ◌^◌, Some, length, slice_get, nat_le};
ghost use Rattle.std.specs.Array.{IsMapOf};
ghost use Rattle.std.specs.Array.Iter.{IntoIterFitsInMemory};
ghost use Rattle.rings.specs.Places.{pushed_if_room, popped_if_any, queue_pushed_if_room, held, put_at, cut_to, queue_oldest, queue_shifted};

use crate::queue::Queue;
use crate::ring::Ring;

impl<T: Copy, const N: usize> Ring<T, N> {
    pub fn full(&self) -> bool
        ensures { result ≡ nat_le N self.now.count }
    {
        N <= self.count as usize
    }

    // One more behind the newest; a full ring stays as it is.
    pub fn push_if_room(&mut self, x: T)
        requires nonzero { 0 < N }
        requires count_fits { N < 2 ^ 32 }
        ensures { self.new ≡ pushed_if_room self.old x }
    {
        if self.full() {
            return;
        }
        self.push(x);
    }

    // Without the oldest; an empty ring stays as it is.
    pub fn pop_if_any(&mut self)
        requires nonzero { 0 < N }
        requires begin_fits { N ≤ 2 ^ 32 }
        ensures { self.new ≡ popped_if_any self.old }
    {
        if self.count == 0 {
            return;
        }
        self.pop();
    }

    // The n-th oldest.
    pub fn get(&self, n: u32) -> Option<T>
        requires { 0 < N }
        ensures { (d : T) → result ≡ held d self.now n }
    {
        if n < self.count {
            Some(self.entry(n))
        } else {
            None
        }
    }

    // Another in the place of the n-th oldest.
    pub fn put(&mut self, n: u32, x: T)
        requires { 0 < N }
        ensures { self.new ≡ put_at self.old n x }
    {
        if n < self.count {
            let i = self.slot(n);
            self.at[i] = x;
        }
    }

    // The n oldest alone.
    pub fn cut(&mut self, n: u32)
        ensures { self.new ≡ cut_to self.old n }
    {
        if n < self.count {
            self.count = n;
        }
    }
}

impl<T: Copy, const N: usize> Queue<T, N> {
    pub fn full(&self) -> bool
        ensures { result ≡ nat_le N self.now.count }
    {
        self.count as usize >= N
    }

    // One more behind the newest; a full queue stays as it is.
    pub fn push_if_room(&mut self, x: T)
        requires nonzero { 0 < N }
        requires count_fits { N < 2 ^ 32 }
        ensures { self.new ≡ queue_pushed_if_room self.old x }
    {
        if !self.full() {
            self.push(x);
        }
    }

    // What stands in front.
    pub fn oldest(&self) -> Option<T>
        requires { 0 < N }
        ensures { (d : T) → result ≡ queue_oldest d self.now }
    {
        if self.count > 0 {
            Some(self.at[0])
        } else {
            None
        }
    }

    // What stands in front; the others move up, and `fill` stands behind them.
    pub fn shift(&mut self, fill: T) -> T
        requires { 0 < N }
        ensures rest { self.new ≡ queue_shifted self.old fill }
        ensures oldest { slice_get self.old.at 0 ≡ Some result }
    {
        let oldest = self.pop();
        self.at[N - 1] = fill;
        oldest
    }

    // Each of them changed.
    pub fn map<F: FnMut(T) -> T>(self, f: F) -> Queue<T, N>
        requires fits { IntoIterFitsInMemory T.row N.row }
        requires callable { (f : _) (x : _) → F.pre f x }
        ensures count { result.count ≡ self.count }
        ensures places { length self.at ≡ N }
        ensures items { IsMapOf F.FnMut f self.at result.at N }
    {
        Queue {
            count: self.count,
            at: self.at.map(f),
        }
    }
}
