// The newest place that meets a test.
ghost use Rattle.std.specs.Prelude.{◌≡◌, ℕ, Bool};
ghost use Rattle.rings.specs.Searches.{Computes, newest_below};

// The newest before the n-th for which the test holds.
pub fn newest<F: Fn(u32) -> bool>(n: u32, holds: F) -> Option<u32>
    requires { F.IsAlwaysCallable holds }
    ensures { (f : ℕ → Bool) → Computes (F.post holds) f → result ≡ newest_below f n }
{
    let mut k = n;
    // A loop with a label that yields the place: the project asks for the form here.
    'search: loop {
        if k == 0 {
            break 'search None;
        }
        k -= 1;
        if holds(k) {
            break 'search Some(k);
        }
    }
}
