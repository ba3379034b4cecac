// Clocks per instruction.
ghost use Rattle.std.specs.Prelude.{◌≡◌, ◌+◌, ◌*◌, ◌/◌, ◌^◌, ◌<◌, ◌↔◌, IsNone, IfSome};

use crate::summary::Summary;
use std::fmt;

#[derive(Clone, Copy)]
pub struct Ratio {
    pub clocks: u64,
    pub instructions: u64,
}

impl From<&Summary> for Ratio {
    ghost from_gives = { λ summary ratio. (ratio.clocks ≡ summary.now.clocks) × (ratio.instructions ≡ summary.now.instructions) };

    fn from(summary: &Summary) -> Ratio {
        Ratio {
            clocks: summary.clocks,
            instructions: summary.instructions,
        }
    }
}

impl Ratio {
    // In hundredths, rounded; none where no instruction is done.
    pub fn hundredths(self) -> Option<u64>
        ensures none { IsNone result ↔ (self.instructions ≡ 0) }
        ensures rounded { self.clocks * 100 + self.instructions / 2 < 2 ^ 64 → IfSome result (λ n. n ≡ (self.clocks * 100 + self.instructions / 2) / self.instructions) }
    {
        let half = self.instructions / 2;
        let hundreds = self.clocks.saturating_mul(100).saturating_add(half);
        hundreds.checked_div(self.instructions)
    }
}

// `1.43`
impl fmt::Display for Ratio {
    fn fmt<W: fmt::Write>(&self, f: &mut fmt::Formatter<W>) -> fmt::Result {
        match self.hundredths() {
            Some(n) => {
                let whole = n / 100;
                let part = n % 100;
                write!(f, "{whole}.{part:02}")
            }
            None => write!(f, "-"),
        }
    }
}
