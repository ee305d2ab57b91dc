//! The ranges of a job's numbers.
ghost use Rattle.std.specs.Prelude.{◌≡◌, ◌&&◌, nat_le};
ghost use Rattle.jobs.specs.Ranges.{in_range};

use crate::refusal::Refusal;

/// The least and the most that a number may be.
#[derive(Clone, Copy, PartialEq, Eq, Debug)]
pub struct Bounds {
    pub least: u32,
    pub most: u32,
}

impl Bounds {
    pub fn contains(self, n: u32) -> bool
        ensures { result ≡ (nat_le self.least n && nat_le n self.most) }
    {
        (self.least..=self.most).contains(&n)
    }

    /// The number, if the bounds contain it; any other is refused.
    pub fn accept(self, n: u32) -> Result<u32, Refusal>
        ensures { result ≡ in_range self.least self.most n }
    {
        if self.contains(n) {
            Ok(n)
        } else {
            Err(Refusal::Range)
        }
    }
}

/// A job's number.
pub const NUMBERS: Bounds = Bounds {
    least: 1,
    most: 65_535,
};
/// A computation time.
pub const COMPUTATIONS: Bounds = Bounds {
    least: 1,
    most: 1_000_000,
};
/// The time from an arrival to its deadline.
pub const DEADLINES_IN: Bounds = Bounds {
    least: 1,
    most: 100_000_000,
};
/// A tolerance.
pub const TOLERANCES: Bounds = Bounds {
    least: 0,
    most: 100_000_000,
};
/// A value.
pub const VALUES: Bounds = Bounds {
    least: 0,
    most: 65_535,
};
/// The threshold of a shelter.
pub const THRESHOLDS: Bounds = Bounds {
    least: 0,
    most: 1_000_000,
};
/// The ticks that are worked in one call.
pub const TICKS: Bounds = Bounds {
    least: 1,
    most: 10_000,
};
/// The last tick of the clock.
pub const LAST_TICK: u32 = 1_000_000_000;
/// How many jobs a list holds at most.
pub const CAPACITY: usize = 64;
