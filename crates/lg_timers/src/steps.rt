//! How many comparisons of timers were made.
//!
//! Defined in: this file.
//! Tested in: `lg_parts_tests/src/timers.rt`.
ghost use Rattle.std.specs.Prelude.{◌≡◌, ◌<◌, ◌+◌, ◌^◌};
ghost use Rattle.std.specs.Ordering.{is_lt};
ghost use Rattle.lg_timers.specs.Meaning.Timers.{timer_cmp};

use crate::timer::Timer;
use std::marker::Model;

/// The most comparisons of timers of its heap that one call of [`crate::Timers`] makes: 24.
pub const MAX_STEPS: u64 = 24;

/// A count of comparisons of timers. A contract sees it as its number.
#[derive(Debug, Drop)]
pub struct Steps {
    count: u64,
}

impl Model for Steps {
    ghost use Rattle.std.specs.Prelude.{ℕ};

    ghost Value = { ℕ };

    ghost view = { λ s. s.count };
}

impl Default for Steps {
    ghost use Rattle.std.specs.Prelude.{◌≡◌};

    ghost is_default = { λ s. s ≡ 0 };

    fn default() -> Self {
        Steps::new()
    }
}

impl Steps {
    /// No comparison was made yet.
    pub fn new() -> Steps
        ensures { result ≡ 0 }
    {
        Steps { count: 0 }
    }

    /// How many comparisons were made.
    pub fn count(&self) -> u64
        ensures { result ≡ self.now }
    {
        self.count
    }

    /// Whether the first timer fires before the other one if both are due. This is one more comparison, so the count
    /// has to be below the greatest `u64`.
    pub fn before(&mut self, timer: &Timer, other: &Timer) -> bool
        requires { self.old + 1 < 2 ^ 64 }
        ensures before { result ≡ is_lt (timer_cmp timer.now other.now) }
        ensures counted { self.new ≡ self.old + 1 }
    {
        self.count += 1;
        timer.is_before(other)
    }
}
