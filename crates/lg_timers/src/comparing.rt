//! What compares timers: it counts its comparisons, or it counts nothing.
//!
//! Defined in: `specs/Meaning/Timers.antt`.
//! Tested in: `lg_parts_tests/src/timers.rt`.
use crate::steps::Steps;
use crate::timer::Timer;

/// Compares timers. It may count its comparisons, and a contract sees how many it has counted.
pub(crate) trait Comparer {
    ghost use Rattle.std.specs.Prelude.{◌≡◌, ◌<◌, ◌≤◌, ◌+◌, ◌^◌, ℕ};
    ghost use Rattle.std.specs.Ordering.{is_lt};
    ghost use Rattle.lg_timers.specs.Meaning.Timers.{timer_cmp};

    // How many comparisons it has counted.
    ghost count: { Self → ℕ };

    // What each comparison adds to its count: 1, or 0 if it counts nothing.
    ghost adds: { ℕ };

    /// Whether the first timer fires before the other one if both are due. It may count one more comparison, so the
    /// count has to be below the greatest `u64`.
    fn is_before(&mut self, timer: &Timer, other: &Timer) -> bool
        requires room { count self.old + 1 < 2 ^ 64 }
        ensures before { result ≡ is_lt (timer_cmp timer.now other.now) }
        ensures counted { count self.new ≡ count self.old + adds }
        ensures once { adds ≤ 1 };
}

/// Compares timers and counts nothing: its count is always 0. It takes no memory.
#[derive(Debug, Drop)]
pub(crate) struct Uncounted;

impl Comparer for Uncounted {
    ghost count = { λ _. 0 };

    ghost adds = { 0 };

    fn is_before(&mut self, timer: &Timer, other: &Timer) -> bool {
        timer.is_before(other)
    }
}

impl Comparer for Steps {
    ghost count = { λ steps. steps };

    ghost adds = { 1 };

    fn is_before(&mut self, timer: &Timer, other: &Timer) -> bool {
        self.before(timer, other)
    }
}
