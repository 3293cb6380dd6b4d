//! The health score, and how it lengthens the interval and the timeout of a probe.
//!
//! Defined in: `specs/Meaning/Score.antt`, `specs/Meaning/Config.antt`.
//! Tested in: `lg_parts_tests/src/timing.rt`.
ghost use Rattle.std.specs.Prelude.{◌≡◌, ◌≢◌, ◌≤◌, ℤ, pos, negsuc};
ghost use Rattle.std.specs.Prelude.{◌≤ℤ◌, ◌+◌, ◌*◌, List, ◌∷◌};
ghost use Rattle.lg_timing.specs.Meaning.Config.{IsChecked};
ghost use Rattle.lg_timing.specs.Meaning.Score.{score_of, marked};

use crate::config::{Config, MAX_INTERVAL_MS, MAX_SCORE};
use std::alloc::AllocError;
use std::marker::Model;

/// The longest scaled interval or scaled timeout, in milliseconds: 1,260,000, which is the longest interval at the
/// greatest score.
pub const MAX_SCALED_MS: u64 = MAX_INTERVAL_MS * (MAX_SCORE + 1);

/// The health score of a member, which Lifeguard calls its local health multiplier (LHM; local health aware probe).
/// It is the sum of the marks that the member earned, held between 0 and a greatest score at every mark.
///
/// A contract sees the value and the greatest score.
#[derive(Debug)]
pub struct Score {
    value: u64,
    max: u64,
}

impl Model for Score {
    ghost use Rattle.std.specs.Prelude.{◌≤◌};
    ghost use Rattle.lg_timing.specs.declared.config.TheConstants.{MAX_SCORE};
    ghost use Rattle.lg_timing.specs.Meaning.Score.{ScoreValue};

    ghost Value = { ScoreValue };

    ghost view = { λ s. record { value = s.value; max = s.max } };

    ghost invariant = { λ s. (s.value ≤ s.max) × (s.max ≤ MAX_SCORE) };

    ghost inverse = { λ s. record { value = s.value; max = s.max } };
}

impl Clone for Score {
    ghost use Rattle.std.specs.Prelude.{◌≡◌, ⊤};

    ghost is_clone = { λ it other. other ≡ it };

    ghost is_infallible = { λ _. ⊤ };

    fn clone(&self) -> Result<Self, AllocError> {
        Ok(*self)
    }
}

impl Copy for Score {}

impl Score {
    /// A score of 0, which is at most `max` from now on. `max` is 0 to [`MAX_SCORE`].
    pub fn new(max: u64) -> Score
        requires { max ≤ MAX_SCORE }
        ensures { result ≡ record { value = 0; max = max } }
    {
        Score { value: 0, max }
    }

    /// Adds a mark, -1, 1 or 2, and holds the sum between 0 and the greatest score.
    pub fn mark(&mut self, mark: i8)
        requires least { negsuc 0 ≤ℤ mark }
        requires most { mark ≤ℤ pos 2 }
        requires some { mark ≢ pos 0 }

        ensures marked { self.new ≡ marked self.old mark }

        // If the score was that of some marks (the latest first), it is now that of those and this one.
        ensures after { (past : List ℤ) → self.old.value ≡ score_of self.old.max past
            → self.new.value ≡ score_of self.old.max (mark ∷ past) }
    {
        self.value = match mark {
            1 => (self.value + 1).min(self.max),
            2 => (self.value + 2).min(self.max),
            _ => self.value.saturating_sub(1),
        };
    }

    /// The score, 0 to the greatest score.
    pub fn value(&self) -> u64
        ensures value { result ≡ self.now.value }
        ensures held { self.now.value ≤ self.now.max }
        ensures within { self.now.max ≤ MAX_SCORE }
    {
        self.value
    }

    /// The scaled interval in milliseconds: `interval_ms * (score + 1)`. It is at most [`MAX_SCALED_MS`].
    pub fn interval(&self, config: &Config) -> u64
        requires { IsChecked config.now }
        ensures scaled { result ≡ config.now.interval_ms * (self.now.value + 1) }
        ensures within { result ≤ MAX_SCALED_MS }
    {
        config.interval_ms * (self.value + 1)
    }

    /// The scaled timeout in milliseconds, `timeout_ms * (score + 1)`: how long a probe waits for its ack at this
    /// score. It is at most [`MAX_SCALED_MS`].
    pub fn timeout(&self, config: &Config) -> u64
        requires { IsChecked config.now }
        ensures scaled { result ≡ config.now.timeout_ms * (self.now.value + 1) }
        ensures within { result ≤ MAX_SCALED_MS }
    {
        config.timeout_ms * (self.value + 1)
    }
}
