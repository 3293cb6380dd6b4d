//! How long a suspicion lasts: the suspicion timeout, and how confirmations shorten it.
//!
//! Defined in: `specs/Meaning/Timeouts.antt`, `specs/Meaning/TimeoutValue.antt`, `specs/Meaning/Config.antt`.
//! Tested in: `lg_parts_tests/src/timing.rt`, `cases/timeouts.case`.
ghost use Rattle.std.specs.Prelude.{◌≡◌, ◌≤◌};
ghost use Rattle.lg_timing.specs.Meaning.Config.{IsChecked};
ghost use Rattle.lg_timing.specs.Meaning.Timeouts.{confirmations_of, range_of, timeout_of, suspicion_of};

use crate::config::{Config, MAX_CONFIRMATIONS};
use crate::tables::{MAX_LIVE, log10_thousandths, ratio};
use std::alloc::AllocError;
use std::marker::Model;

/// The longest timeout of a suspicion, in milliseconds: 57,792,000. It is the one for the greatest factors, the
/// longest interval and the greatest logarithm.
pub const MAX_SUSPICION_MS: u64 = 57_792_000;

/// The timeouts of one suspicion: the greatest with no confirmation, down to the least once all the confirmations
/// that count have come (Lifeguard, local health aware suspicion).
///
/// A contract sees the least and the greatest timeout and the number of confirmations. The default has zeros.
#[derive(Debug)]
pub struct SuspicionTimeout {
    min_ms: u64,
    max_ms: u64,
    confirmations: u64,
}

impl Model for SuspicionTimeout {
    ghost use Rattle.lg_timing.specs.Meaning.TimeoutValue.{TimeoutValue};
    ghost use Rattle.lg_timing.specs.Support.Timeouts.{HasTimeouts};

    ghost Value = { TimeoutValue };

    ghost view = { λ t. record { min = t.min_ms; max = t.max_ms; confirmations = t.confirmations } };

    ghost invariant = { λ t. HasTimeouts t.min_ms t.max_ms t.confirmations };

    ghost inverse = { λ r. record { min_ms = r.min; max_ms = r.max; confirmations = r.confirmations } };
}

impl Clone for SuspicionTimeout {
    ghost use Rattle.std.specs.Prelude.{◌≡◌, ⊤};

    ghost is_clone = { λ it other. other ≡ it };

    ghost is_infallible = { λ _. ⊤ };

    fn clone(&self) -> Result<Self, AllocError> {
        Ok(*self)
    }
}

impl Copy for SuspicionTimeout {}

impl Default for SuspicionTimeout {
    ghost use Rattle.std.specs.Prelude.{◌≡◌};

    ghost is_default = { λ t. t ≡ record { min = 0; max = 0; confirmations = 0 } };

    fn default() -> Self {
        SuspicionTimeout {
            min_ms: 0,
            max_ms: 0,
            confirmations: 0,
        }
    }
}

/// How many confirmations count for a suspicion raised among `live` members that aren't gone: `confirmations` of
/// the configuration, or 0 if `live` is less than that plus 2 (this project's choice).
fn confirmations_among(live: u64, config: &Config) -> u64
    requires { IsChecked config.now }
    ensures { result ≡ confirmations_of live config.now }
{
    if live < config.confirmations + 2 {
        0
    } else {
        config.confirmations
    }
}

impl SuspicionTimeout {
    /// The timeouts of a suspicion raised among `live` members that aren't gone, this member included: 1 to
    /// [`MAX_LIVE`].
    pub fn new(live: u64, config: &Config) -> SuspicionTimeout
        requires checked { IsChecked config.now }
        requires some { 1 ≤ live }
        requires within { live ≤ MAX_LIVE }
        ensures { result ≡ range_of live config.now }
    {
        let min_ms = config.alpha * log10_thousandths(live) * config.interval_ms / 1000;
        SuspicionTimeout {
            min_ms,
            max_ms: config.beta * min_ms,
            confirmations: confirmations_among(live, config),
        }
    }

    /// The least timeout, in milliseconds: 10 to 2,889,600, or 0 by default.
    pub fn min_ms(&self) -> u64
        ensures { result ≡ self.now.min }
    {
        self.min_ms
    }

    /// The greatest timeout, in milliseconds: 10 to [`MAX_SUSPICION_MS`], or 0 by default.
    pub fn max_ms(&self) -> u64
        ensures { result ≡ self.now.max }
    {
        self.max_ms
    }

    /// After how many confirmations the timeout is the least: 0 to [`MAX_CONFIRMATIONS`].
    pub fn confirmations(&self) -> u64
        ensures confirmations { result ≡ self.now.confirmations }
        ensures within { self.now.confirmations ≤ MAX_CONFIRMATIONS }
    {
        self.confirmations
    }

    /// The timeout after c confirmations, at most the k that count, in milliseconds: 10 to [`MAX_SUSPICION_MS`], or 0
    /// by default.
    ///
    /// It is `max - (max - min) * log(c + 1) / log(k + 1)`, with the quotient of the logarithms in thousandths and
    /// all divisions rounding down. That is `max` with no confirmation, and `min` with k (Lifeguard, local health
    /// aware suspicion). If k is 0 it is always `min` (this project's choice).
    pub fn after(&self, confirmations: u64) -> u64
        requires { confirmations ≤ self.now.confirmations }
        ensures timeout { result ≡ timeout_of self.now confirmations }
        ensures within { result ≤ MAX_SUSPICION_MS }
    {
        let saved = (self.max_ms - self.min_ms) * ratio(self.confirmations, confirmations) / 1000;
        self.max_ms - saved
    }
}

/// The timeout of a suspicion raised among `live` members that aren't gone, after some confirmations, in
/// milliseconds: 10 to [`MAX_SUSPICION_MS`]. `live` is 1 to [`MAX_LIVE`], and `confirmations` at most the number that
/// counts among `live` members.
pub fn suspicion_ms(live: u64, confirmations: u64, config: &Config) -> u64
    requires checked { IsChecked config.now }
    requires some { 1 ≤ live }
    requires within { live ≤ MAX_LIVE }
    requires counted { confirmations ≤ confirmations_of live config.now }
    ensures { result ≡ suspicion_of live confirmations config.now }
{
    SuspicionTimeout::new(live, config).after(confirmations)
}
