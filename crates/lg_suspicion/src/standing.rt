//! How a suspicion stands: what a caller is told of it.
//!
//! Defined in: `specs/Meaning/Accusers.antt`.
//! Tested in: `lg_parts_tests/src/suspicion.rt`, `lg_detector_tests/src/detector/suspected.rt`.
use lg_timing::{Moment, SuspicionTimeout};

/// How the suspicion of a member stands (Lifeguard, local health aware suspicion).
///
/// It runs out at the moment at which it was raised plus `timeout.after(confirmations)` milliseconds.
#[derive(Clone, Copy, Debug)]
pub struct SuspicionStanding {
    /// When it was raised, in milliseconds.
    pub raised: Moment,
    /// Its timeouts, in milliseconds, and how many confirmations may count.
    pub timeout: SuspicionTimeout,
    /// How many confirmations came that count: the accusers that count, without the first.
    pub confirmations: u64,
}
