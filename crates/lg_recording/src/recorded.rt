//! An entry that was read.
//!
//! Defined in: `specs/Meaning/Values.antt`, `specs/Meaning/Next.antt`.
//! Tested in: `lg_recording_tests/src/entries.rt`.

use lg_detector::{Event, Reply};

/// An entry of a recording that was read: its seat, its event, the reply to it, and for how long the node's clock stood
/// still before it. It takes some 14 KB.
#[derive(Debug, Drop)]
pub struct Recorded {
    /// The seat: 0 for the opening, otherwise that of the pass that made the call, from 1 to
    /// [`MAX_SEAT`](crate::MAX_SEAT).
    pub seat: usize,
    /// What happened.
    pub event: Event,
    /// What was replied to it.
    pub reply: Reply,
    /// For how many milliseconds the node's clock stood still since the entries that were taken before it.
    pub stood_still_ms: u64,
}
