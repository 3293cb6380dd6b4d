//! The changes after a version, as far as a ring still has them.
//!
//! Defined in: `specs/Meaning/Kept.antt`.
//! Tested in: `lg_answers_tests/src/ring.rt`.
use crate::change::Change;
use crate::ring::Changes;

/// The changes after a version, as far as a ring still has them.
#[derive(Drop)]
pub enum Behind {
    /// All changes after it, the oldest first. There may be none.
    All(Vec<Change>),
    /// One of them at least is no longer kept. This is a copy of the whole ring, some 100 KB.
    Missed(Changes),
}
