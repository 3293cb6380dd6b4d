//! A change of what is known of a member.
//!
//! Defined in: `specs/Meaning/Changes.antt`.
//! Tested in: `lg_answers_tests/src/ring.rt`.
use lg_rules::{Name, Record};
use lg_timing::Moment;

/// What an event altered of a member.
#[derive(Clone, Copy, Debug, PartialEq, Eq)]
pub enum Altered {
    /// Its record is this one now.
    Recorded(Record),
    /// The member of this name, which failed or left, was forgotten.
    Forgotten(Name),
}

/// A change that an event made of what is known of a member.
#[derive(Clone, Copy, Debug, PartialEq, Eq)]
pub struct Change {
    /// How many events there were then, this one included.
    pub version: u64,
    /// The greatest moment handed in by then.
    pub moment: Moment,
    /// What was altered.
    pub altered: Altered,
}
