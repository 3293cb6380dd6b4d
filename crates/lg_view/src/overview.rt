//! What one look finds of the whole group and of this member.
//!
//! Defined in: `specs/Meaning/Views.antt`, `specs/Meaning/Changes.antt`, `lg_detector/specs/Meaning/Ask.antt`.
//! Tested in: `lg_agent_tests/src/view/looks.rt`.

use lg_changes::Behind;
use lg_detector::Standing;
use lg_rules::Record;
use lg_timing::Moment;

/// What one look found. All of it is of one list of events, so its parts agree.
#[derive(Drop)]
pub struct Overview {
    /// How many events the list has.
    pub version: u64,
    /// The greatest moment handed in.
    pub moment: Moment,
    /// The records of all members, this one's included, in the order of their names.
    pub records: Vec<Record>,
    /// What this member knows of itself.
    pub standing: Standing,
    /// The changes behind the version that was asked for.
    pub changes: Behind,
}
