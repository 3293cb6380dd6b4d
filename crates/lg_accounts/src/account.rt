//! Accounts of a member, and their notes.

use crate::step::NoteStep;
use lg_rules::Name;
use lg_timing::Moment;

/// What an entry tells of a member.
#[derive(Debug, Drop)]
pub struct Note {
    /// The number of the entry in its life, from 0.
    pub entry: u64,
    /// The moment that was handed in with its event.
    pub moment: Moment,
    /// The wall time of that moment, in milliseconds since the beginning of 1970 in UTC.
    pub wall_ms: u64,
    /// The sender of the packet that was heard, if one was.
    pub teller: Option<Name>,
    /// What it tells.
    pub steps: Vec<NoteStep>,
}

/// An account of a member: what led to its suspicion or its end, and what came of it.
#[derive(Debug, Drop)]
pub struct Account {
    /// The entries that tell something, the earliest first.
    pub notes: Vec<Note>,
    /// Whether all events since the opening are known where it ends.
    pub is_known: bool,
}
