//! What the definitions say before and after the event of an entry, and what was in the minute before it.

use lg_detector::SuspicionStanding;
use lg_rules::Record;

/// What the definitions say behind some events.
#[derive(Clone, Copy, Debug)]
pub struct Insight {
    /// The node's health score.
    pub score: u64,
    /// The suspicion of the member, if it is suspected.
    pub suspicion: Option<SuspicionStanding>,
}

/// What the definitions say of the event of an entry. It is there only if all events since the opening are known, and
/// accepted.
#[derive(Clone, Copy, Debug)]
pub struct Insights<'a> {
    /// Before the event.
    pub before: Insight,
    /// After the event.
    pub after: Insight,
    /// The member table after the event, in the order of names.
    pub table: &'a [Record],
}

/// What was of the node in the minute before an entry.
#[derive(Clone, Copy, Debug)]
pub struct MinuteBefore {
    /// How many of its rounds ended.
    pub ended: u64,
    /// How many of these ended with a suspicion of some member.
    pub suspected: u64,
    /// For how long its clock stood still, in milliseconds.
    pub stood_still_ms: u64,
}
