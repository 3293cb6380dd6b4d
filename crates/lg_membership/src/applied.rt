//! What applying a claim did.
//!
//! Defined in: `specs/Meaning/Applied.antt`.
//! Tested in: `lg_parts_tests/src/membership/claims.rt`.
use lg_rules::Record;

/// What becomes of the deadline of a member's suspicion when a claim about the member is applied.
#[derive(Clone, Copy, Debug, PartialEq, Eq)]
pub enum Deadline {
    /// It is as before: there still is none, or it is still the same.
    Stays,
    /// The suspicion ended, and its deadline with it.
    Ends,
    /// It is now at this moment, in milliseconds: a suspicion was raised, or has one more accuser.
    Stands(u64),
}

/// Whether a member joins those that aren't gone, or leaves them, when a claim about the member is applied.
#[derive(Clone, Copy, Debug, PartialEq, Eq)]
pub enum Presence {
    /// As before: it is still among them, or it still isn't.
    Stays,
    /// It is among them from now on, and wasn't before.
    Joins,
    /// It was among them, and no longer is: it failed or left.
    Leaves,
}

/// What applying a claim did.
#[derive(Clone, Copy, Debug, PartialEq, Eq)]
pub struct Applied {
    /// The record of the claim's member, if the claim changed it: it made the record, replaced it, or raised this
    /// member's incarnation. Before the opening nobody has a record.
    pub changed: Option<Record>,
    /// Whether the claim was a suspicion of this member, and this member refuted it.
    pub refuted: bool,
    /// What becomes of the deadline of the suspicion of the claim's member.
    pub deadline: Deadline,
    /// Whether the claim's member, if it is another, joins the members that aren't gone, or leaves them. If it is
    /// this member itself, this is always [`Presence::Stays`].
    pub presence: Presence,
}
