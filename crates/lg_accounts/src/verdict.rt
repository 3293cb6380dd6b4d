//! The verdicts of an account: the changes of the member's record to suspect, failed or left.
//!
//! Defined in: `specs/Meaning/Verdicts.antt`.
//! Tested in: `lg_explain_tests/src/verdicts.rt`.
ghost use Rattle.std.specs.Prelude.{◌≡◌};
ghost use Rattle.std.specs.List.{last_or};
ghost use Rattle.lg_accounts.specs.Meaning.Values.{account_value, note_value};
ghost use Rattle.lg_accounts.specs.Meaning.Verdicts.{first_verdict, first_verdict_of, is_against, note_verdicts};
ghost use Rattle.lg_accounts.specs.Meaning.Verdicts.{verdict_of, verdict_of_record, verdict_of_step};

use crate::account::{Account, Note};
use crate::step::NoteStep;
use lg_rules::{Name, Record, Status};
use lg_timing::Moment;

/// A change of a member's record to suspect, failed or left.
#[derive(Clone, Copy, Debug, PartialEq, Eq)]
pub struct MemberVerdict {
    /// The moment of the entry in which it changed.
    pub moment: Moment,
    /// The wall time of that moment, in milliseconds since the beginning of 1970 in UTC.
    pub wall_ms: u64,
    /// The sender of the packet that was heard, if one was.
    pub teller: Option<Name>,
    /// The record behind the change.
    pub record_after: Record,
}

/// Whether a change to a status is a verdict.
fn is_against(status: &Status) -> bool
    ensures { result ≡ is_against status.now }
{
    !matches!(status, Status::Alive)
}

/// The verdict by a record that changed in an entry, if it is one.
fn verdict_of_record(note: &Note, changed: &Record) -> Option<MemberVerdict>
    ensures { result ≡ verdict_of_record (note_value note.now) changed.now }
{
    if is_against(&changed.status) {
        Some(MemberVerdict {
            moment: note.moment,
            wall_ms: note.wall_ms,
            teller: note.teller,
            record_after: *changed,
        })
    } else {
        None
    }
}

/// The verdict by a step of an entry, if it is one.
fn verdict_of_step(note: &Note, step: &NoteStep) -> Option<MemberVerdict>
    ensures { result ≡ verdict_of_step (note_value note.now) step.now }
{
    match step {
        NoteStep::Changed { record } => verdict_of_record(note, record),
        _ => None,
    }
}

/// The last verdict of an entry, or else the one before it.
fn last_of_note(note: &Note, earlier: Option<MemberVerdict>) -> Option<MemberVerdict>
    ensures { result ≡ last_or earlier (note_verdicts (note_value note.now)) }
{
    let mut last = earlier;
    for step in &note.steps {
        if let Some(verdict) = verdict_of_step(note, step) {
            last = Some(verdict);
        }
    }
    last
}

/// The first verdict of an entry, if it has one.
fn first_of_note(note: &Note) -> Option<MemberVerdict>
    ensures { result ≡ first_verdict (note_verdicts (note_value note.now)) }
{
    for step in &note.steps {
        if let Some(verdict) = verdict_of_step(note, step) {
            return Some(verdict);
        }
    }
    None
}

impl Account {
    /// The last verdict of this account, which its heading tells. An account that is told has one.
    #[tactic(auto, unfolding(crate::specs::Meaning::Verdicts::verdict_of))]
    pub fn verdict(&self) -> Option<MemberVerdict>
        ensures { result ≡ verdict_of (account_value self.now) }
    {
        let mut last = None;
        for note in &self.notes {
            last = last_of_note(note, last);
        }
        last
    }

    /// The first verdict of this account, by whose moment it is found out whether the account came too late. An account
    /// that is told has one.
    #[tactic(auto, unfolding(crate::specs::Meaning::Verdicts::first_verdict_of))]
    pub fn first_verdict(&self) -> Option<MemberVerdict>
        ensures { result ≡ first_verdict_of (account_value self.now) }
    {
        for note in &self.notes {
            if let Some(verdict) = first_of_note(note) {
                return Some(verdict);
            }
        }
        None
    }
}
