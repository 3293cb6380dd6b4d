//! Reads the changes of an answer.
//!
//! Defined in: `specs/Meaning/Changes.antt`.
//! Tested in: `lg_client_tests/src/watching.rt`, `lg_client_tests/src/edits.rt`.
ghost use Rattle.std.specs.Prelude.{◌≡◌};
ghost use Rattle.serde_json.specs.View.{items_view, view};
ghost use Rattle.lg_client.specs.Meaning.Changes.{altered_by, altered_said, change_said, news_said};
ghost use Rattle.lg_client.specs.Meaning.Fields.{each_read};
ghost use Rattle.lg_client.specs.Support.Reading.{IsReadAs, PutsRow, news_shown};

use crate::fault::AskFault;
use crate::fields::{name_at, natural_at, rows_at, text_at, truth_at};
use crate::members::member_in;
use lg_rules::{Claim, Name, Record};
use serde_json::Value;
use std::alloc::Global;

/// What a change says of a member.
#[derive(Clone, Copy, Debug)]
pub(crate) enum Altered {
    /// This is its record.
    Recorded(Record),
    /// The node forgot the member of this name.
    Forgotten(Name),
}

/// A change: what it says of a member, and its moment, in milliseconds from the node's start.
#[derive(Clone, Copy, Debug)]
pub(crate) struct Change {
    pub(crate) moment_ms: u64,
    pub(crate) altered: Altered,
}

/// What a node says of changes.
#[derive(Drop)]
pub(crate) struct News {
    /// The version of the answer: after how many events the members of the node are what it says.
    pub(crate) version: u64,
    /// Whether the node no longer has all changes that were asked for. Then `changes` has the whole table in their
    /// place, a change for each member.
    pub(crate) missed: bool,
    /// The changes, the oldest first.
    pub(crate) changes: Vec<Change>,
}

/// What a change with the status `word` says of a member. If that is `forgotten`, only the name is read.
fn altered_by(word: &[u8], change: &Value) -> Option<Altered>
    ensures { result ≡ altered_by word.now (view change.now) }
{
    if word == b"forgotten".as_slice() {
        let name = name_at(change, "name")?;
        Some(Altered::Forgotten(name))
    } else {
        let member = member_in(change)?;
        Some(Altered::Recorded(member))
    }
}

/// What a change says of a member.
fn altered_in(change: &Value) -> Option<Altered>
    ensures { result ≡ altered_said (view change.now) }
{
    match text_at(change, "status") {
        Some(word) => altered_by(word.as_bytes(), change),
        None => None,
    }
}

/// Reads a change. None if a part of it isn't what docs/FORMATS.md says.
#[tactic(auto, unfolding(crate::specs::Meaning::Changes::change_said))]
fn change_in(change: &Value) -> Option<Change>
    ensures { result ≡ change_said (view change.now) }
{
    let moment_ms = natural_at(change, "moment_ms")?;
    let altered = altered_in(change)?;
    Some(Change { moment_ms, altered })
}

/// Appends a change to others.
fn put_row(rows: &mut Vec<Change>, change: &Change) -> Result<(), AskFault>
    ensures { PutsRow rows.old.items rows.new.items change.now result }
{
    // Built anew from its parts, since the checker doesn't follow a whole record into a generic call.
    let altered = match change.altered {
        Altered::Recorded(member) => {
            let Claim {
                name,
                addr,
                status,
                incarnation,
            } = member;
            Altered::Recorded(Claim {
                name,
                addr,
                status,
                incarnation,
            })
        }
        Altered::Forgotten(name) => Altered::Forgotten(name),
    };
    let row = Change {
        moment_ms: change.moment_ms,
        altered,
    };
    match rows.push(row) {
        Ok(()) => Ok(()),
        Err(_) => Err(AskFault::Memory),
    }
}

/// The changes that the elements of an array say.
fn rows_in(alloc: Global, values: &[Value]) -> Result<Vec<Change>, AskFault>
    ensures { IsReadAs (λ rows. rows.items) (each_read change_said (items_view values.now)) result }
{
    let mut rows = Vec::new(alloc);
    for value in values {
        let Some(row) = change_in(value) else {
            return Err(AskFault::Bad);
        };
        match put_row(&mut rows, &row) {
            Ok(()) => {}
            Err(fault) => return Err(fault),
        }
    }
    Ok(rows)
}

/// What an answer says of changes. The error is [`AskFault::Bad`] if a part of it isn't what docs/FORMATS.md says, and
/// [`AskFault::Memory`] if memory for the changes was refused.
#[tactic(auto, unfolding(crate::specs::Meaning::Changes::news_said))]
pub(crate) fn news_in(alloc: Global, answer: &Value) -> Result<News, AskFault>
    ensures { IsReadAs news_shown (news_said (view answer.now)) result }
{
    let Some(version) = natural_at(answer, "version") else {
        return Err(AskFault::Bad);
    };
    let Some(missed) = truth_at(answer, "missed") else {
        return Err(AskFault::Bad);
    };
    let Some(values) = rows_at(answer, "changes") else {
        return Err(AskFault::Bad);
    };
    match rows_in(alloc, values) {
        Ok(changes) => Ok(News {
            version,
            missed,
            changes,
        }),
        Err(fault) => Err(fault),
    }
}
