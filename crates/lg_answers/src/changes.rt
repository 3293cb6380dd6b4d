//! Writes changes as JSON.
//!
//! Defined in: `specs/Meaning/Changes.antt`.
//! Tested in: `lg_answers_tests/src/answer.rt`.
ghost use Rattle.std.specs.Prelude.{◌≡◌, [], ◌∷◌, ◌++◌, IfOk, List, OnOk, codes, string_bytes};
ghost use Rattle.std.specs.List.{flat_map};
ghost use Rattle.lg_changes.specs.declared.change.Change.{Change as Changed};
ghost use Rattle.lg_changes.specs.Meaning.Changes.{recorded_at};
ghost use Rattle.lg_changes.specs.Meaning.Kept.{KeepsNewest};
ghost use Rattle.lg_answers.specs.Meaning.Changes.{as_changes, change_json, changes_body, changes_json};
ghost use Rattle.lg_answers.specs.Meaning.Changes.{forgotten_fields};
ghost use Rattle.lg_answers.specs.Meaning.Members.{behind_comma, comma_separated};

use crate::health::truth_word;
use crate::members::{put_fields, put_moment};
use crate::snapshot::Snapshot;
use lg_changes::{Altered, Change, Changes};
use lg_check::text_of_name;
use lg_rules::{Claim, Name, Record};
use lg_timing::Moment;
use std::alloc::{AllocError, Global};

/// Appends the fields of a member that was forgotten, and the brace behind them.
#[tactic(auto, unfolding(crate::specs::Meaning::Changes::forgotten_fields))]
fn put_forgotten(name: &Name, text: &mut String) -> Result<(), AllocError>
    ensures { OnOk result (string_bytes text.new
        ≡ string_bytes text.old ++ (forgotten_fields name.now ++ codes "}")) }
{
    text.push_str("\"name\":\"")?;
    text.push_str(text_of_name(name))?;
    text.push_str(
        "\",\"status\":\"forgotten\",\"incarnation\":null,\"address\":null,\"port\":null,\"accuser\":null}",
    )
}

/// Appends a change.
#[tactic(auto, unfolding(crate::specs::Meaning::Changes::change_json))]
fn put_change(change: &Change, text: &mut String) -> Result<(), AllocError>
    ensures { OnOk result (string_bytes text.new ≡ string_bytes text.old ++ change_json change.now) }
{
    put_moment(change.version, change.moment.milliseconds(), text)?;
    match &change.altered {
        Altered::Recorded(member) => put_fields(member, text),
        Altered::Forgotten(name) => put_forgotten(name, text),
    }
}

/// Appends changes, each behind a comma.
fn put_others(changes: &[Change], text: &mut String) -> Result<(), AllocError>
    ensures { OnOk result
        (string_bytes text.new ≡ string_bytes text.old ++ flat_map (behind_comma change_json) changes.now) }
{
    for change in changes {
        text.push_str(",")?;
        put_change(change, text)?;
    }
    Ok(())
}

/// Appends changes with commas between them.
fn put_changes(changes: &[Change], text: &mut String) -> Result<(), AllocError>
    ensures { OnOk result
        (string_bytes text.new ≡ string_bytes text.old ++ comma_separated change_json changes.now) }
{
    match changes {
        [] => Ok(()),
        [change, others @ ..] => {
            put_change(change, text)?;
            put_others(others, text)
        }
    }
}

/// The text of changes with what stands around them.
#[tactic(auto, unfolding(crate::specs::Meaning::Changes::changes_json))]
fn changes_json(
    alloc: Global,
    version: u64,
    missed: bool,
    changes: &[Change],
) -> Result<String, AllocError>
    ensures { IfOk result (λ body. string_bytes body ≡ changes_json version missed changes.now) }
{
    let mut text = String::new(alloc);
    let truth = truth_word(missed);
    write!(
        text,
        "{{\"version\":{version},\"missed\":{truth},\"changes\":["
    )?;
    put_changes(changes, &mut text)?;
    text.push_str("]}")?;
    Ok(text)
}

/// Appends a record to changes, as one at a version and a moment.
fn put_row(
    rows: &mut Vec<Change>,
    version: u64,
    moment: Moment,
    member: &Record,
) -> Result<(), AllocError>
    ensures { OnOk result (rows.new.items ≡ rows.old.items ++ recorded_at version moment member.now ∷ []) }
{
    // Built anew from its parts, since the checker doesn't follow a whole record into a generic call.
    let Claim {
        name,
        addr,
        status,
        incarnation,
    } = *member;
    let member = Claim {
        name,
        addr,
        status,
        incarnation,
    };
    rows.push(Change {
        version,
        moment,
        altered: Altered::Recorded(member),
    })?;
    Ok(())
}

/// Records, each as a change at a version and a moment.
fn as_changes(
    alloc: Global,
    version: u64,
    moment: Moment,
    members: &[Record],
) -> Result<Vec<Change>, AllocError>
    ensures { IfOk result (λ rows. rows.items ≡ as_changes version moment members.now) }
{
    let mut rows = Vec::new(alloc);
    for member in members {
        put_row(&mut rows, version, moment, member)?;
    }
    Ok(rows)
}

/// The body of the changes behind a version, or of the whole table if the ring no longer reaches back to it. Memory is
/// allocated for the text, of 234 bytes at most for each change, and for a copy of the changes.
#[tactic(auto, unfolding(crate::specs::Meaning::Changes::changes_body))]
pub(crate) fn changes_body(
    alloc: Global,
    snapshot: &Snapshot,
    changes: &Changes,
    after: u64,
) -> Result<String, AllocError>
    ensures { (all : List Changed) → KeepsNewest changes.now all
        → IfOk result (λ body. string_bytes body ≡ changes_body snapshot.now after all) }
{
    match changes.after(alloc, after)? {
        Some(found) => changes_json(alloc, snapshot.version, false, &found),
        None => {
            let all = as_changes(alloc, snapshot.version, snapshot.moment, &snapshot.records)?;
            changes_json(alloc, snapshot.version, true, &all)
        }
    }
}
