//! Writes what a node says as lines.
//!
//! Each function here that is named `put_` appends to a text. If memory is refused, that is its only error, and the
//! text may have grown by a part of what was to be appended.
//!
//! Defined in: `specs/Meaning/Lines.antt`, `lg_lines/specs/Meaning/Records.antt`.
//! Tested in: `lg_client_tests/src/asking.rt`, `lg_client_tests/src/watching.rt`.
ghost use Rattle.std.specs.Prelude.{◌≡◌, ◌++◌, OnOk, decimal};
ghost use Rattle.std.specs.List.{flat_map};
ghost use Rattle.lg_client.specs.Meaning.Lines.{altered_line, body_line, change_line, count_lines, health_lines};
ghost use Rattle.lg_client.specs.Meaning.Lines.{news_text, number_pair_line, pair_line, standing_lines, time_lines};
ghost use Rattle.lg_client.specs.Meaning.Lines.{truth_shown};
ghost use Rattle.lg_client.specs.Support.Reading.{news_shown};
ghost use Rattle.lg_lines.specs.Meaning.Records.{table_text};

use crate::changes::{Altered, Change, News};
use crate::health::Health;
use itoa::Buffer;
use lg_lines::put_table;
use lg_rules::Record;
use std::alloc::AllocError;

/// Appends bytes.
pub(crate) fn put(bytes: &[u8], text: &mut Vec<u8>) -> Result<(), AllocError>
    ensures { OnOk result (text.new.items ≡ text.old.items ++ bytes.now) }
{
    text.extend_from_slice(bytes)
}

/// Appends a number in decimal.
fn put_number(number: u64, text: &mut Vec<u8>) -> Result<(), AllocError>
    ensures { OnOk result (text.new.items ≡ text.old.items ++ decimal number) }
{
    let mut digits = Buffer::new();
    put(digits.format(number).as_bytes(), text)
}

/// Appends records, a line each.
pub(crate) fn put_records(records: &[Record], text: &mut Vec<u8>) -> Result<(), AllocError>
    ensures { OnOk result (text.new.items ≡ text.old.items ++ table_text records.now) }
{
    match put_table(records, text) {
        Ok(()) => Ok(()),
        Err(_) => Err(AllocError),
    }
}

/// Appends a line `KEY VALUE`.
#[tactic(auto, unfolding(crate::specs::Meaning::Lines::pair_line))]
fn put_pair(key: &[u8], value: &[u8], text: &mut Vec<u8>) -> Result<(), AllocError>
    ensures { OnOk result (text.new.items ≡ text.old.items ++ pair_line key.now value.now) }
{
    put(key, text)?;
    put(b" ", text)?;
    put(value, text)?;
    put(b"\n", text)
}

/// Appends a line `KEY NUMBER`.
fn put_number_pair(key: &[u8], number: u64, text: &mut Vec<u8>) -> Result<(), AllocError>
    ensures { OnOk result (text.new.items ≡ text.old.items ++ number_pair_line key.now number) }
{
    let mut digits = Buffer::new();
    put_pair(key, digits.format(number).as_bytes(), text)
}

/// The word for a truth.
fn truth_shown(truth: bool) -> &'static str
    ensures { result.now ≡ truth_shown truth }
{
    if truth { "true" } else { "false" }
}

/// Appends the name, the score and the incarnation of a health.
fn put_standing(health: &Health, text: &mut Vec<u8>) -> Result<(), AllocError>
    ensures { OnOk result (text.new.items ≡ text.old.items ++ standing_lines health.now) }
{
    let incarnation = u64::from(health.incarnation.number());
    put_pair(b"name", health.name.as_bytes(), text)?;
    put_number_pair(b"score", health.score, text)?;
    put_number_pair(b"incarnation", incarnation, text)
}

/// Appends how many members are live, and how many are known.
fn put_counts(health: &Health, text: &mut Vec<u8>) -> Result<(), AllocError>
    ensures { OnOk result (text.new.items ≡ text.old.items ++ count_lines health.now) }
{
    put_number_pair(b"live", health.live, text)?;
    put_number_pair(b"known", health.known, text)
}

/// Appends whether the node was ousted, and the times.
fn put_times(health: &Health, text: &mut Vec<u8>) -> Result<(), AllocError>
    ensures { OnOk result (text.new.items ≡ text.old.items ++ time_lines health.now) }
{
    put_pair(b"ousted", truth_shown(health.ousted).as_bytes(), text)?;
    put_number_pair(b"uptime_ms", health.uptime_ms, text)?;
    put_number_pair(b"stood_still_ms", health.stood_still_ms, text)
}

/// Appends a health, a line for each field, in the order of the answer.
#[tactic(auto, unfolding(crate::specs::Meaning::Lines::health_lines))]
pub(crate) fn put_health(health: &Health, text: &mut Vec<u8>) -> Result<(), AllocError>
    ensures { OnOk result (text.new.items ≡ text.old.items ++ health_lines health.now) }
{
    put_standing(health, text)?;
    put_counts(health, text)?;
    put_times(health, text)
}

/// Appends what a change says of a member, as a line: its record, or `forgotten NAME`.
fn put_altered(altered: &Altered, text: &mut Vec<u8>) -> Result<(), AllocError>
    ensures { OnOk result (text.new.items ≡ text.old.items ++ altered_line altered.now) }
{
    match altered {
        Altered::Recorded(member) => put_records(&[*member], text),
        Altered::Forgotten(name) => put_pair(b"forgotten", name.as_bytes(), text),
    }
}

/// Appends a change, as a line.
fn put_change(change: &Change, text: &mut Vec<u8>) -> Result<(), AllocError>
    ensures { OnOk result (text.new.items ≡ text.old.items ++ change_line change.now) }
{
    put_number(change.moment_ms, text)?;
    put(b" ", text)?;
    put_altered(&change.altered, text)
}

/// Appends changes, a line each.
fn put_changes(changes: &[Change], text: &mut Vec<u8>) -> Result<(), AllocError>
    ensures { OnOk result (text.new.items ≡ text.old.items ++ flat_map change_line changes.now) }
{
    for change in changes {
        put_change(change, text)?;
    }
    Ok(())
}

/// Appends the changes of an answer. If they stand for others, the line `missed` comes first, but not if this is the
/// first answer. Of no changes nothing is appended.
#[tactic(auto, unfolding(crate::specs::Meaning::Lines::news_text))]
pub(crate) fn put_news(is_first: bool, news: &News, text: &mut Vec<u8>) -> Result<(), AllocError>
    ensures { OnOk result (text.new.items ≡ text.old.items ++ news_text is_first (news_shown news.now)) }
{
    if news.changes.is_empty() {
        return Ok(());
    }
    if news.missed && !is_first {
        put(b"missed\n", text)?;
    }
    put_changes(&news.changes, text)
}

/// Appends a body as it came, as a line.
pub(crate) fn put_body(body: &[u8], text: &mut Vec<u8>) -> Result<(), AllocError>
    ensures { OnOk result (text.new.items ≡ text.old.items ++ body_line body.now) }
{
    put(body, text)?;
    put(b"\n", text)
}
