//! The lines of a watcher, as text.
//!
//! Defined in: `specs/Meaning/Lines.antt`, `specs/Support/Telling.antt`.
//! Tested in: `lg_node_tests/src/watching.rt`.
ghost use Rattle.std.specs.Prelude.{◌≡◌, ◌++◌, OnOk};
ghost use Rattle.lg_follow.specs.Meaning.Lines.{told_line, told_lines, forgotten_line, changed_line};
ghost use Rattle.lg_follow.specs.Meaning.Lines.{changed_lines, missed_line, stood_line};
ghost use Rattle.lg_follow.specs.Support.Telling.{found_text};

use arrayvec::ArrayString;
use itoa::Buffer;
use lg_changes::{Altered, Behind, Change};
use lg_lines::{NoMemory, put_table};
use lg_rules::{Name, Record};
use lg_timing::Moment;
use lg_view::Overview;

/// The most bytes of the last line: two numbers of 20 digits, the word between them and a newline.
const MAX_LAST: usize = 54;

/// Appends the line of a record to a text.
fn put_line(moment: Moment, claim: &Record, text: &mut Vec<u8>) -> Result<(), NoMemory>
    ensures { OnOk result (text.new.items ≡ text.old.items ++ told_line moment claim.now) }
{
    let mut digits = Buffer::new();
    text.extend_from_slice(digits.format(moment.milliseconds()).as_bytes())?;
    text.extend_from_slice(b" ")?;
    put_table(&[*claim], text)?;
    Ok(())
}

/// Appends the lines of records to a text.
fn put_members(moment: Moment, records: &[Record], text: &mut Vec<u8>) -> Result<(), NoMemory>
    ensures { OnOk result (text.new.items ≡ text.old.items ++ told_lines moment records.now) }
{
    for claim in records {
        put_line(moment, claim, text)?;
    }
    Ok(())
}

/// Appends to a text the line of a name that was forgotten.
fn put_forgotten(moment: Moment, name: &Name, text: &mut Vec<u8>) -> Result<(), NoMemory>
    ensures { OnOk result (text.new.items ≡ text.old.items ++ forgotten_line moment name.now) }
{
    let mut digits = Buffer::new();
    text.extend_from_slice(digits.format(moment.milliseconds()).as_bytes())?;
    text.extend_from_slice(b" forgotten ")?;
    text.extend_from_slice(name.as_bytes())?;
    text.extend_from_slice(b"\n")?;
    Ok(())
}

/// Appends the line of a change to a text.
fn put_change(change: &Change, text: &mut Vec<u8>) -> Result<(), NoMemory>
    ensures { OnOk result (text.new.items ≡ text.old.items ++ changed_line change.now) }
{
    match &change.altered {
        Altered::Recorded(member) => put_line(change.moment, member, text),
        Altered::Forgotten(name) => put_forgotten(change.moment, name, text),
    }
}

/// Appends the lines of changes to a text.
fn put_changes(changes: &[Change], text: &mut Vec<u8>) -> Result<(), NoMemory>
    ensures { OnOk result (text.new.items ≡ text.old.items ++ changed_lines changes.now) }
{
    for change in changes {
        put_change(change, text)?;
    }
    Ok(())
}

/// Appends to a text the line that says that changes were missed.
fn put_missed(moment: Moment, text: &mut Vec<u8>) -> Result<(), NoMemory>
    ensures { OnOk result (text.new.items ≡ text.old.items ++ missed_line moment) }
{
    let mut digits = Buffer::new();
    text.extend_from_slice(digits.format(moment.milliseconds()).as_bytes())?;
    text.extend_from_slice(b" missed\n")?;
    Ok(())
}

/// Appends to a text the lines of what a look found: those of its records if nothing was told before, and otherwise
/// those of its changes. If changes were missed, a line says so, and those of the records follow. The only error is
/// that memory was refused; the text may have grown by some of the lines then.
pub(crate) fn put_found(
    told: Option<u64>,
    found: &Overview,
    text: &mut Vec<u8>,
) -> Result<(), NoMemory>
    ensures { OnOk result (text.new.items ≡ text.old.items ++ found_text told found.now) }
{
    if told.is_none() {
        return put_members(found.moment, &found.records, text);
    }
    match &found.changes {
        Behind::All(rows) => put_changes(rows, text),
        Behind::Missed(_) => {
            put_missed(found.moment, text)?;
            put_members(found.moment, &found.records, text)
        }
    }
}

/// The last line.
pub(crate) fn stood_line(moment: Moment, left_out: u64) -> ArrayString<MAX_LAST>
    ensures { result.bytes ≡ stood_line moment left_out }
{
    let mut digits = Buffer::new();
    let mut line = ArrayString::new();
    line.push_str(digits.format(moment.milliseconds()));
    line.push_str(" stood-still ");
    line.push_str(digits.format(left_out));
    line.push_str("\n");
    line
}
