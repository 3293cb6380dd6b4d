//! Writes heads of files of recordings.
//!
//! Defined in: `specs/Meaning/Heads.antt`.
//! Tested in: `lg_heads_tests/src/heads.rt`.
ghost use Rattle.std.specs.Prelude.{◌≡◌, ◌++◌, OnErr, OnOk};
ghost use Rattle.std.specs.List.{flat_map};
ghost use Rattle.lg_recording.specs.Meaning.Starts.{spelled_start};
ghost use Rattle.lg_heads.specs.Meaning.Heads.{head_value, maybe_before, spelled_before, spelled_head_body};
ghost use Rattle.lg_heads.specs.Meaning.Heads.{spelled_row, spelled_standing, spelled_table};

use crate::head::{Before, Head};
use lg_detector::{NoMemory, Standing};
use lg_fields::{put_config, put_count, put_flag, put_label, put_records, put_text, put_word};
use lg_recording::put_start;
use lg_rules::Record;

/// Appends what a member knew of itself.
#[tactic(auto, unfolding(crate::specs::Meaning::Heads::spelled_standing))]
fn put_standing(standing: &Standing, out: &mut Vec<u8>) -> Result<(), NoMemory>
    ensures { OnOk result (out.new.items ≡ out.old.items ++ spelled_standing standing.now) }
{
    put_count(standing.score, out)?;
    put_word(standing.number.number(), out)?;
    put_flag(standing.ousted, out)
}

/// Appends records, without their count.
fn put_each_row(rows: &[Record], out: &mut Vec<u8>) -> Result<(), NoMemory>
    ensures { OnOk result (out.new.items ≡ out.old.items ++ flat_map spelled_row rows.now) }
{
    for row in rows {
        put_records(&[*row], out)?;
    }
    Ok(())
}

/// Appends the records of a table: how many, and then those.
#[tactic(auto, unfolding(crate::specs::Meaning::Heads::spelled_table))]
fn put_table(rows: &[Record], out: &mut Vec<u8>) -> Result<(), NoMemory>
    ensures { OnOk result (out.new.items ≡ out.old.items ++ spelled_table rows.now) }
{
    put_count(rows.len() as u64, out)?;
    put_each_row(rows, out)
}

/// Appends what was known before the first entry, if anything was.
#[tactic(auto, unfolding(crate::specs::Meaning::Heads::spelled_before))]
fn put_before(before: &Option<Before>, out: &mut Vec<u8>) -> Result<(), NoMemory>
    ensures { OnOk result (out.new.items ≡ out.old.items ++ spelled_before (maybe_before before.now)) }
{
    match before {
        None => put_flag(false, out),
        Some(before) => {
            put_flag(true, out)?;
            put_standing(&before.standing, out)?;
            put_table(before.table.as_slice(), out)
        }
    }
}

/// Appends the body of a head.
fn put_body(head: &Head<'_>, out: &mut Vec<u8>) -> Result<(), NoMemory>
    ensures { OnOk result (out.new.items ≡ out.old.items ++ spelled_head_body (head_value head.entry.now)) }
{
    put_label(&head.name, out)?;
    put_config(&head.config, out)?;
    put_text(head.text, out)?;
    put_text(head.program, out)?;
    put_count(head.wall_ms, out)?;
    put_count(head.now.milliseconds(), out)?;
    put_count(head.first, out)?;
    put_before(&head.before, out)?;
    Ok(())
}

/// Appends what a file of a recording begins with: the magic bytes, the version of the format, and the head as a chunk.
///
/// What the memory for the body holds before or after doesn't matter. Memory is allocated only if it or the text has to
/// grow. The only error is that memory was refused. The text then holds what it held before, though it may have room
/// for more.
pub fn put_head(head: &Head<'_>, body: &mut Vec<u8>, out: &mut Vec<u8>) -> Result<(), NoMemory>
    ensures put { OnOk result
        (out.new.items ≡ out.old.items ++ spelled_start (spelled_head_body (head_value head.entry.now))) }
    ensures refused { OnErr result (out.new.items ≡ out.old.items) }
{
    body.clear();
    put_body(head, body)?;
    put_start(body.as_slice(), out)
}
