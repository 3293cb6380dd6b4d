//! Reads heads of files of recordings.
//!
//! Defined in: `specs/Meaning/Scanning.antt`.
//! Tested in: `lg_heads_tests/src/heads.rt`.
ghost use Rattle.std.specs.Prelude.{◌≡◌, ◌∷◌, ◌++◌, [], ℕ, List, OnOk};
ghost use Rattle.lg_fields.specs.Support.Scans.{Scans};
ghost use Rattle.lg_recording.specs.Meaning.Scanning.{each_scan};
ghost use Rattle.lg_heads.specs.Meaning.Heads.{before_value, head_value, maybe_before};
ghost use Rattle.lg_heads.specs.Meaning.Scanning.{before_scan, head_in, head_scan, known_before_scan, only_row};
ghost use Rattle.lg_heads.specs.Meaning.Scanning.{own_standing_scan, row_scan, table_scan};
ghost use Rattle.lg_heads.specs.Support.Reads.{Reads};

use crate::fault::HeadFault;
use crate::head::{Before, Head};
use lg_detector::{NoMemory, Standing};
use lg_fields::{FieldFault, FieldReader};
use lg_rules::{Claim, MAX_MEMBERS, Record};
use std::alloc::Global;

/// The record that some bytes had to hold alone.
fn only_row(rows: &[Record]) -> Result<Record, FieldFault>
    ensures { (rest : List ℕ) → Scans (λ x. (x, rest)) result (only_row rows.now rest) }
{
    match rows {
        [row] => Ok(*row),
        [] | [_, _, ..] => Err(FieldFault::Count),
    }
}

/// Reads a record of a table.
#[tactic(auto, unfolding(crate::specs::Meaning::Scanning::row_scan))]
fn read_row(reader: &mut FieldReader<'_>) -> Result<Record, FieldFault>
    ensures { Scans (λ x. (x, reader.new.rest.now)) result (row_scan reader.old.rest.now) }
{
    let rows = reader.records()?;
    only_row(rows.as_slice())
}

/// Puts a record behind the others.
fn put_row(member: &Record, rows: &mut Vec<Record>) -> Result<(), NoMemory>
    ensures { OnOk result (rows.new.items ≡ rows.old.items ++ member.now ∷ []) }
{
    // Built anew from its parts, since the checker doesn't follow a whole record into a generic call.
    let Claim {
        name,
        addr,
        status,
        incarnation,
    } = *member;
    let row = Claim {
        name,
        addr,
        status,
        incarnation,
    };
    rows.push(row)?;
    Ok(())
}

/// Reads this many records.
fn read_each_row(
    alloc: Global,
    count: usize,
    reader: &mut FieldReader<'_>,
) -> Result<Vec<Record>, HeadFault>
    ensures { Reads (λ x. (x.items, reader.new.rest.now)) result (each_scan row_scan count reader.old.rest.now) }
{
    let mut rows = Vec::new(alloc);
    for _ in 0..count {
        // A match in place of a `?`, since the checker doesn't follow a whole record through it.
        match read_row(reader) {
            Ok(row) => put_row(&row, &mut rows)?,
            Err(fault) => return Err(HeadFault::Field(fault)),
        }
    }
    Ok(rows)
}

/// Reads the records of a table, 1 to [`MAX_MEMBERS`].
#[tactic(auto, unfolding(crate::specs::Meaning::Scanning::table_scan))]
fn read_table(alloc: Global, reader: &mut FieldReader<'_>) -> Result<Vec<Record>, HeadFault>
    ensures { Reads (λ x. (x.items, reader.new.rest.now)) result (table_scan reader.old.rest.now) }
{
    let count = reader.few(MAX_MEMBERS)?;
    if count == 0 {
        return Err(HeadFault::Field(FieldFault::Count));
    }
    read_each_row(alloc, count, reader)
}

/// Reads what a member knew of itself.
#[tactic(auto, unfolding(crate::specs::Meaning::Scanning::own_standing_scan))]
fn read_standing(reader: &mut FieldReader<'_>) -> Result<Standing, FieldFault>
    ensures { Scans (λ x. (x, reader.new.rest.now)) result (own_standing_scan reader.old.rest.now) }
{
    let score = reader.count()?;
    let number = reader.incarnation()?;
    let ousted = reader.flag()?;
    Ok(Standing {
        score,
        number,
        ousted,
    })
}

/// Reads what was known before the first entry, behind its flag.
#[tactic(auto, unfolding(crate::specs::Meaning::Scanning::known_before_scan))]
fn read_known(alloc: Global, reader: &mut FieldReader<'_>) -> Result<Before, HeadFault>
    ensures { Reads (λ x. (before_value x, reader.new.rest.now)) result (known_before_scan reader.old.rest.now) }
{
    let standing = read_standing(reader)?;
    let table = read_table(alloc, reader)?;
    Ok(Before { standing, table })
}

/// Reads what was known before the first entry, behind this many. Something was known exactly if there are any.
#[tactic(auto, unfolding(crate::specs::Meaning::Scanning::before_scan))]
fn read_before(
    alloc: Global,
    first: u64,
    reader: &mut FieldReader<'_>,
) -> Result<Option<Before>, HeadFault>
    ensures { Reads (λ x. (maybe_before x, reader.new.rest.now)) result (before_scan first reader.old.rest.now) }
{
    let is_known = reader.flag()?;
    if is_known == (first == 0) {
        return Err(HeadFault::Field(FieldFault::Count));
    }
    if !is_known {
        return Ok(None);
    }
    let before = read_known(alloc, reader)?;
    Ok(Some(before))
}

/// Reads the parts of a head.
#[tactic(auto, unfolding(crate::specs::Meaning::Scanning::head_scan))]
fn read_parts<'a>(alloc: Global, reader: &mut FieldReader<'a>) -> Result<Head<'a>, HeadFault>
    ensures { Reads (λ x. (head_value x, reader.new.rest.now)) result (head_scan reader.old.rest.now) }
{
    let name = reader.label()?;
    let config = reader.config()?;
    let text = reader.text()?;
    let program = reader.text()?;
    let wall_ms = reader.count()?;
    let now = reader.moment()?;
    let first = reader.count()?;
    let before = read_before(alloc, first, reader)?;
    Ok(Head {
        name,
        config,
        text,
        program,
        wall_ms,
        now,
        first,
        before,
    })
}

/// Reads the head that a body is. Only its table is allocated.
///
/// The error is the first fault from the left, and [`FieldFault::Trailing`] if the body goes on behind its head; or
/// that memory was refused, and nothing is known of the body then.
#[tactic(auto, unfolding(crate::specs::Meaning::Scanning::head_in))]
pub fn read_head<'a>(alloc: Global, body: &'a [u8]) -> Result<Head<'a>, HeadFault>
    ensures { Reads head_value result (head_in body.now) }
{
    let mut reader = FieldReader { rest: body };
    let head = read_parts(alloc, &mut reader)?;
    if !reader.rest.is_empty() {
        return Err(HeadFault::Field(FieldFault::Trailing));
    }
    Ok(head)
}
