//! What a file's head says of the member that is asked for, and of the node.
//!
//! Defined in: `specs/Meaning/Places.antt`.
//! Tested in: `lg_explain_tests/src/explaining.rt`.
ghost use Rattle.std.specs.Prelude.{◌≡◌};
ghost use Rattle.std.specs.List.{list_any};
ghost use Rattle.lg_heads.specs.Meaning.Heads.{head_value, maybe_before};
ghost use Rattle.lg_explain.specs.Meaning.Places.{is_suspect_row, note_subject, wall_of, watch_of_head};

use lg_heads::{Before, Head};
use lg_notes::{NoteSubject, Watch};
use lg_rules::{Name, Record, Status};
use lg_timing::Moment;

/// The watch of a member that is neither suspected nor probed.
pub(crate) const CALM: Watch = Watch {
    is_suspected: false,
    probe: None,
};

/// Whether a record is of a member and says that it is suspected.
fn is_suspect_row(name: &Name, row: &Record) -> bool
    ensures { result ≡ is_suspect_row name.now row.now }
{
    *name == row.name && matches!(row.status, Status::Suspect(_))
}

/// Whether some record of a table is of a member and says that it is suspected.
fn is_suspect_in(name: &Name, table: &[Record]) -> bool
    ensures { result ≡ list_any (is_suspect_row name.now) table.now }
{
    table.iter().any(|row| is_suspect_row(name, row))
}

/// The watch of a member by what a file's head says of what was known before the file.
pub(crate) fn watch_of_head(name: &Name, before: &Option<Before>) -> Watch
    ensures { result ≡ watch_of_head name.now (maybe_before before.now) }
{
    match before {
        None => CALM,
        Some(before) => Watch {
            is_suspected: is_suspect_in(name, before.table.as_slice()),
            probe: None,
        },
    }
}

/// The wall time of a moment, in milliseconds.
pub(crate) fn wall_of(head: &Head<'_>, moment: Moment) -> u64
    ensures { result ≡ wall_of (head_value head.entry.now) moment }
{
    let (now, then) = (moment.milliseconds(), head.now.milliseconds());
    if now < then {
        head.wall_ms.saturating_sub(then - now)
    } else {
        head.wall_ms.saturating_add(now - then)
    }
}

/// The member that is asked for, the node and its group.
pub(crate) fn note_subject(name: &Name, head: &Head<'_>) -> NoteSubject
    ensures { result ≡ note_subject name.now (head_value head.entry.now) }
{
    NoteSubject {
        name: *name,
        me: head.name,
        group: head.config.group,
    }
}
