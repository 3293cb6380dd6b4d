//! The lines of the files of recordings.
//!
//! Defined in: `specs/Meaning/Files.antt`.
//! Tested in: `lg_replay_tests/src/lives.rt`.
ghost use Rattle.std.specs.Prelude.{◌≡◌, ◌++◌, OnOk};
ghost use Rattle.lg_heads.specs.Meaning.Heads.{head_value};
ghost use Rattle.lg_replay.specs.Meaning.Files.{head_line, headless_line};
ghost use Rattle.lg_replay.specs.Support.Known.{unknown_text};

use crate::entries::fault_word_of;
use crate::lines::{put_counted, put_unchecked};
use lg_detector::NoMemory;
use lg_fields::FieldFault;
use lg_heads::Head;

/// Appends the line of a file to a text, by its number.
pub(crate) fn put_head_line(
    number: u64,
    head: &Head<'_>,
    text: &mut Vec<u8>,
) -> Result<(), NoMemory>
    ensures { OnOk result (text.new.items ≡ text.old.items ++ head_line number (head_value head.entry.now)) }
{
    put_counted("file ", number, text)?;
    text.extend_from_slice(b" of ")?;
    text.extend_from_slice(head.name.as_bytes())?;
    put_counted(" first ", head.first, text)?;
    put_counted(" moment ", head.now.milliseconds(), text)?;
    put_counted(" begun ", head.wall_ms, text)?;
    text.extend_from_slice(b"\n")?;
    Ok(())
}

/// Appends to a text the line before the entries of a file of whose past some is missing, if it is.
pub(crate) fn put_gap(first: u64, is_known: bool, text: &mut Vec<u8>) -> Result<(), NoMemory>
    ensures { OnOk result (text.new.items ≡ text.old.items ++ unknown_text first is_known) }
{
    if is_known {
        return Ok(());
    }
    put_unchecked(first, text)
}

/// Appends to a text the line of a file whose head can't be read, by its number.
pub(crate) fn put_headless_line(
    number: u64,
    fault: FieldFault,
    text: &mut Vec<u8>,
) -> Result<(), NoMemory>
    ensures { OnOk result (text.new.items ≡ text.old.items ++ headless_line number fault) }
{
    put_counted("file ", number, text)?;
    text.extend_from_slice(b" fault ")?;
    text.extend_from_slice(fault_word_of(fault).as_bytes())?;
    text.extend_from_slice(b"\n")?;
    Ok(())
}
