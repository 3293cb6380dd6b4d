//! What a file of a recording begins with.
//!
//! Defined in: `specs/Meaning/Starts.antt`.
//! Tested in: `lg_recording_tests/src/entries.rt`.
ghost use Rattle.std.specs.Prelude.{◌≡◌, ◌++◌, OnErr, OnOk};
ghost use Rattle.lg_fields.specs.Support.Scans.{Scans};
ghost use Rattle.lg_recording.specs.Meaning.Starts.{due_scan, magic_scan, spelled_start, start_scan};

use crate::writing::put_whole;
use lg_detector::NoMemory;
use lg_fields::{FieldFault, FieldReader};

/// Appends what a file begins with: the magic bytes, the version of the format, and the head's body as a chunk.
///
/// The only error is that memory was refused. The text then holds what it held before, though it may have room for
/// more.
pub fn put_start(head: &[u8], out: &mut Vec<u8>) -> Result<(), NoMemory>
    ensures put { OnOk result (out.new.items ≡ out.old.items ++ spelled_start head.now) }
    ensures refused { OnErr result (out.new.items ≡ out.old.items) }
{
    let length = out.len();
    out.extend_from_slice(&[0x4c, 0x47, 0x52, 1])?;
    let done = put_whole(head, out);
    if done.is_err() {
        out.truncate(length);
    }
    done
}

/// Reads a byte that has to be `due`; another one is this fault.
fn read_due(fault: FieldFault, due: u8, reader: &mut FieldReader<'_>) -> Result<(), FieldFault>
    ensures { Scans (λ _. reader.new.rest.now) result (due_scan fault due reader.old.rest.now) }
{
    let [byte, rest @ ..] = reader.rest else {
        return Err(FieldFault::Short);
    };
    if *byte != due {
        return Err(fault);
    }
    reader.rest = rest;
    Ok(())
}

/// Reads the magic bytes and the version of the format.
#[tactic(auto, unfolding(crate::specs::Meaning::Starts::magic_scan))]
fn read_magic(reader: &mut FieldReader<'_>) -> Result<(), FieldFault>
    ensures { Scans (λ _. reader.new.rest.now) result (magic_scan reader.old.rest.now) }
{
    read_due(FieldFault::Magic, 0x4c, reader)?;
    read_due(FieldFault::Magic, 0x47, reader)?;
    read_due(FieldFault::Magic, 0x52, reader)?;
    read_due(FieldFault::Version, 1, reader)
}

/// Reads what a file begins with: gives the head's body, and the bytes behind its chunk, which are those of the
/// entries. Allocates nothing.
///
/// The error is [`FieldFault::Magic`] or [`FieldFault::Version`] if the file begins otherwise, or the fault of the
/// chunk. The body isn't looked into.
#[tactic(auto, unfolding(crate::specs::Meaning::Starts::start_scan))]
pub fn read_start(bytes: &[u8]) -> Result<(&[u8], &[u8]), FieldFault>
    ensures { Scans (λ x. (x.0.now, x.1.now)) result (start_scan bytes.now) }
{
    let mut reader = FieldReader { rest: bytes };
    read_magic(&mut reader)?;
    let head = reader.chunk()?;
    Ok((head, reader.rest))
}
