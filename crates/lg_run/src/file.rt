//! Reads a configuration file, and tells why that gave no bytes.
//!
//! Defined in: `specs/Meaning/Reporting.antt`, `specs/Meaning/Words.antt`.
//! Tested in: `lg_command_tests/src/launch/ends.rt`, `lg_run_refusals/src/checks.rt`.
ghost use Rattle.std.specs.Prelude.{◌≡◌, ◌⊎◌, [], IfErr, IfOk, OnOk, string_bytes};
ghost use Rattle.lg_config.specs.Meaning.Options.{source_of};
ghost use Rattle.lg_run.specs.Meaning.Reporting.{AreBytesOf, LacksBytes, TellsNoBytes, TellsUnread};
ghost use Rattle.lg_run.specs.Meaning.Words.{read_reason};

use crate::reporting::{tell, tell_both};
use crate::told::Told;
use crate::words::read_reason;
use lg_config::{MAX_FILE, Source};
use lg_text::FaultStream;
use std::alloc::Global;
use std::io::{ErrorKind, Read};
use std::rt::Files;
use std::{fs, io};

/// Why a file gives no bytes.
#[derive(Clone, Copy, Debug, PartialEq, Eq)]
pub enum NoBytes {
    /// Memory for its bytes was refused.
    Memory,
    /// The file can't be read. This is the kind of the error.
    Read(ErrorKind),
}

/// The bytes of a configuration file: at most 65,537, one more than a configuration may have. Memory is allocated for
/// them. The error says why there are none. No contract can say what a file holds.
pub fn file_bytes<R: Files>(rt: &R, alloc: Global, path: &str) -> Result<Vec<u8>, NoBytes> {
    let mut bytes = Vec::new(alloc);
    match put_file(rt, path, &mut bytes) {
        Ok(()) => Ok(bytes),
        Err(error) if error.kind() == ErrorKind::OutOfMemory => Err(NoBytes::Memory),
        Err(error) => Err(NoBytes::Read(error.kind())),
    }
}

/// Appends the bytes of a file to others: all of them, or one more than a configuration may have.
fn put_file<R: Files>(rt: &R, path: &str, bytes: &mut Vec<u8>) -> io::Result<()> {
    let limit = MAX_FILE as u64 + 1;
    fs::open(rt, path)?.take(limit).read_to_end(bytes)?;
    Ok(())
}

/// Why a file can't be read, as a line. It is empty if memory for it was refused.
fn read_line(alloc: Global, path: &str, kind: ErrorKind) -> String
    ensures { (string_bytes result ≡ []) ⊎ (string_bytes result ≡ read_reason path.now kind) }
{
    match read_reason(alloc, path, kind) {
        Ok(line) => line,
        Err(_) => String::new(alloc),
    }
}

/// Reports a file that can't be read in two lines, and gives the status. If memory for the second is refused, only the
/// first is reported.
fn tell_unread<F: FaultStream>(alloc: Global, path: &str, kind: ErrorKind, faults: &mut F) -> u8
    ensures { TellsUnread (F.reported faults.old) (F.reported faults.new) path.now kind result }
{
    let line = read_line(alloc, path, kind);
    tell_both(Told::Read, line.as_str(), faults)
}

/// Reports why a file gives no bytes, and gives the status.
///
/// A file that can't be read is told by [`Told::Read`], and a second line names it, and says why. If memory for the
/// second line is refused, only the first is reported. Memory that was refused for the bytes is told by
/// [`Told::Memory`]. A line that `faults` doesn't take is dropped.
pub fn tell_no_bytes<F: FaultStream>(alloc: Global, path: &str, none: NoBytes, faults: &mut F) -> u8
    ensures { TellsNoBytes (F.reported faults.old) (F.reported faults.new) path.now none result }
{
    match none {
        NoBytes::Memory => tell(Told::Memory, faults),
        NoBytes::Read(kind) => tell_unread(alloc, path, kind, faults),
    }
}

/// The bytes of a source's file: none without a file. What is read and allocated for a file is that of [`file_bytes`].
///
/// If there are none to read, that is told as [`tell_no_bytes`] does, and the error is the status.
pub fn source_bytes<R: Files, F: FaultStream>(
    rt: &R,
    alloc: Global,
    source: Source<'_>,
    faults: &mut F,
) -> Result<Vec<u8>, u8>
    ensures silent { OnOk result (faults.new ≡ faults.old) }
    ensures bytes { IfOk result (λ bytes. AreBytesOf (source_of source.entry).file bytes.items) }
    ensures told { IfErr result (λ status.
        LacksBytes (source_of source.entry).file (F.reported faults.old) (F.reported faults.new) status) }
{
    let Some(path) = source.file else {
        return Ok(Vec::new(alloc));
    };
    match file_bytes(rt, alloc, path) {
        Ok(bytes) => Ok(bytes),
        Err(none) => Err(tell_no_bytes(alloc, path, none, faults)),
    }
}
