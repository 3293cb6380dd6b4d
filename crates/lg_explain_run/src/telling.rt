//! Tells why a file couldn't be written.
//!
//! Defined in: `specs/Meaning/Paging.antt`, `specs/Meaning/Words.antt`.
//! Tested in: `cases/recordings`, `lg_explain_tests/src/paging.rt`.
ghost use Rattle.std.specs.Prelude.{◌≡◌, ◌⊎◌, [], string_bytes};
ghost use Rattle.lg_explain_run.specs.Meaning.Paging.{TellsUnwritten};
ghost use Rattle.lg_explain_run.specs.Meaning.Words.{write_reason};

use crate::words::write_reason;
use lg_text::{FaultStream, report};
use std::alloc::Global;
use std::io::ErrorKind;

/// Why the file at a path couldn't be written, as a line. It is empty if memory for it was refused.
fn reason_of(alloc: Global, path: &str, kind: ErrorKind) -> String
    ensures { (string_bytes result ≡ []) ⊎ (string_bytes result ≡ write_reason path.now kind) }
{
    match write_reason(alloc, path, kind) {
        Ok(line) => line,
        Err(_) => String::new(alloc),
    }
}

/// Reports that the file at a path couldn't be written, by an error of this kind, and gives the exit status, which
/// is 1.
///
/// These are two lines: `lg: write`, and which file it is, and why. If memory for the second is refused, only the first
/// is reported. What `faults` doesn't take is dropped.
pub(crate) fn tell_unwritten<F: FaultStream>(
    alloc: Global,
    path: &str,
    kind: ErrorKind,
    faults: &mut F,
) -> u8
    ensures { TellsUnwritten (F.reported faults.old) (F.reported faults.new) path.now kind result }
{
    let reason = reason_of(alloc, path, kind);
    report(faults, "lg: write\n");
    report(faults, reason.as_str());
    1
}
