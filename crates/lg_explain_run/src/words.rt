//! Why a file couldn't be written, in words.
//!
//! Defined in: `specs/Meaning/Words.antt`.
//! Tested in: `cases/recordings`, `lg_explain_tests/src/paging.rt`.
ghost use Rattle.std.specs.Prelude.{◌≡◌, IfOk, string_bytes};
ghost use Rattle.lg_explain_run.specs.Meaning.Words.{write_reason, write_words};

use std::alloc::{AllocError, Global};
use std::io::ErrorKind;

/// Why a file can't be written.
fn write_words(kind: ErrorKind) -> &'static str
    ensures { result.now ≡ write_words kind }
{
    match kind {
        ErrorKind::NotFound => "its folder isn't there",
        ErrorKind::NotADirectory => "a part of its path is no folder",
        ErrorKind::IsADirectory => "it is a folder",
        ErrorKind::PermissionDenied => "permission is denied",
        ErrorKind::ReadOnlyFilesystem => "its disk can only be read",
        ErrorKind::StorageFull | ErrorKind::QuotaExceeded => "no space is left",
        ErrorKind::FileTooLarge => "it would be too large",
        ErrorKind::BrokenPipe => "nobody reads it",
        ErrorKind::WriteZero => "it takes nothing",
        ErrorKind::OutOfMemory => "memory is refused",
        _ => "the machine refuses it",
    }
}

/// The line that says which file couldn't be written, and why. Allocates the line; the only error is that memory was
/// refused.
pub(crate) fn write_reason(alloc: Global, path: &str, kind: ErrorKind) -> Result<String, AllocError>
    ensures { IfOk result (λ text. string_bytes text ≡ write_reason path.now kind) }
{
    let words = write_words(kind);
    format!(in alloc; "the file {path} can't be written: {words}\n")
}
