//! Why a folder wasn't read to its end, in words.
//!
//! Defined in: `specs/Meaning/Words.antt`.
//! Tested in: `cases/recordings`.
ghost use Rattle.std.specs.Prelude.{◌≡◌, IfOk, string_bytes};
ghost use Rattle.lg_replay_run.specs.Meaning.Words.{first_line, second_line, unread_words};

use lg_replay::FolderFault;
use lg_text::RunFault;
use std::alloc::{AllocError, Global};
use std::io::ErrorKind;

/// The first line of a fault.
pub(crate) fn first_line(fault: FolderFault) -> &'static str
    ensures { result.now ≡ first_line fault }
{
    match fault {
        FolderFault::Unlisted(_)
        | FolderFault::NoFile
        | FolderFault::Unread { .. }
        | FolderFault::TooLarge { .. } => "lg: read\n",
        FolderFault::Memory => RunFault::Memory.text(),
        FolderFault::Write(fault) => fault.text(),
    }
}

/// Why a folder or a file can't be read.
fn unread_words(kind: ErrorKind) -> &'static str
    ensures { result.now ≡ unread_words kind }
{
    match kind {
        ErrorKind::NotFound => "it isn't there",
        ErrorKind::NotADirectory => "it is no folder",
        ErrorKind::IsADirectory => "it is a folder",
        ErrorKind::PermissionDenied => "permission is denied",
        _ => "the machine refuses it",
    }
}

/// The second line of a fault: what of the folder couldn't be read, and why. It is empty if the first says all.
/// Allocates the line; the only error is that memory was refused.
pub(crate) fn second_line(
    alloc: Global,
    folder: &str,
    fault: FolderFault,
) -> Result<String, AllocError>
    ensures { IfOk result (λ text. string_bytes text ≡ second_line folder.now fault) }
{
    match fault {
        FolderFault::Unlisted(kind) => {
            let words = unread_words(kind);
            format!(in alloc; "the folder {folder} can't be listed: {words}\n")
        }
        FolderFault::NoFile => {
            format!(in alloc; "the folder {folder} has no file of a recording\n")
        }
        FolderFault::Unread { number, kind } => {
            let words = unread_words(kind);
            format!(in alloc; "file {number} of the folder {folder} can't be read: {words}\n")
        }
        FolderFault::TooLarge { number } => {
            format!(in alloc;
                "file {number} of the folder {folder} has more than 256000000 bytes\n"
            )
        }
        FolderFault::Memory | FolderFault::Write(_) => Ok(String::new(alloc)),
    }
}
