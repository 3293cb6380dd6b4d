//! Why a folder isn't replayed, or not all of it.
//!
//! Defined in: `specs/Meaning/Folders.antt`.
//! Tested in: `lg_replay_tests/src/folders.rt`, `lg_replay_tests/src/disk.rt`.
ghost use Rattle.std.specs.Prelude.{◌≡◌};

use lg_text::WriteFault;
use std::alloc::AllocError;
use std::io::ErrorKind;

/// Why a folder isn't replayed, or not all of it.
#[derive(Clone, Copy, Debug, PartialEq, Eq)]
pub enum FolderFault {
    /// The folder can't be listed. This is the kind of the error. Nothing was written.
    Unlisted(ErrorKind),
    /// The folder has no file of a recording. Nothing was written.
    NoFile,
    /// A file can't be read. What is told of those before it was written.
    Unread {
        /// The number of the file.
        number: u64,
        /// The kind of the error.
        kind: ErrorKind,
    },
    /// A file has more than [`MAX_FILE_BYTES`](crate::MAX_FILE_BYTES). What is told of those before it was written.
    TooLarge {
        /// The number of the file.
        number: u64,
    },
    /// Memory was refused. What is told of some files was written, the first ones, or nothing.
    Memory,
    /// The output can't be written. A beginning of what is told of the files that were read was.
    Write(WriteFault),
}

impl From<AllocError> for FolderFault {
    ghost use Rattle.lg_replay.specs.declared.fault.FolderFault.TheVariants.{Memory};

    ghost from_gives = { λ _ told. told ≡ Memory };

    fn from(_refused: AllocError) -> FolderFault {
        FolderFault::Memory
    }
}

impl From<WriteFault> for FolderFault {
    ghost use Rattle.lg_replay.specs.declared.fault.FolderFault.TheVariants.{Write};

    ghost from_gives = { λ fault told. told ≡ Write fault };

    fn from(fault: WriteFault) -> FolderFault {
        FolderFault::Write(fault)
    }
}
