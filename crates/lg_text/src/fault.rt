//! Why a run over an input failed.
//!
//! Defined in: `specs/Meaning/Faults.antt`.
//! Tested in: `cases/command_line.case`, `cases/limits.case`.
ghost use Rattle.std.specs.Prelude.{◌≡◌, ◌≤◌, length};
ghost use Rattle.lg_text.specs.Meaning.Faults.{run_fault_text, unread_text, unwritten_text};
ghost use Rattle.lg_text.specs.declared.fault.RunFault.TheVariants.{Memory, Write};

use crate::input::MAX_INPUT;
use std::alloc::AllocError;
use std::io::ErrorKind;
use thiserror::Error;

/// The most bytes of the lines that report a fault of a run, their newlines included.
pub const MAX_FAULT_TEXT: usize = 72;

/// Why an input couldn't be read.
#[derive(Clone, Copy, Debug, PartialEq, Eq)]
pub enum InputFault {
    /// It has more bytes than an input may have.
    TooLong,
    /// A read failed, with an error of this kind. That of an input that is interrupted too often is
    /// [`ErrorKind::Interrupted`].
    Failed(ErrorKind),
}

/// Why an output couldn't be written.
#[derive(Clone, Copy, Debug, PartialEq, Eq, Error)]
#[error("the output can't be written")]
pub struct WriteFault {
    /// The kind of the error of the write or the flush that failed. That of a write which took nothing is
    /// [`ErrorKind::WriteZero`].
    pub kind: ErrorKind,
}

/// Why a run over an input wrote no text, or not all of it.
#[derive(Clone, Copy, Debug, PartialEq, Eq, Error)]
pub enum RunFault {
    /// Memory was refused; nothing was written.
    #[error("memory was refused")]
    Memory,
    /// The input was too long or couldn't be read; nothing was written.
    #[error("the input can't be read, or has more than {most} bytes", most = MAX_INPUT)]
    Read(InputFault),
    /// The text couldn't be written; a beginning of it may have been.
    #[error(transparent)]
    Write(WriteFault),
}

impl RunFault {
    /// The lines that report the fault, with their newlines: `lg: ` and a word, and for a fault of reading or writing a
    /// second line that says why.
    pub fn text(self) -> &'static str
        ensures says { result.now ≡ run_fault_text self }
        ensures within { length result.now ≤ MAX_FAULT_TEXT }
    {
        match self {
            RunFault::Memory => "lg: memory\n",
            RunFault::Read(fault) => unread_text(fault),
            RunFault::Write(fault) => fault.text(),
        }
    }
}

/// The lines that report why standard input couldn't be read.
fn unread_text(fault: InputFault) -> &'static str
    ensures says { result.now ≡ unread_text fault }
    ensures within { length result.now ≤ MAX_FAULT_TEXT }
{
    match fault {
        InputFault::TooLong => "lg: read\nstandard input has more than 1048576 bytes\n",
        InputFault::Failed(ErrorKind::IsADirectory) =>
            "lg: read\nstandard input can't be read: it is a folder\n",
        InputFault::Failed(_) => "lg: read\nstandard input can't be read: the machine refuses it\n",
    }
}

impl WriteFault {
    /// The two lines that report the fault, with their newlines: `lg: write`, and why.
    pub fn text(self) -> &'static str
        ensures says { result.now ≡ unwritten_text self.kind }
        ensures within { length result.now ≤ MAX_FAULT_TEXT }
    {
        match self.kind {
            ErrorKind::BrokenPipe =>
                "lg: write\nstandard output can't be written: nobody reads it\n",
            ErrorKind::StorageFull | ErrorKind::QuotaExceeded =>
                "lg: write\nstandard output can't be written: no space is left\n",
            ErrorKind::FileTooLarge =>
                "lg: write\nstandard output can't be written: the file would be too large\n",
            ErrorKind::WriteZero =>
                "lg: write\nstandard output can't be written: it takes nothing\n",
            _ => "lg: write\nstandard output can't be written: the machine refuses it\n",
        }
    }
}

impl From<WriteFault> for RunFault {
    ghost from_gives = { λ unwritten fault. fault ≡ Write unwritten };

    fn from(unwritten: WriteFault) -> RunFault {
        RunFault::Write(unwritten)
    }
}

impl From<AllocError> for RunFault {
    ghost from_gives = { λ _ fault. fault ≡ Memory };

    fn from(_refused: AllocError) -> RunFault {
        RunFault::Memory
    }
}
