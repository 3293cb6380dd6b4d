//! Why entries weren't written.
//!
//! Defined in: `specs/Meaning/FaultLines.antt`.
//! Tested in: `lg_recorder_tests/src/recording.rt`.
ghost use Rattle.std.specs.Prelude.{◌≡◌};
ghost use Rattle.lg_recorder.specs.Meaning.FaultLines.{record_fault_line};

use std::io::ErrorKind;

/// Why entries of a batch weren't written: the folder failed, or memory was refused.
#[derive(Clone, Copy, Debug, PartialEq, Eq)]
pub struct RecordFault {
    /// The kind of the error.
    pub kind: ErrorKind,
    /// Whether it is the first since a batch was written whole. Only such a one is told.
    pub is_first: bool,
}

impl RecordFault {
    /// It as a line.
    pub fn line(&self) -> &'static str
        ensures { result.now ≡ record_fault_line self.now.kind }
    {
        match self.kind {
            ErrorKind::StorageFull => "the recording has a gap: the disk is full\n",
            ErrorKind::QuotaExceeded => "the recording has a gap: the disk is full\n",
            ErrorKind::NotFound => "the recording has a gap: the folder isn't there\n",
            ErrorKind::PermissionDenied =>
                "the recording has a gap: the folder can't be written to\n",
            ErrorKind::ReadOnlyFilesystem =>
                "the recording has a gap: the folder can't be written to\n",
            ErrorKind::OutOfMemory => "the recording has a gap: memory is refused\n",
            _ => "the recording has a gap: the folder failed\n",
        }
    }
}
