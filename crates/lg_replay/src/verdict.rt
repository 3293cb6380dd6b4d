//! Whether a reply of a recording is that of the definitions.
//!
//! Defined in: `specs/Meaning/Verdicts.antt`.
//! Tested in: `lg_replay_tests/src/lives.rt`.

/// The verdict on an entry of a recording.
#[derive(Clone, Copy, Debug, PartialEq, Eq)]
pub enum Verdict {
    /// The recorded reply is the due one: both are spelled by the same bytes.
    Same,
    /// It isn't.
    Differs,
    /// No reply is due, since some events before it are missing.
    Unchecked,
}
