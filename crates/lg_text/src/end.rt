//! How a run over the lines of an input ended.
//!
//! Defined in: this file.
//! Tested in: `cases/answer.case`.

/// How a run over the lines of an input ended. The number of each variant is its exit status (this project's choice).
#[derive(Clone, Copy, Debug, PartialEq, Eq)]
pub enum RunEnd {
    /// No line was faulty.
    Done = 0,
    /// A line was faulty.
    Faulty = 3,
}
