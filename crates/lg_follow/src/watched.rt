//! How a watcher ended.
//!
//! Defined in: `specs/Meaning/Sights.antt`.
//! Tested in: `lg_node_tests/src/watching.rt`.
use lg_agent::Refusal;

/// How a watcher ended. This also says how one of its turns went.
#[derive(Clone, Copy, Debug, PartialEq, Eq)]
pub enum Watched {
    /// All was told: the last look that it told of is at all events that its pass has seen.
    Told,
    /// The last turn was refused, so what changed since the turn before may not be told. The refusal is
    /// [`Refusal::NoMemory`] if memory was refused, for the look or for its text, and otherwise [`Refusal::NoView`].
    Refused(Refusal),
    /// The writer failed, as it does if the reader of its output went away. Nothing was told from then on.
    WriterFailed,
}
