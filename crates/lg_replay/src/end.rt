//! How the replay of recordings ends.
//!
//! Defined in: `specs/Meaning/Replays.antt`.
//! Tested in: `lg_replay_tests/src/lives.rt`.

/// How the replay of recordings ends.
#[derive(Clone, Copy, Debug, PartialEq, Eq)]
pub enum ReplayEnd {
    /// Every reply was checked and is the due one, and nothing is wrong with a file. The last file of a life may break
    /// off.
    Done,
    /// Some reply isn't the due one, or something is wrong with a file.
    Faulty,
    /// Some replies couldn't be checked. Nothing else is wrong.
    Unchecked,
}
