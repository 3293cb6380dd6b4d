//! How a loop ends.
//!
//! Defined in: this file.
//! Tested in: `lg_node_tests/src/node/receiving.rt`, `lg_node_tests/src/node/ticking.rt`.

use lg_agent::{AgentName, Refusal, Spent};
use thiserror::Error;

/// Why a loop ended.
#[derive(Clone, Copy, Debug, PartialEq, Eq, Error)]
pub enum Why {
    /// It was told to stop, or its end time came. A ticking loop whose plan says so has left its group then, unless it
    /// made no turn since the receiving one had no thread.
    #[error("the loop was told to stop, or its time was over")]
    Stopped,
    /// A claim about this member came that nothing can refute. The packets of that reply were handed over first.
    #[error("the member was ousted: a claim about it came that nothing can refute")]
    Ousted,
    /// Receiving failed.
    #[error("receiving failed")]
    LinkFailed,
    /// A call or a look of the pass was refused, for another reason than that bytes are no packet. If a call was
    /// refused because the history is full, it was made again after a rotation, or memory for that was refused.
    #[error(transparent)]
    Refused(Refusal),
    /// It made as many turns as are allowed, and isn't endless. No loop of a node ends so.
    #[error("the loop made as many turns as it may")]
    ReadBound,
}

/// How a loop ended.
#[derive(Clone, Copy, Debug, PartialEq, Eq)]
pub struct LoopEnd {
    /// Why.
    pub why: Why,
    /// How many datagrams were dropped, since their bytes are no packet.
    pub dropped: u64,
    /// How many packets were handed to the link and not sent.
    pub unsent: u64,
    /// How many turns it made.
    pub turns: u64,
}

/// What a loop gives back.
#[derive(Drop)]
pub struct Ended<L, A: AgentName> {
    /// Its link.
    pub link: L,
    /// What its pass left.
    pub spent: Spent<A>,
    /// How it ended.
    pub end: LoopEnd,
}
