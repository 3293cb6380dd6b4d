//! A claim that waits to be sent, and how often it was sent.
//!
//! Defined in: `specs/Meaning/Queue.antt`.
//! Tested in: `lg_parts_tests/src/gossip.rt`.
ghost use Rattle.std.specs.Prelude.{◌≡◌};

use crate::limit::MAX_TIMES_SENT;
use lg_rules::{Claim, Keyed, Name, Version};

/// A queued claim, and how many packets took it. It stays in the queue.
#[derive(Clone, Copy, Debug, Default, PartialEq, Eq)]
pub struct Queued {
    /// The claim.
    pub claim: Claim,
    /// How many packets took it since it was queued: at most 200 in a queue. A packet that had it as its buddy isn't
    /// counted. A claim whose address the version of the queue can't tell has 200 from the outset.
    pub sends: u32,
}

impl Queued {
    ghost use Rattle.lg_gossip.specs.Meaning.Queue.{fresh};

    /// A claim that no packet has taken yet. If the version can't tell its address, it counts as sent as often as any
    /// claim may be, so that no packet takes it.
    pub(crate) fn fresh(version: Version, claim: Claim) -> Queued
        ensures { result ≡ fresh version claim }
    {
        let sends = if version.tells(&claim.addr) {
            0
        } else {
            MAX_TIMES_SENT as u32
        };
        Queued { claim, sends }
    }
}

/// Rows of the queue are in the order of the names of the members that they are about.
impl Keyed for Queued {
    ghost use Rattle.lg_gossip.specs.Meaning.Queue.{queued_name};

    ghost key_of = { queued_name };

    fn key(&self) -> Name {
        self.claim.name
    }
}
