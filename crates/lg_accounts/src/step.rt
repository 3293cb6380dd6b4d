//! The things that an entry of a recording tells of a member.

use arrayvec::ArrayVec;
use lg_detector::MAX_SENDS;
use lg_rules::{Addr, Claim, Name, Record};

/// Whom a PingReq went to.
#[derive(Clone, Copy, Debug, PartialEq, Eq)]
pub struct Helper {
    /// The address that the packet went to.
    pub addr: Addr,
    /// The first member of the table whose record has this address, if there is one and the table is known.
    pub name: Option<Name>,
}

/// A slot for a helper.
impl Default for Helper {
    ghost is_default = { λ _. Unit {0} };

    fn default() -> Self {
        Helper {
            addr: Addr::default(),
            name: None,
        }
    }
}

/// One thing that an entry tells of a member. Moments and spans of time are in milliseconds.
#[derive(Debug, Drop)]
pub enum NoteStep {
    /// A probe of it began: a Ping was sent to it.
    Pinged {
        /// The number of the probe.
        probe: u32,
        /// Where the Ping went.
        addr: Addr,
    },
    /// No Ack came within the timeout of its probe, so that helpers were asked, if there were any.
    Unanswered {
        /// The timeout.
        within: u64,
        /// Whom it was asked of.
        helpers: ArrayVec<Helper, MAX_SENDS>,
    },
    /// A Nack to its probe came: the helper has no Ack so far.
    Nacked {
        /// The sender.
        by: Name,
    },
    /// An Ack to its probe came.
    Acked {
        /// The sender.
        by: Name,
    },
    /// The round of its probe ended.
    RoundEnded {
        /// Whether that is known to have been without an Ack.
        is_failed: bool,
    },
    /// The health score of the node changed.
    Scored {
        /// The score before.
        before: u64,
        /// The score after.
        after: u64,
    },
    /// A claim about it was heard.
    Told {
        /// The claim.
        claim: Claim,
    },
    /// The time of its suspicion was over.
    TimeOver,
    /// Its record changed.
    Changed {
        /// The record after the entry.
        record: Record,
    },
    /// It is suspected, with another timeout than before.
    Suspected {
        /// How many members of the table are neither failed nor left.
        live: u64,
        /// How many confirmations of the suspicion came.
        confirmations: u64,
        /// How many count.
        most: u64,
        /// The timeout after the confirmations that came.
        timeout_ms: u64,
    },
    /// What was of the node in the minute before: how its rounds ended, and for how long its clock stood still.
    Minute {
        /// How many rounds ended.
        ended: u64,
        /// How many of these ended with a suspicion of some member.
        suspected: u64,
        /// For how long the clock of the node stood still.
        stood_still_ms: u64,
    },
}
