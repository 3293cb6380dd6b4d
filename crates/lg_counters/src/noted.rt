//! What a node counts of one call that was answered.
//!
//! Defined in: `specs/Meaning/Tally.antt`.
//! Tested in: `lg_answers_tests/src/showing.rt`, `lg_answers_tests/src/counting.rt`.
ghost use Rattle.std.specs.Prelude.{◌≡◌};
ghost use Rattle.lg_counters.specs.Meaning.Tally.{noted_of};

use crate::tally::Tally;
use lg_detector::Reply;
use lg_rules::Name;

/// What a node counts of one call that was answered.
#[derive(Clone, Copy, Debug, Default, PartialEq, Eq)]
pub struct Noted {
    /// Datagrams that were sent.
    pub sent: u64,
    /// Datagrams that couldn't be sent.
    pub unsent: u64,
    /// What the reply counts.
    pub tally: Tally,
}

impl Noted {
    /// What a node whose member has this name counts of a reply of which so many packets weren't sent.
    pub fn of(name: &Name, reply: &Reply, unsent: u64) -> Noted
        ensures { result ≡ noted_of name.now reply.now unsent }
    {
        let sends = reply.sends.len() as u64;
        Noted {
            sent: sends.saturating_sub(unsent),
            unsent,
            tally: Tally::of(name, reply),
        }
    }
}
