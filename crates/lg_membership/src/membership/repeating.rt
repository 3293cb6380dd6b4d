//! Leaves that are told once more, since somebody hasn't heard of them.
//!
//! Defined in: `specs/Meaning/Gossip.antt`.
//! Tested in: `lg_news_tests/src/leaving/repeating.rt`.
ghost use Rattle.std.specs.Prelude.{◌≡◌, option_copied};
ghost use Rattle.lg_membership.specs.Meaning.Gossip.{is_left, record_if};
ghost use Rattle.lg_membership.specs.Support.State.{repeated_in};

use super::Membership;
use crate::addressee::tells_news;
use lg_rules::{Claim, Record, Status};

/// A record, if there is one and it is Left.
fn if_left(found: Option<&Record>) -> Option<Record>
    ensures { result ≡ record_if is_left (option_copied found.entry) }
{
    match found {
        Some(record) if matches!(record.status, Status::Left) => Some(*record),
        _ => None,
    }
}

impl Membership {
    /// The record of a leave that is to be told once more: a claim suspects a member that is known here to have left.
    /// It is so in version 3, unless the queue still has a claim about the member to send (this project's choice).
    pub(super) fn leave_to_repeat(&self, claim: &Claim) -> Option<Record>
        ensures { result ≡ repeated_in claim.now self.now }
    {
        let repeats = tells_news(self.version())
            && matches!(claim.status, Status::Suspect(_))
            && !self.queue.may_send(&claim.name, self.members.live());
        if repeats {
            if_left(self.members.get(&claim.name))
        } else {
            None
        }
    }
}
