//! What a claim about this member puts into the queue, and what the opening and a leave put there.
//!
//! Defined in: `specs/Meaning/Gossip.antt`, `specs/Meaning/Applied.antt`.
//! Tested in: `lg_parts_tests/src/membership/queue.rt`.
ghost use Rattle.std.specs.Prelude.{◌≡◌};
ghost use Rattle.lg_rules.specs.Support.Standing.{is_rise};
ghost use Rattle.lg_membership.specs.Meaning.Gossip.{own_arrival, doubts, put_of_own, put_if_answered, put_if_leaves};
ghost use Rattle.lg_membership.specs.Meaning.Applied.{is_refuted};
ghost use Rattle.lg_membership.specs.Support.State.{is_answered};

use super::{Membership, is_same_name};
use crate::addressee::{is_doubted, tells_news};
use lg_rules::{Claim, Own, OwnHeard, Version};

/// Whether hearing a claim about this member raised its incarnation.
fn is_rise(heard: OwnHeard) -> bool
    ensures { result ≡ is_rise heard }
{
    matches!(heard, OwnHeard::Refuted | OwnHeard::Raised)
}

/// Whether hearing a claim about this member refuted a suspicion.
pub(super) fn is_refuted(heard: OwnHeard) -> bool
    ensures { result ≡ is_refuted heard }
{
    matches!(heard, OwnHeard::Refuted)
}

/// This member's own record, if hearing a claim about it raised its incarnation.
pub(super) fn put_of_own(heard: OwnHeard, own: &Own) -> Option<Claim>
    ensures { result ≡ put_of_own heard own.now }
{
    if is_rise(heard) {
        Some(own.record())
    } else {
        None
    }
}

/// What a claim about this member puts into the queue: its own record, if its incarnation was raised, or if the claim
/// is a doubt that is answered.
pub(super) fn put_if_answered(answered: bool, heard: OwnHeard, own: &Own) -> Option<Claim>
    ensures { result ≡ put_if_answered answered heard own.now }
{
    if answered {
        Some(own.record())
    } else {
        put_of_own(heard, own)
    }
}

/// What the opening puts into the queue: in version 3 this member's own record.
pub(super) fn own_arrival(version: Version, own: &Own) -> Option<Claim>
    ensures { result ≡ own_arrival version own.now }
{
    if tells_news(version) {
        Some(own.record())
    } else {
        None
    }
}

/// What a leave puts into the queue: this member's own record, unless it had left before.
pub(super) fn put_if_leaves(has_left: bool, own: &Own) -> Option<Claim>
    ensures { result ≡ put_if_leaves has_left own.now }
{
    if has_left { None } else { Some(own.record()) }
}

/// Whether a claim says that this member is Suspect or Failed at a smaller incarnation than its own.
fn doubts(own: &Own, claim: &Claim) -> bool
    ensures { result ≡ doubts own.now claim.now }
{
    is_same_name(&claim.name, &own.name())
        && is_doubted(&claim.status)
        && claim.incarnation.number() < own.number().number()
}

impl Membership {
    /// Whether a claim doubts this member, and is to be answered: in version 3, unless the queue still has this
    /// member's own record to send, or this member has left.
    pub(super) fn is_answered(&self, claim: &Claim) -> bool
        ensures { result ≡ is_answered claim.now self.now }
    {
        tells_news(self.version())
            && !self.own.has_left()
            && doubts(&self.own, claim)
            && !self.queue.may_send(&self.own.name(), self.members.live())
    }
}
