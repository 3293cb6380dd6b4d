//! Whom a packet goes to, and the record that it begins with.
//!
//! Defined in: `specs/Meaning/Gossip.antt`.
//! Tested in: `lg_parts_tests/src/membership/queue.rt`.
ghost use Rattle.std.specs.Prelude.{◌≡◌, option_copied};
ghost use Rattle.lg_membership.specs.Meaning.Gossip.{tells_news, is_doubted, record_if, buddy_record};
ghost use Rattle.lg_gossip.specs.Meaning.Queue.{is_suspect};

use lg_rules::{Members, Name, Record, Status, Version};

/// Whom a packet goes to, as far as its buddy goes: the record that it begins with, if it begins with one (Lifeguard,
/// buddy system).
#[derive(Clone, Copy, Debug, PartialEq, Eq)]
pub enum Addressee {
    /// Anybody: the packet has no buddy.
    Anybody,
    /// The member that a Ping goes to. If its record is Suspect, that is the buddy.
    Pinged(Name),
    /// The member that an Ack goes to. In version 3, if its record is Suspect or Failed, that is the buddy (this
    /// project's choice).
    Acked(Name),
}

/// Whether a member with this version tells of itself unasked: in version 3 alone.
pub(crate) fn tells_news(version: Version) -> bool
    ensures { result ≡ tells_news version }
{
    match version {
        Version::One | Version::Two => false,
        Version::Three => true,
    }
}

/// Whether a status doubts a member: it is Suspect or Failed.
pub(crate) fn is_doubted(status: &Status) -> bool
    ensures { result ≡ is_doubted status.now }
{
    match status {
        Status::Suspect(_) | Status::Failed => true,
        Status::Alive | Status::Left => false,
    }
}

/// A record, if there is one and it is Suspect.
fn if_suspect(found: Option<&Record>) -> Option<&Record>
    ensures { option_copied result ≡ record_if is_suspect (option_copied found.entry) }
{
    match found {
        Some(record) if matches!(record.status, Status::Suspect(_)) => Some(record),
        _ => None,
    }
}

/// A record, if there is one and it is Suspect or Failed.
fn if_doubted(found: Option<&Record>) -> Option<&Record>
    ensures { option_copied result ≡ record_if is_doubted (option_copied found.entry) }
{
    match found {
        Some(record) if is_doubted(&record.status) => Some(record),
        _ => None,
    }
}

/// The record that a packet of a version begins with, among those of the others.
pub(crate) fn buddy_record<'a>(
    version: Version,
    to: &Addressee,
    members: &'a Members,
) -> Option<&'a Record>
    ensures { option_copied result ≡ buddy_record version to.now members.now.table }
{
    match to {
        Addressee::Anybody => None,
        Addressee::Pinged(name) => if_suspect(members.get(name)),
        Addressee::Acked(name) => {
            if tells_news(version) {
                if_doubted(members.get(name))
            } else {
                None
            }
        }
    }
}
