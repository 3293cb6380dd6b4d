//! What an entry has about a member: who told it, and how its record changed.
//!
//! Defined in: `specs/Meaning/About.antt`.
//! Tested in: `lg_explain_tests/src/explaining.rt`.
ghost use Rattle.std.specs.Prelude.{◌≡◌, find, option_copied};
ghost use Rattle.std.specs.List.{list_any};
ghost use Rattle.lg_detector.specs.Meaning.Groups.{is_of_group};
ghost use Rattle.lg_notes.specs.Meaning.About.{changes_verdict, is_about, is_heard, is_same_name, is_suspect_record};
ghost use Rattle.lg_notes.specs.Meaning.About.{is_verdict, record_changed, suspects_member, suspects_some, teller_of};

use crate::subject::NoteSubject;
use lg_detector::{Event, Reply};
use lg_packet::Packet;
use lg_rules::{Claim, Name, Record, Status, Version};

/// Whether a record or a claim is about the member of a name.
pub(crate) fn is_about(name: &Name, claim: &Claim) -> bool
    ensures { result ≡ is_about name.now claim.now }
{
    *name == claim.name
}

/// Whether the name is among these.
pub(crate) fn is_named(name: &Name, names: &[Name]) -> bool
    ensures { result ≡ list_any (is_same_name name.now) names.now }
{
    names.iter().any(|other| *name == *other)
}

/// Whether a packet is of a group, or of none if the node has none. Only packets of version 3 can name a group.
fn is_of_group(group: &Option<Name>, packet: &Packet) -> bool
    ensures { result ≡ is_of_group group.now packet.now }
{
    match (group, &packet.group) {
        (None, other) => other.is_none(),
        (Some(group), Some(other)) => {
            other.cmp(group).is_eq() && matches!(packet.version, Version::Three)
        }
        (Some(_), None) => false,
    }
}

/// Whether a packet is heard: it is of the node's group.
pub(crate) fn is_heard(subject: &NoteSubject, packet: &Packet) -> bool
    ensures { result ≡ is_heard subject.now packet.now }
{
    is_of_group(&subject.group, packet)
}

/// The sender of the packet that was heard, if the event is that one was, and if it is of the node's group. Allocates
/// nothing.
pub fn teller_of(subject: &NoteSubject, event: &Event) -> Option<Name>
    ensures { result ≡ teller_of subject.now event.now }
{
    let Event::Heard { packet, .. } = event else {
        return None;
    };
    if is_heard(subject, packet) {
        Some(packet.sender)
    } else {
        None
    }
}

/// Whether a record says that its member is suspected.
fn is_suspect_record(claim: &Record) -> bool
    ensures { result ≡ is_suspect_record claim.now }
{
    matches!(claim.status, Status::Suspect(_))
}

/// Whether a record says that its member is suspected, failed or left.
fn is_verdict(claim: &Record) -> bool
    ensures { result ≡ is_verdict claim.now }
{
    is_suspect_record(claim) || claim.status.is_gone()
}

/// The first of some records that is about the member of a name.
fn first_about<'a>(name: &Name, records: &'a [Record]) -> Option<&'a Record>
    ensures { option_copied result ≡ find (is_about name.now) records.now }
{
    records.iter().find(|record| is_about(name, record))
}

/// The member's record after an entry, if the entry changed it.
#[tactic(auto, unfolding(crate::specs::Meaning::About::record_changed))]
pub(crate) fn record_changed<'a>(name: &Name, reply: &'a Reply) -> Option<&'a Record>
    ensures { option_copied result ≡ record_changed name.now reply.now }
{
    first_about(name, reply.changed.as_slice())
}

/// Whether an entry changed the member's record to suspect.
pub(crate) fn suspects_member(name: &Name, reply: &Reply) -> bool
    ensures { result ≡ suspects_member name.now reply.now }
{
    match record_changed(name, reply) {
        Some(record) => is_suspect_record(record),
        None => false,
    }
}

/// Whether the reply of an entry changed the record of the member of this name to suspect, failed or left. Allocates
/// nothing.
pub fn changes_verdict(name: &Name, reply: &Reply) -> bool
    ensures { result ≡ changes_verdict name.now reply.now }
{
    match record_changed(name, reply) {
        Some(record) => is_verdict(record),
        None => false,
    }
}

/// Whether some record is that of a suspect.
fn any_suspect(records: &[Record]) -> bool
    ensures { result ≡ list_any is_suspect_record records.now }
{
    records.iter().any(|record| is_suspect_record(record))
}

/// Whether the reply of an entry changed the record of some member to suspect. Allocates nothing.
pub fn suspects_some(reply: &Reply) -> bool
    ensures { result ≡ suspects_some reply.now }
{
    any_suspect(reply.changed.as_slice())
}
