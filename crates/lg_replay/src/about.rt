//! Which events and replies are about a member.
//!
//! Defined in: `specs/Meaning/Members.antt`.
//! Tested in: `lg_replay_tests/src/shown.rt`.
ghost use Rattle.std.specs.Prelude.{◌≡◌};
ghost use Rattle.std.specs.List.{list_any};
ghost use Rattle.lg_replay.specs.Meaning.Members.{asks_member, claims_member, fires_for_member, happens_to_member};
ghost use Rattle.lg_replay.specs.Meaning.Members.{names_agree, names_member};
ghost use Rattle.lg_replay.specs.Meaning.Members.{replies_on_member, sends_to_member, tells_member, times_member};

use lg_detector::{Event, Outgoing, Reply, Timer, TimerId};
use lg_packet::{Body, Packet};
use lg_rules::{Claim, Name};

/// Whether a name is there and is this one.
fn names_member(name: &Name, other: &Option<Name>) -> bool
    ensures { result ≡ names_member name.now other.now }
{
    match other {
        Some(other) => *name == *other,
        None => false,
    }
}

/// Whether what a packet asks for or answers is about the member of a name.
fn asks_member(name: &Name, body: &Body) -> bool
    ensures { result ≡ asks_member name.now body.now }
{
    match body {
        Body::Ping { target, .. } => *name == *target,
        Body::PingReq { target, .. } => *name == *target,
        Body::Ack { receiver, .. } => names_member(name, receiver),
        Body::Nack { receiver, .. } => names_member(name, receiver),
        Body::Pull { .. } | Body::Page | Body::Gossip => false,
    }
}

/// Whether some claim is about the member of a name.
fn any_claims_member(name: &Name, claims: &[Claim]) -> bool
    ensures { result ≡ list_any (claims_member name.now) claims.now }
{
    claims.iter().any(|claim| *name == claim.name)
}

/// Whether a packet that is heard is about the member of a name.
fn tells_member(name: &Name, packet: &Packet) -> bool
    ensures { result ≡ tells_member name.now packet.now }
{
    *name == packet.sender
        || any_claims_member(name, packet.claims.as_slice())
        || asks_member(name, &packet.body)
}

/// Whether an event is about the member of a name.
pub(crate) fn happens_to_member(name: &Name, event: &Event) -> bool
    ensures { result ≡ happens_to_member name.now event.now }
{
    match event {
        Event::Heard { packet, .. } => tells_member(name, packet),
        Event::Ask { name: other, .. } => *name == *other,
        Event::Open { .. }
        | Event::Tick { .. }
        | Event::Health { .. }
        | Event::Pull { .. }
        | Event::Leave { .. } => false,
    }
}

/// Whether a timer is one of the member of a name.
fn times_member(name: &Name, id: &TimerId) -> bool
    ensures { result ≡ times_member name.now id.now }
{
    match id {
        TimerId::Suspicion(member) => *name == *member,
        TimerId::Forget(member) => *name == *member,
        TimerId::RoundEnd
        | TimerId::Direct
        | TimerId::RelayNack(_)
        | TimerId::RelayEnd(_)
        | TimerId::RoundStart
        | TimerId::Gossip => false,
    }
}

/// Whether a timer fired that is one of the member of a name.
fn fires_for_member(name: &Name, fired: &Option<Timer>) -> bool
    ensures { result ≡ fires_for_member name.now fired.now }
{
    match fired {
        Some(timer) => times_member(name, &timer.id),
        None => false,
    }
}

/// Whether a packet that is sent is about the member of a name.
fn sends_to_member(name: &Name, outgoing: &Outgoing) -> bool
    ensures { result ≡ sends_to_member name.now outgoing.now }
{
    asks_member(name, &outgoing.packet.body)
}

/// Whether some packet that is sent is about the member of a name.
fn any_sends_to_member(name: &Name, sends: &[Outgoing]) -> bool
    ensures { result ≡ list_any (sends_to_member name.now) sends.now }
{
    sends.iter().any(|outgoing| sends_to_member(name, outgoing))
}

/// Whether some name is that of the member.
fn any_names_agree(name: &Name, names: &[Name]) -> bool
    ensures { result ≡ list_any (names_agree name.now) names.now }
{
    names.iter().any(|other| *name == *other)
}

/// Whether a reply is about the member of a name.
#[tactic(auto, unfolding(crate::specs::Meaning::Members::replies_on_member))]
pub(crate) fn replies_on_member(name: &Name, reply: &Reply) -> bool
    ensures { result ≡ replies_on_member name.now reply.now }
{
    fires_for_member(name, &reply.fired)
        || any_sends_to_member(name, reply.sends.as_slice())
        || any_claims_member(name, reply.changed.as_slice())
        || any_names_agree(name, reply.forgotten.as_slice())
}
