//! The packets that are sent, and the claims that ride on them (piggyback). The packets are filled one after another.
//! Each is written over the packet that the reply had in the same slot before, since a packet is large. A Ping for a
//! member whose record is Suspect begins with that record (Lifeguard's buddy system). A Nack takes no claims (this
//! project's choice). Pulls and Pages are in `joining.rt`. Each packet has the version of this member's configuration,
//! also one that answers a packet of another version, and its group, if it has one (this
//! project's choice).
//!
//! Defined in: `specs/Meaning/Send.antt`, `specs/Support/Send.antt`.
//! Tested in: `lg_news_tests/src/sending.rt`.
ghost use Rattle.std.specs.Prelude.{◌≡◌, [], ◌∷◌};
ghost use Rattle.lg_membership.specs.Meaning.Gossip.{version_sent};
ghost use Rattle.lg_rules.specs.declared.version.Version.TheVariants.{One, Two};
ghost use Rattle.lg_detector.specs.Meaning.Send.{acked_one, body_told};
ghost use Rattle.lg_detector.specs.Support.Send.{claims_of_state, headed_state, outgoing_state, packet_state};
ghost use Rattle.lg_detector.specs.Support.Send.{send_state};

use super::Detector;
use crate::message::Message;
use crate::reply::Outgoing;
use crate::sends::{Sends, make_slots};
use arrayvec::ArrayVec;
use lg_membership::Addressee;
use lg_packet::{Body, Packet};
use lg_rules::{Claim, MAX_CLAIMS, Name, Version};

/// Leaves out the receiver of a body, if it has one.
fn leave_out_receiver(body: &mut Body)
    ensures one { body.new ≡ body_told One body.old }
    ensures two { body.new ≡ body_told Two body.old }
{
    match body {
        Body::Ack { receiver, .. } => *receiver = None,
        Body::Nack { receiver, .. } => *receiver = None,
        Body::Ping { .. } | Body::PingReq { .. } | Body::Pull { .. } | Body::Page | Body::Gossip =>
            {}
    }
}

/// Brings a body to what a packet of a version tells: versions 1 and 2 tell no receiver.
fn keep_told(version: Version, body: &mut Body)
    ensures { body.new ≡ body_told version body.old }
{
    match version {
        Version::One | Version::Two => leave_out_receiver(body),
        Version::Three => {}
    }
}

/// Whom an Ack goes to, as far as its buddy goes.
fn acked_one(receiver: &Option<Name>) -> Addressee
    ensures { result ≡ acked_one receiver.now }
{
    match receiver {
        Some(receiver) => Addressee::Acked(*receiver),
        None => Addressee::Anybody,
    }
}

impl Detector {
    /// Sends one packet. Overwrites what `sends` held.
    #[inline]
    pub(super) fn send(&mut self, message: &Message, sends: &mut Sends)
        ensures state { self.new ≡ send_state message.now.body self.old }
        ensures sends { sends.new.items ≡ outgoing_state message.now self.old ∷ [] }
    {
        make_slots(&mut sends.slots, 1);
        self.put_packet(message, &mut sends.slots[0]);
        sends.count = 1;
    }

    /// The version of all that this member sends.
    pub(super) fn version(&self) -> Version
        ensures { result ≡ version_sent self.now.membership.config }
    {
        self.parts.membership.version()
    }

    /// Writes the version, the group and the sender of a packet.
    pub(super) fn put_head(&self, packet: &mut Packet)
        ensures { packet.new ≡ headed_state self.now packet.old }
    {
        packet.version = self.version();
        self.put_group(&mut packet.group);
        packet.sender = self.name();
    }

    /// Overwrites a packet. The claims that it takes of the queue count as sent.
    #[inline]
    pub(super) fn put_packet(&mut self, message: &Message, place: &mut Outgoing)
        ensures state { self.new ≡ send_state message.now.body self.old }
        ensures sent { place.new ≡ outgoing_state message.now self.old }
    {
        place.to = message.to;
        place.packet.body = message.body;
        self.fill_packet(&mut place.packet);
    }

    /// Writes what a packet tells beside its body, and leaves out of that what its version doesn't tell. The claims
    /// that it takes of the queue count as sent.
    // Inlined, it would clear places for all kinds of bodies in each function that sends one.
    #[inline(never)]
    fn fill_packet(&mut self, packet: &mut Packet)
        ensures state { self.new ≡ send_state packet.old.body self.old }
        ensures packet { packet.new ≡ packet_state packet.old.body self.old }
    {
        self.put_head(packet);
        self.fill_claims(&packet.body, &mut packet.claims);
        keep_told(packet.version, &mut packet.body);
    }

    /// Overwrites claims with those of the queue that a packet with this body takes. They count as sent.
    fn fill_claims(&mut self, body: &Body, claims: &mut ArrayVec<Claim, MAX_CLAIMS>)
        ensures state { self.new ≡ send_state body.now self.old }
        ensures claims { claims.new.items ≡ claims_of_state body.now self.old }
    {
        match body {
            Body::Ping { target, .. } => self
                .parts
                .membership
                .fill_into(&Addressee::Pinged(*target), claims),
            Body::Ack { receiver, .. } => self
                .parts
                .membership
                .fill_into(&acked_one(receiver), claims),
            Body::PingReq { .. } | Body::Gossip => self
                .parts
                .membership
                .fill_into(&Addressee::Anybody, claims),
            Body::Nack { .. } | Body::Pull { .. } | Body::Page => claims.clear(),
        }
    }
}
