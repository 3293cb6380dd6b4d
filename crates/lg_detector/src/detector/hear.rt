//! The event Heard: the claims of a packet are applied in their order, and then its body is handled. So an Ack or a
//! relayed Ping carries what the claims have just put into the queue. Where a claim lacks room for its member, a member
//! that is gone is forgotten first: `forget.rt`.
//!
//! - A Ping or a PingReq for this member gets an Ack with its number, sent to where it came from. A Ping for another
//!   member does nothing.
//! - A PingReq for another member (an indirect probe) opens a relay. The relay takes the next sequence number, and
//!   a Ping for the target goes to the address in the PingReq. If as many relays are open as are allowed, a Nack with
//!   the PingReq's number goes at once to where the PingReq came from.
//! - An Ack counts for the probe that runs, by its number and its sender. It counts for a relay in the same way: the
//!   relay is closed, and its asker gets an Ack with the asker's number.
//! - A Nack counts for the probe that runs, once for each helper that was asked.
//! - An Ack and a Nack name their receiver in version 3. One for another receiver does nothing, but its claims count.
//! - A Pull is answered by a Page, and a full Page by the next Pull: `joining.rt`. The claims of a Page are merged
//!   gently:
//!   `merge.rt`.
//! - Nothing answers a Gossip: only its claims count.
//! - A packet of another group than this member's own is dropped: it only moves the moment on (this project's choice).
//!   `group.rt` says which these are.
//!
//! Defined in: `specs/Meaning/Hear.antt`, `specs/Support/Hear.antt`, `specs/Meaning/Joining.antt`.
//! Tested in: `lg_detector_tests/src/detector/hear.rt`, `lg_detector_tests/src/detector/acks.rt`.
ghost use Rattle.std.specs.Prelude.{◌≡◌, ◌<◌, ◌≤◌, [], ◌∷◌};
ghost use Rattle.std.specs.Prelude.{◌==◌, ◌&&◌, None, Some, length, option_map};
ghost use Rattle.lg_rules.specs.Meaning.Rows.{name_cmp, is_same};
ghost use Rattle.lg_rules.specs.Meaning.View.{changed};
ghost use Rattle.lg_packet.specs.declared.packet.Body.TheVariants.{Ping, PingReq};
ghost use Rattle.lg_probe.specs.Meaning.Relays.{ended_asker};
ghost use Rattle.lg_membership.specs.Meaning.Gossip.{version_sent};
ghost use Rattle.lg_detector.specs.Meaning.Groups.{own_group, is_of_group};
ghost use Rattle.lg_detector.specs.Meaning.Hear.{asker_from, claims_heard, is_for, is_meant, table_teller};
ghost use Rattle.lg_detector.specs.Meaning.Hear.{pass_on};
ghost use Rattle.lg_detector.specs.Support.Hear.{answer_state, hear_state, hear_claims_state, note_state};
ghost use Rattle.lg_detector.specs.Support.Hear.{respond_state};
ghost use Rattle.lg_detector.specs.Support.Hear.{response_state, sends_of_state, sends_to_state};
ghost use Rattle.lg_detector.specs.Support.Send.{outgoing_state, packets_state, send_all_state, send_state};
ghost use Rattle.lg_detector.specs.Support.State.{come_state, forgotten_each, hear_ack, hear_nack, open_relay};
ghost use Rattle.lg_detector.specs.Support.Step.{view_state};

use super::group::{claims_heard, is_of_group};
use super::{Detector, MAX_EVENTS, relay, round};
use crate::message::Message;
use crate::reply::Reply;
use crate::sends::Sends;
use lg_packet::{Body, Packet};
use lg_probe::{Asker, MAX_RELAYS};
use lg_rules::{Addr, Name};
use lg_timing::Moment;

/// Who asks by a packet: its sender, where it came from, and the number in it.
fn asker_from(sender: &Name, source: Addr, number: u32) -> Asker
    ensures { result ≡ asker_from sender.now source number }
{
    Asker {
        name: *sender,
        addr: source,
        number,
    }
}

/// The Ping of a relay: of a target at the address that the PingReq told, with the relay's number.
fn relayed_ping(number: u32, target: &Name, addr: Addr) -> Message
    ensures { result ≡ record { to = addr; body = Ping number target.now } }
{
    Message {
        to: addr,
        body: Body::Ping {
            number,
            target: *target,
        },
    }
}

impl Detector {
    /// Hears a packet from a source: applies its claims, and handles its body.
    #[inline(never)]
    pub(super) fn hear(&mut self, now: Moment, source: Addr, packet: &Packet, reply: &mut Reply)
        requires { self.old.events < MAX_EVENTS }
        ensures state { self.new ≡ hear_state now source packet.now self.old }
        ensures fired { reply.new.fired ≡ None }
        ensures sends { reply.new.sends.items
            ≡ sends_to_state source packet.now (hear_claims_state now packet.now self.old) }
        ensures differing { reply.new.changed.items
            ≡ changed (view_state self.old) (view_state (hear_claims_state now packet.now self.old)) }
        ensures forgotten { reply.new.forgotten.items
            ≡ forgotten_each
            (table_teller (version_sent self.old.membership.config) packet.now)
            (claims_heard (own_group self.old.membership.config) packet.now)
            (come_state now self.old) }
        ensures answer { reply.new.answer ≡ None }
    {
        // The other parts are overwritten, not cleared first.
        reply.fired = None;
        reply.answer = None;
        self.come(now);
        let teller = self.table_teller(packet);
        let claims = claims_heard(&self.group(), packet);
        self.say(&teller, claims, &mut reply.changed, &mut reply.forgotten);
        self.answer(source, packet, &mut reply.sends);
    }

    /// Handles the body of a packet, if this member is to hear it.
    fn answer(&mut self, source: Addr, packet: &Packet, sends: &mut Sends)
        ensures state { self.new ≡ answer_state source packet.now self.old }
        ensures sends { sends.new.items ≡ sends_to_state source packet.now self.old }
    {
        if is_of_group(&self.group(), packet) && self.is_meant(&packet.body) {
            self.answer_body(source, packet, sends);
        } else {
            sends.clear();
        }
    }

    /// Whether a body is meant for this member: an Ack or a Nack for another receiver isn't.
    fn is_meant(&self, body: &Body) -> bool
        ensures { result ≡ is_meant self.now.membership.own.name body.now }
    {
        match body {
            Body::Ack { receiver, .. } | Body::Nack { receiver, .. } => self.is_for(receiver),
            Body::Ping { .. }
            | Body::PingReq { .. }
            | Body::Pull { .. }
            | Body::Page
            | Body::Gossip => true,
        }
    }

    /// Whether this member is the receiver of a packet, if that names one.
    fn is_for(&self, receiver: &Option<Name>) -> bool
        ensures { result ≡ is_for self.now.membership.own.name receiver.now }
    {
        match receiver {
            Some(receiver) => self.is_own(receiver),
            None => true,
        }
    }

    /// Handles the body of a packet. A Pull is answered by a Page, and a full Page by the next Pull. Nothing answers a
    /// Gossip. For any other body, notes what it means for the probe that runs and for the relays, and sends the
    /// packet that responds to it.
    fn answer_body(&mut self, source: Addr, packet: &Packet, sends: &mut Sends)
        ensures state { self.new ≡ respond_state source packet.now.sender packet.now.body self.old }
        ensures sends { sends.new.items ≡ sends_of_state source packet.now packet.now.body self.old }
    {
        match &packet.body {
            Body::Ping { number, target } => {
                self.answer_ping(&asker_from(&packet.sender, source, *number), target, sends)
            }
            Body::PingReq {
                number,
                target,
                addr,
            } => {
                let asker = asker_from(&packet.sender, source, *number);
                self.answer_request(&asker, target, *addr, sends);
            }
            Body::Ack { number, .. } => self.answer_ack(*number, &packet.sender, sends),
            Body::Nack { number, .. } => {
                self.hear_nack(*number, &packet.sender);
                sends.clear();
            }
            Body::Pull { after } => self.send_page(source, after, sends),
            Body::Page => {
                self.send_next_pull(source, packet.version, packet.claims.as_slice(), sends)
            }
            Body::Gossip => sends.clear(),
        }
    }

    /// Whether a name is this member's.
    pub(super) fn is_own(&self, name: &Name) -> bool
        ensures { result ≡ is_same name_cmp name.now self.now.membership.own.name }
    {
        name.cmp(&self.name()).is_eq()
    }

    /// Acks a Ping for this member. Overwrites what `sends` held.
    fn answer_ping(&mut self, asker: &Asker, target: &Name, sends: &mut Sends)
        ensures state { let asker = asker.now in self.new
            ≡ respond_state asker.addr asker.name (Ping asker.number target.now) self.old }
        ensures sends { let asker = asker.now in sends.new.items
            ≡ packets_state (response_state asker.addr asker.name (Ping asker.number target.now) self.old) self.old }
    {
        if self.is_own(target) {
            self.send(&relay::ack_to(asker), sends);
        } else {
            sends.clear();
        }
    }

    /// Acks a PingReq for this member. One for another member is relayed, or refused if as many relays are open as
    /// are allowed. Overwrites what `sends` held.
    #[inline(never)]
    fn answer_request(&mut self, asker: &Asker, target: &Name, addr: Addr, sends: &mut Sends)
        ensures state { let asker = asker.now in self.new
            ≡ respond_state asker.addr asker.name (PingReq asker.number target.now addr) self.old }
        ensures sends { let asker = asker.now in sends.new.items
            ≡ packets_state (response_state asker.addr asker.name (PingReq asker.number target.now addr) self.old)
            (note_state asker.addr asker.name (PingReq asker.number target.now addr) self.old) }
    {
        if self.is_own(target) {
            self.send(&relay::ack_to(asker), sends);
        } else if self.parts.relays.len() == MAX_RELAYS {
            self.send(&relay::nack_of(asker), sends);
        } else {
            self.relay_ping(asker, target, addr, sends);
        }
    }

    /// Opens a relay, and pings its target at this address. Overwrites what `sends` held.
    fn relay_ping(&mut self, asker: &Asker, target: &Name, addr: Addr, sends: &mut Sends)
        requires { length self.old.relays < MAX_RELAYS }
        ensures state { self.new
            ≡ send_state (Ping self.old.number target.now) (open_relay target.now asker.now self.old) }
        ensures sends { sends.new.items
            ≡ outgoing_state (record { to = addr; body = Ping self.old.number target.now })
            (open_relay target.now asker.now self.old) ∷ [] }
    {
        let number = self.parts.number;
        self.open_relay(target, asker);
        self.send(&relayed_ping(number, target, addr), sends);
    }

    /// Takes an Ack: for the probe that runs, or for a relay, whose asker then gets an Ack. Overwrites what `sends`
    /// held.
    #[inline(never)]
    fn answer_ack(&mut self, number: u32, sender: &Name, sends: &mut Sends)
        ensures state { self.new
            ≡ send_all_state (pass_on (ended_asker number sender.now self.old.relays))
            (hear_ack number sender.now self.old) }
        ensures sends { sends.new.items
            ≡ packets_state (pass_on (ended_asker number sender.now self.old.relays))
            (hear_ack number sender.now self.old) }
    {
        match self.hear_ack(number, sender) {
            Some(asker) => self.send(&relay::ack_to(&asker), sends),
            None => sends.clear(),
        }
    }

    /// Takes an Ack: for the probe that runs, or for a relay, which is closed. Returns the asker of that relay.
    #[tactic(auto, unfolding(crate::specs::Support::State::hear_ack))]
    fn hear_ack(&mut self, number: u32, sender: &Name) -> Option<Asker>
        ensures state { self.new ≡ hear_ack number sender.now self.old }
        ensures asker { result ≡ ended_asker number sender.now self.old.relays }
    {
        let parts = &mut *self.parts;
        round::take_ack(
            &mut parts.round,
            &mut parts.score,
            &mut parts.timers,
            number,
            sender,
        );
        relay::take_ack(&mut parts.relays, &mut parts.timers, number, sender)
    }

    /// Takes a Nack, for the probe that runs.
    #[tactic(auto, unfolding(crate::specs::Support::State::hear_nack))]
    fn hear_nack(&mut self, number: u32, sender: &Name)
        ensures { self.new ≡ hear_nack number sender.now self.old }
    {
        let parts = &mut *self.parts;
        round::take_nack(&mut parts.round, number, sender);
    }
}
