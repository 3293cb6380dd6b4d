//! A member of a cluster with its detector, and what it does when something happens.
//!
//! Defined in: `specs/Meaning/Members.antt`, `specs/Meaning/Past.antt`, `lg_detector/specs/Meaning/Step.antt`.
//! Tested in: `cases/sim.case`, `cases/sim_leave.case`, `cases/sim_left.case`.
ghost use Rattle.std.specs.Prelude.{◌≡◌, ◌+◌, ◌∷◌, ◌++◌, [], List, IsTrue, OnOk, map, vec_len};
ghost use Rattle.lg_detector.specs.Meaning.Step.{reply_after};
ghost use Rattle.lg_detector.specs.Support.Step.{accepts_of, state_after};
ghost use Rattle.lg_detector.specs.declared.event.Event.{Event as Happened};
ghost use Rattle.lg_lines.specs.Meaning.Replies.{reply_text};
ghost use Rattle.lg_sim.specs.Meaning.Members.{is_at, is_named, sent_from};
ghost use Rattle.lg_sim.specs.Meaning.Past.{arrival};

use lg_detector::{Detector, Event, NoMemory, Outgoing, Reply};
use lg_lines::{PacketRow, put_reply};
use lg_rules::{Addr, Name};
use lg_timing::Moment;

/// A member of the cluster.
#[derive(Clone, Copy, Debug, PartialEq, Eq)]
pub struct Member {
    /// Its name. No other member has it.
    pub name: Name,
    /// Its address. No other member is there.
    pub addr: Addr,
}

/// A member and its detector.
#[derive(Drop)]
pub struct Host {
    /// The member.
    pub member: Member,
    /// Its detector.
    pub detector: Detector,
}

/// A packet that a member sent.
#[derive(Debug, Drop)]
pub struct SentPacket {
    /// The address of the member that sent it.
    pub from: Addr,
    /// The packet, and where it goes.
    pub outgoing: Outgoing,
}

/// Buffers that a run uses again for each event. What they hold before or after a call doesn't matter.
#[derive(Drop)]
pub struct RunBuffers {
    /// The reply to the event.
    pub reply: Reply,
    /// The bytes of a packet of the reply.
    pub row: PacketRow,
}

impl Member {
    /// Whether it has this name.
    pub fn is_named(&self, name: &Name) -> bool
        ensures { result ≡ is_named name.now self.now }
    {
        self.name == *name
    }

    /// Whether it is at this address.
    pub fn is_at(&self, addr: &Addr) -> bool
        ensures { result ≡ is_at addr.now self.now }
    {
        self.addr == *addr
    }
}

impl SentPacket {
    /// The event that the packet is heard: as its bytes tell it, and from the address of its sender. `row` is a scratch
    /// buffer; what it holds before or after doesn't matter.
    pub fn arrival(&self, now: Moment, row: &mut PacketRow) -> Event
        ensures { result ≡ arrival now self.now }
    {
        lg_packet::encode(&self.outgoing.packet, row);
        let packet = lg_packet::decode(row.as_slice()).unwrap();
        Event::Heard {
            now,
            source: self.from,
            packet,
        }
    }
}

/// Copies the packets that a member at an address sends, and appends them to those sent before.
fn keep_sends(from: Addr, sends: &[Outgoing], sent: &mut Vec<SentPacket>) -> Result<(), NoMemory>
    ensures { OnOk result (sent.new.items ≡ sent.old.items ++ map (sent_from from) sends.now) }
{
    for outgoing in sends {
        let outgoing = outgoing.copy();
        sent.push(SentPacket { from, outgoing })?;
    }
    Ok(())
}

/// Hands an event to a member's detector, appends what it sends to the packets sent so far, and appends the lines of
/// its reply to a text.
pub fn lead(
    host: &mut Host,
    event: &Event,
    sent: &mut Vec<SentPacket>,
    buffers: &mut RunBuffers,
    text: &mut Vec<u8>,
) -> Result<(), NoMemory>
    requires { IsTrue (accepts_of host.old.detector event.now) }
    ensures host { (f : List Happened) → host.old.detector ≡ state_after f
        → host.new ≡ record { member = host.old.member; detector = state_after (f ++ event.now ∷ []) } }
    ensures sent { OnOk result ((f : List Happened) → host.old.detector ≡ state_after f → sent.new.items
        ≡ sent.old.items ++ map (sent_from host.old.member.addr) (reply_after f event.now).sends.items) }
    ensures text { OnOk result ((f : List Happened) → host.old.detector ≡ state_after f → text.new.items
        ≡ text.old.items ++ reply_text event.now (vec_len sent.old + 1) (reply_after f event.now)) }
{
    let first = sent.len() as u64 + 1;
    host.detector.step(event, &mut buffers.reply);
    keep_sends(host.member.addr, buffers.reply.sends.as_slice(), sent)?;
    put_reply(event, first, &buffers.reply, &mut buffers.row, text)
}
