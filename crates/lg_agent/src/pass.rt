//! A pass and its calls. Each call takes the lock once.
//!
//! Defined in: `specs/Meaning/Calls.antt`, `specs/Meaning/Values.antt`, `lg_packet/specs/Meaning/Reading.antt`.
//! Tested in: `lg_agent_tests/src/agent/rows.rt`, `lg_agent_tests/src/agent/cutting.rt`.
ghost use Rattle.std.specs.Prelude.{◌≡◌, ◌⊎◌, Ok, Err, false, length, MatchResult, IfOk, IfErr, OnErr};
ghost use Rattle.lg_packet.specs.declared.fault.Fault.{Fault as Broken};
ghost use Rattle.lg_packet.specs.declared.packet.Packet.{Packet as Read};
ghost use Rattle.lg_packet.specs.Meaning.Reading.{packet_of};
ghost use Rattle.lg_detector.specs.declared.event.Event.TheVariants.{Tick, Heard, Ask, Health, Pull, Leave};
ghost use Rattle.lg_detector.specs.Meaning.Step.{is_open_event};
ghost use Rattle.lg_agent.specs.declared.refusal.Refusal.TheVariants.{BadPacket, NoMemory};
ghost use Rattle.lg_agent.specs.Meaning.Values.{nothing_cut_off};
ghost use Rattle.lg_agent.specs.Meaning.Calls.{receipt_of, is_page, IsCall, IsRefusal, IsBadPacket};
ghost use Rattle.lg_agent.specs.Meaning.Calls.{IsRotatedPass, IsCutOff};

use crate::cut_off::CutOff;
use crate::kept::Kept;
use crate::name::AgentName;
use crate::receipt::{HeardPacket, Receipt};
use crate::refusal::Refusal;
use crate::spent::Spent;
use left_right::Absorb;
use lg_detector::{Event, Reply};
use lg_packet::{Body, decode};
use lg_rules::{Addr, Name};
use lg_timing::Moment;
use lg_view::{Published, Update};
use std::alloc::Global;
use std::marker::Model;
use std::sync::{Mutex, Wait};

/// A thread's access to the agent. A contract sees the name of its agent, its seat, the events that it has seen, and
/// the positions of its answered calls in the history. Of the first calls, whose entries were cut off, it sees only
/// how many they are.
///
/// Each call takes the lock, and may wait for it. An answered call makes one entry of the history. Its reply is the
/// one that the definitions give to its event after a list of events that begins with all that the pass had seen. A
/// refused call makes no entry, and changes nothing.
///
/// A call has two forms. One returns a [`Receipt`], with the reply in it. The other, whose name ends in `_into`, writes
/// the reply over one that its caller keeps, and returns the position of the call's entry. A reply takes some 12 KB, so
/// a loop that keeps one copies less. If a call of the second form is refused, the reply is as it was.
#[derive(Drop)]
pub struct Pass<'a, A: AgentName>
where
    Published<A>: Absorb<Update<A>, State = [Event; 0]>,
{
    pub(crate) kept: &'a Mutex<Kept<A>>,
    pub(crate) own: Spent<A>,
}

impl<'a, A: AgentName> Model for Pass<'a, A>
where
    Published<A>: Absorb<Update<A>, State = [Event; 0]>,
{
    ghost use Rattle.lg_agent.specs.Meaning.Values.{PassValue};

    ghost Value = { PassValue };

    ghost view = { λ p. p.own };
}

impl<'a, A: AgentName> Pass<'a, A> {
    /// Makes one event, under the lock.
    fn call_into<R: Wait>(
        &mut self,
        rt: &R,
        alloc: Global,
        event: &Event,
        reply: &mut Reply,
    ) -> Result<u64, Refusal>
        requires { is_open_event event.now ≡ false }
        ensures answered { MatchResult result (λ place. IsCall self.old event.now (receipt_of place reply.new) self.new)
            (λ _. (self.new ≡ self.old) × (reply.new ≡ reply.old)) }
        ensures refusal { IfErr result (IsRefusal self.old.seen) }
    {
        self.own.call_into(self.kept, rt, alloc, event, reply)
    }

    /// Time has passed: fires the first timer that is due, if one is. The moment is in milliseconds, and the words
    /// are random.
    pub fn tick<R: Wait>(
        &mut self,
        rt: &R,
        alloc: Global,
        now: Moment,
        words: [u32; 8],
    ) -> Result<Receipt, Refusal>
        ensures answered { MatchResult result (λ r. IsCall self.old (Tick now words) r self.new)
            (λ _. self.new ≡ self.old) }
        ensures refusal { IfErr result (IsRefusal self.old.seen) }
    {
        let mut reply = Reply::default();
        let place = self.tick_into(rt, alloc, now, words, &mut reply)?;
        Ok(Receipt { place, reply })
    }

    /// As [`Pass::tick`], with the reply written over `reply`. Returns the position of the call's entry.
    pub fn tick_into<R: Wait>(
        &mut self,
        rt: &R,
        alloc: Global,
        now: Moment,
        words: [u32; 8],
        reply: &mut Reply,
    ) -> Result<u64, Refusal>
        ensures answered { MatchResult result
            (λ place. IsCall self.old (Tick now words) (receipt_of place reply.new) self.new)
            (λ _. (self.new ≡ self.old) × (reply.new ≡ reply.old)) }
        ensures refusal { IfErr result (IsRefusal self.old.seen) }
    {
        self.call_into(rt, alloc, &Event::Tick { now, words }, reply)
    }

    /// A datagram came from an address: hears the packet that its bytes spell. If they are no packet, and only then,
    /// the refusal is [`Refusal::BadPacket`], with their fault.
    pub fn datagram<R: Wait>(
        &mut self,
        rt: &R,
        alloc: Global,
        now: Moment,
        source: Addr,
        bytes: &[u8],
    ) -> Result<Receipt, Refusal>
        ensures answered { IfOk result (λ r. (p : Read) × (packet_of bytes.now ≡ Ok p)
            × IsCall self.old (Heard now source p) r self.new) }
        ensures refused { OnErr result (self.new ≡ self.old) }
        ensures bad { (f : Broken) → packet_of bytes.now ≡ Err f → result ≡ Err (BadPacket f) }
        ensures only { (f : Broken) → result ≡ Err (BadPacket f) → packet_of bytes.now ≡ Err f }
        ensures refusal { IfErr result (λ e. IsBadPacket e ⊎ IsRefusal self.old.seen e) }
    {
        let mut reply = Reply::default();
        let heard = self.datagram_into(rt, alloc, now, source, bytes, &mut reply)?;
        Ok(Receipt {
            place: heard.place,
            reply,
        })
    }

    /// As [`Pass::datagram`], with the reply written over `reply`. Returns the position of the call's entry, whether
    /// the packet is a Page, and which group it names.
    pub fn datagram_into<R: Wait>(
        &mut self,
        rt: &R,
        alloc: Global,
        now: Moment,
        source: Addr,
        bytes: &[u8],
        reply: &mut Reply,
    ) -> Result<HeardPacket, Refusal>
        ensures answered { IfOk result (λ heard. (p : Read) × (packet_of bytes.now ≡ Ok p)
            × IsCall self.old (Heard now source p) (receipt_of heard.place reply.new) self.new
            × (heard.is_page ≡ is_page p.body) × (heard.group ≡ p.group)) }
        ensures refused { OnErr result ((self.new ≡ self.old) × (reply.new ≡ reply.old)) }
        ensures bad { (f : Broken) → packet_of bytes.now ≡ Err f → result ≡ Err (BadPacket f) }
        ensures only { (f : Broken) → result ≡ Err (BadPacket f) → packet_of bytes.now ≡ Err f }
        ensures refusal { IfErr result (λ e. IsBadPacket e ⊎ IsRefusal self.old.seen e) }
    {
        let packet = match decode(bytes) {
            Ok(packet) => packet,
            Err(fault) => return Err(Refusal::BadPacket(fault)),
        };
        let is_page = matches!(packet.body, Body::Page);
        let group = packet.group;
        let event = Event::Heard {
            now,
            source,
            packet,
        };
        let place = self.call_into(rt, alloc, &event, reply)?;
        Ok(HeardPacket {
            place,
            is_page,
            group,
        })
    }

    /// Asks for the record of a name.
    pub fn ask<R: Wait>(
        &mut self,
        rt: &R,
        alloc: Global,
        now: Moment,
        name: &Name,
    ) -> Result<Receipt, Refusal>
        ensures answered { MatchResult result (λ r. IsCall self.old (Ask now name.now) r self.new)
            (λ _. self.new ≡ self.old) }
        ensures refusal { IfErr result (IsRefusal self.old.seen) }
    {
        let mut reply = Reply::default();
        let place = self.ask_into(rt, alloc, now, name, &mut reply)?;
        Ok(Receipt { place, reply })
    }

    /// As [`Pass::ask`], with the reply written over `reply`. Returns the position of the call's entry.
    pub fn ask_into<R: Wait>(
        &mut self,
        rt: &R,
        alloc: Global,
        now: Moment,
        name: &Name,
        reply: &mut Reply,
    ) -> Result<u64, Refusal>
        ensures answered { MatchResult result
            (λ place. IsCall self.old (Ask now name.now) (receipt_of place reply.new) self.new)
            (λ _. (self.new ≡ self.old) × (reply.new ≡ reply.old)) }
        ensures refusal { IfErr result (IsRefusal self.old.seen) }
    {
        self.call_into(rt, alloc, &Event::Ask { now, name: *name }, reply)
    }

    /// Asks for the health score, this member's incarnation and the number of members.
    pub fn health<R: Wait>(
        &mut self,
        rt: &R,
        alloc: Global,
        now: Moment,
    ) -> Result<Receipt, Refusal>
        ensures answered { MatchResult result (λ r. IsCall self.old (Health now) r self.new)
            (λ _. self.new ≡ self.old) }
        ensures refusal { IfErr result (IsRefusal self.old.seen) }
    {
        let mut reply = Reply::default();
        let place = self.health_into(rt, alloc, now, &mut reply)?;
        Ok(Receipt { place, reply })
    }

    /// As [`Pass::health`], with the reply written over `reply`. Returns the position of the call's entry.
    pub fn health_into<R: Wait>(
        &mut self,
        rt: &R,
        alloc: Global,
        now: Moment,
        reply: &mut Reply,
    ) -> Result<u64, Refusal>
        ensures answered { MatchResult result
            (λ place. IsCall self.old (Health now) (receipt_of place reply.new) self.new)
            (λ _. (self.new ≡ self.old) × (reply.new ≡ reply.old)) }
        ensures refusal { IfErr result (IsRefusal self.old.seen) }
    {
        self.call_into(rt, alloc, &Event::Health { now }, reply)
    }

    /// Asks another member, at this address, for its table.
    pub fn pull<R: Wait>(
        &mut self,
        rt: &R,
        alloc: Global,
        now: Moment,
        peer: Addr,
    ) -> Result<Receipt, Refusal>
        ensures answered { MatchResult result (λ r. IsCall self.old (Pull now peer) r self.new)
            (λ _. self.new ≡ self.old) }
        ensures refusal { IfErr result (IsRefusal self.old.seen) }
    {
        let mut reply = Reply::default();
        let place = self.pull_into(rt, alloc, now, peer, &mut reply)?;
        Ok(Receipt { place, reply })
    }

    /// As [`Pass::pull`], with the reply written over `reply`. Returns the position of the call's entry.
    pub fn pull_into<R: Wait>(
        &mut self,
        rt: &R,
        alloc: Global,
        now: Moment,
        peer: Addr,
        reply: &mut Reply,
    ) -> Result<u64, Refusal>
        ensures answered { MatchResult result
            (λ place. IsCall self.old (Pull now peer) (receipt_of place reply.new) self.new)
            (λ _. (self.new ≡ self.old) × (reply.new ≡ reply.old)) }
        ensures refusal { IfErr result (IsRefusal self.old.seen) }
    {
        self.call_into(rt, alloc, &Event::Pull { now, peer }, reply)
    }

    /// Leaves the group, for good (this project's choice). This member's own record becomes Left, it probes nobody any
    /// more, and the reply has the packets that tell some members at once. A further leave tells nobody, and does
    /// nothing but move the moment. The moment is in milliseconds, and each random word in turn picks a member that is
    /// told. Refused if memory is refused or the history is full, and then nothing has changed.
    pub fn leave<R: Wait>(
        &mut self,
        rt: &R,
        alloc: Global,
        now: Moment,
        words: [u32; 8],
    ) -> Result<Receipt, Refusal>
        ensures answered { MatchResult result (λ r. IsCall self.old (Leave now words) r self.new)
            (λ _. self.new ≡ self.old) }
        ensures refusal { IfErr result (IsRefusal self.old.seen) }
    {
        let mut reply = Reply::default();
        let place = self.leave_into(rt, alloc, now, words, &mut reply)?;
        Ok(Receipt { place, reply })
    }

    /// As [`Pass::leave`], with the reply written over `reply`. Returns the position of the call's entry.
    pub fn leave_into<R: Wait>(
        &mut self,
        rt: &R,
        alloc: Global,
        now: Moment,
        words: [u32; 8],
        reply: &mut Reply,
    ) -> Result<u64, Refusal>
        ensures answered { MatchResult result
            (λ place. IsCall self.old (Leave now words) (receipt_of place reply.new) self.new)
            (λ _. (self.new ≡ self.old) × (reply.new ≡ reply.old)) }
        ensures refusal { IfErr result (IsRefusal self.old.seen) }
    {
        self.call_into(rt, alloc, &Event::Leave { now, words }, reply)
    }

    /// Cuts the stored entries off the history; a summary of all events so far is kept instead. Returns how many they
    /// were. It is no event, and makes no entry: what the pass has seen and how many calls it made stay as they are.
    /// The only refusal is [`Refusal::NoMemory`], and then nothing has changed.
    pub fn rotate<R: Wait>(&mut self, rt: &R, alloc: Global) -> Result<u64, Refusal>
        ensures rotated { MatchResult result (λ _. IsRotatedPass self.old self.new)
            (λ e. (e ≡ NoMemory) × (self.new ≡ self.old)) }
    {
        self.own.rotate(self.kept, rt, alloc)
    }

    /// Cuts the stored entries off the history as [`Pass::rotate`] does, and hands them out, with the summary and the
    /// number of those that were cut off before. Returns how many they are. What was in `into` before is dropped first,
    /// before the lock is taken. Under the lock nothing is freed, and no entry is copied: the list of the entries and
    /// that of `into` are exchanged, and each keeps its memory. What was handed out is the caller's to keep or to drop;
    /// each time one has been put behind the one before, all entries make one history.
    ///
    /// The only refusal is [`Refusal::NoMemory`], if memory for the summary was refused. Then nothing has changed but
    /// that `into` is empty.
    pub fn rotate_into<R: Wait>(
        &mut self,
        rt: &R,
        alloc: Global,
        into: &mut CutOff,
    ) -> Result<u64, Refusal>
        ensures rotated { IfOk result (λ _. IsRotatedPass self.old self.new) }
        // The end of a single thread's history, with the replies of the definitions.
        ensures handed { IfOk result (λ n. (n ≡ length into.new.entries) × IsCutOff A.places into.new) }
        ensures refused { IfErr result (λ e. (e ≡ NoMemory) × (self.new ≡ self.old) × (into.new ≡ nothing_cut_off)) }
    {
        self.own.rotate_into(self.kept, rt, alloc, into)
    }

    /// Ends the pass, and gives what it leaves.
    pub fn finish(self) -> Spent<A>
        ensures { result ≡ self.entry }
    {
        let Pass { kept: _, own } = self;
        own
    }
}
