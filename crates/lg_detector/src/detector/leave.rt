//! The event Leave: this member leaves its group for good (this project's choice). The first one makes its own record
//! Left, queues it, and drops the probe that runs: nobody is accused, and the score isn't marked. Some members, picked
//! as helpers are, are told at once by packets that have this record alone: Gossips in version 3, and Pages in versions
//! 1 and 2. A further leave does nothing.
//!
//! From then on this member probes nobody. All else goes on: it answers, it relays, its suspicions run out, and it
//! gossips its news.
//!
//! Defined in: `specs/Meaning/Leave.antt`, `specs/Support/Leave.antt`, `specs/Meaning/Probing.antt`.
//! Tested in: `lg_news_tests/src/leaving.rt`.
ghost use Rattle.std.specs.Prelude.{◌≡◌, ◌<◌, ◌≤◌, [], length, None};
ghost use Rattle.lg_rules.specs.Meaning.View.{changed};
ghost use Rattle.lg_membership.specs.Support.State.{changed_by_leave};
ghost use Rattle.lg_detector.specs.Meaning.Joining.{own_told, with_claims};
ghost use Rattle.lg_detector.specs.Meaning.Leave.{leave_body};
ghost use Rattle.lg_detector.specs.Support.Leave.{leave_notice_state, leave_packets_state, leave_packets_to};
ghost use Rattle.lg_detector.specs.Support.Leave.{leave_sends_state, leave_state, told_of_leave_state};
ghost use Rattle.lg_detector.specs.Support.State.{depart, without_probe};
ghost use Rattle.lg_detector.specs.Support.Step.{view_state};

use super::facts::put_changed;
use super::round::{scaled_interval, set_start};
use super::{Detector, MAX_EVENTS};
use crate::reply::{MAX_CHANGED, Outgoing, Reply};
use crate::sends::{Sends, make_slots};
use arrayvec::ArrayVec;
use lg_packet::Body;
use lg_probe::{Helpers, MAX_HELPERS};
use lg_rules::{Addr, Name, Record, Version};
use lg_timers::{MAX_TIMERS, Timers};
use lg_timing::Moment;

/// The body of a packet that tells of a leave.
fn leave_body(version: Version) -> Body
    ensures { result ≡ leave_body version }
{
    match version {
        Version::One | Version::Two => Body::Page,
        Version::Three => Body::Gossip,
    }
}

/// What each packet that tells of a leave has: all but where it goes.
#[derive(Drop)]
struct LeaveNotice {
    version: Version,
    group: Option<Name>,
    /// This member's name.
    sender: Name,
    /// This member's own record, the only claim of the packet.
    own: Record,
}

impl LeaveNotice {
    /// Overwrites a packet with one to this address. It has no claim if its version can't tell this member's address.
    fn put(&self, to: Addr, place: &mut Outgoing)
        ensures { place.new ≡ with_claims to self.now.version self.now.group self.now.sender
            (leave_body self.now.version) (own_told self.now.version self.now.own) }
    {
        place.to = to;
        place.packet.version = self.version;
        place.packet.group = self.group;
        place.packet.sender = self.sender;
        place.packet.body = leave_body(self.version);
        let claims = &mut place.packet.claims;
        claims.clear();
        // Taken apart, since the checker doesn't follow a whole record into a generic call.
        let Record {
            name,
            addr,
            status,
            incarnation,
        } = self.own;
        if self.version.tells(&addr) {
            claims.push(Record {
                name,
                addr,
                status,
                incarnation,
            });
        }
    }
}

/// Cancels the timers of a probe, if one runs. The next round starts later then.
fn drop_probe(timers: &mut Timers, probes: bool, later: u64)
    requires { length timers.old < MAX_TIMERS }
    ensures { timers.new ≡ without_probe probes later timers.old }
{
    if probes {
        set_start(timers, later);
    }
}

impl Detector {
    /// This member leaves its group. It tells some members of it, unless it had left before.
    #[inline(never)]
    pub(super) fn leave(&mut self, now: Moment, words: &[u32; 8], reply: &mut Reply)
        requires { self.old.events < MAX_EVENTS }
        ensures state { self.new ≡ leave_state now self.old }
        ensures fired { reply.new.fired ≡ None }
        ensures sends { reply.new.sends.items ≡ leave_sends_state now words.now self.old }
        ensures differing { reply.new.changed.items
            ≡ changed (view_state self.old) (view_state (leave_state now self.old)) }
        ensures forgotten { reply.new.forgotten.items ≡ [] }
        ensures answer { reply.new.answer ≡ None }
    {
        reply.say_nothing();
        self.come(now);
        let has_left = self.parts.membership.has_left();
        self.depart_into(&mut reply.changed);
        if !has_left {
            self.tell_leave(words, &mut reply.sends);
        }
    }

    /// Departs. Overwrites `differing` with this member's own record, if it changed.
    fn depart_into(&mut self, differing: &mut ArrayVec<Record, MAX_CHANGED>)
        ensures state { self.new ≡ depart self.old }
        ensures differing { differing.new.items ≡ changed (view_state self.old) (view_state (depart self.old)) }
    {
        // The proof needs what the invariant says of the state at the start.
        let _ = &self.parts;
        differing.clear();
        let changed = self.depart();
        put_changed(differing, changed);
    }

    /// Drops the probe that runs, and makes this member's own record Left. Returns that record, if it changed.
    #[tactic(auto, unfolding(crate::specs::Support::State::depart))]
    fn depart(&mut self) -> Option<Record>
        ensures state { self.new ≡ depart self.old }
        ensures changes { result ≡ changed_by_leave self.old.membership }
    {
        let parts = &mut *self.parts;
        let now = parts.moment.milliseconds();
        let later = now + scaled_interval(&parts.score, parts.membership.config());
        drop_probe(&mut parts.timers, parts.round.is_some(), later);
        parts.round = None;
        parts.membership.leave()
    }

    /// Tells the members that the words pick that this member has left. Overwrites what `sends` held.
    fn tell_leave(&self, words: &[u32; 8], sends: &mut Sends)
        ensures { sends.new.items ≡ leave_packets_state words.now self.now }
    {
        let mut told = Helpers::new();
        told.pick_any(&self.parts.order, MAX_HELPERS, words);
        self.tell_leave_to(&told, sends);
    }

    /// What each packet that tells of this member's leave has.
    fn leave_notice(&self) -> LeaveNotice
        ensures { result ≡ leave_notice_state self.now }
    {
        LeaveNotice {
            version: self.version(),
            group: self.group(),
            sender: self.name(),
            own: self.parts.membership.own_record(),
        }
    }

    /// Tells each of these that has a record that this member has left. Overwrites what `sends` held.
    fn tell_leave_to(&self, told: &Helpers, sends: &mut Sends)
        ensures { sends.new.items ≡ leave_packets_to told.now self.now }
    {
        let names = told.names();
        let notice = self.leave_notice();
        let slots = &mut sends.slots;
        make_slots(slots, names.len());
        let mut count = 0;
        for index in 0..names.len() {
            if let Some(to) = self.addr_near(&names[index], told.likely_index(index)) {
                notice.put(to, &mut slots[count]);
                count += 1;
            }
        }
        sends.count = count;
    }
}
