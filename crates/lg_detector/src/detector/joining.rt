//! Joining, by a form of anti-entropy (push-pull): a member asks another for its table by a Pull, which carries the
//! asker's own record. The answers are Pages of records, in the order of names. A Page is full if it has as many
//! records as a packet of its version has room for. A full Page is answered by a Pull for the records after its last
//! claim, and so the whole table comes.
//! Pulls and Pages take no claims of the queue (this project's choice).
//!
//! Defined in: `specs/Meaning/Joining.antt`, `specs/Support/Joining.antt`.
//! Tested in: `lg_detector_tests/src/detector/joining.rt`.
ghost use Rattle.std.specs.Prelude.{◌≡◌, ◌<◌, [], ◌∷◌, None};
ghost use Rattle.lg_detector.specs.Meaning.Joining.{last_of_full};
ghost use Rattle.lg_detector.specs.Support.Joining.{next_pull_state, own_packet_state, page_behind_state, pull_state};
ghost use Rattle.lg_detector.specs.Support.Joining.{pull_after_state, pulls_state};

use super::{Detector, MAX_EVENTS};
use crate::reply::{Outgoing, Reply};
use crate::sends::{Sends, make_slots};
use lg_packet::Body;
use lg_rules::{Addr, Claim, Name, Record, Version};
use lg_timing::Moment;

impl Detector {
    /// Asks another member for its table: sends a Pull for its first records.
    pub(super) fn pull(&mut self, now: Moment, peer: Addr, reply: &mut Reply)
        requires { self.old.events < MAX_EVENTS }
        ensures state { self.new ≡ pull_state now self.old }
        ensures fired { reply.new.fired ≡ None }
        ensures sends { reply.new.sends.items ≡ pulls_state now peer self.old }
        ensures differing { reply.new.changed.items ≡ [] }
        ensures forgotten { reply.new.forgotten.items ≡ [] }
        ensures answer { reply.new.answer ≡ None }
    {
        reply.say_nothing();
        self.come(now);
        self.send_pull(peer, None, &mut reply.sends);
    }

    /// Answers a Pull: sends the next records after its name to where it came from.
    #[inline(never)]
    pub(super) fn send_page(&self, to: Addr, after: &Option<Name>, sends: &mut Sends)
        ensures { sends.new.items ≡ page_behind_state to after.now self.now ∷ [] }
    {
        make_slots(&mut sends.slots, 1);
        self.write_page(to, after, &mut sends.slots[0]);
        sends.count = 1;
    }

    /// Answers a Page of a version if it is full: asks for the records after its last claim.
    #[inline(never)]
    pub(super) fn send_next_pull(
        &self,
        to: Addr,
        version: Version,
        claims: &[Claim],
        sends: &mut Sends,
    )
        ensures { sends.new.items ≡ next_pull_state to (last_of_full version claims.now) self.now }
    {
        match claims.get(version.most_claims() - 1) {
            Some(last) => self.send_pull(to, Some(last.name), sends),
            None => sends.clear(),
        }
    }

    /// Sends one Pull, and nothing else.
    fn send_pull(&self, to: Addr, after: Option<Name>, sends: &mut Sends)
        ensures { sends.new.items ≡ pull_after_state to after self.now ∷ [] }
    {
        make_slots(&mut sends.slots, 1);
        self.write_own(to, Body::Pull { after }, &mut sends.slots[0]);
        sends.count = 1;
    }

    /// Overwrites a packet with a Page.
    fn write_page(&self, to: Addr, after: &Option<Name>, place: &mut Outgoing)
        ensures { place.new ≡ page_behind_state to after.now self.now }
    {
        place.to = to;
        self.put_head(&mut place.packet);
        place.packet.body = Body::Page;
        self.parts
            .membership
            .put_page(after.as_ref(), &mut place.packet.claims);
    }

    /// Overwrites a packet with one whose only claim is this member's record. It has none if its version can't tell
    /// this member's address.
    pub(super) fn write_own(&self, to: Addr, body: Body, place: &mut Outgoing)
        ensures { place.new ≡ own_packet_state to body self.now }
    {
        place.to = to;
        self.put_head(&mut place.packet);
        place.packet.body = body;
        let version = place.packet.version;
        let claims = &mut place.packet.claims;
        claims.clear();
        // Taken apart, since the checker doesn't follow a whole record into a generic call.
        let Record {
            name,
            addr,
            status,
            incarnation,
        } = self.parts.membership.own_record();
        if version.tells(&addr) {
            claims.push(Record {
                name,
                addr,
                status,
                incarnation,
            });
        }
    }
}
