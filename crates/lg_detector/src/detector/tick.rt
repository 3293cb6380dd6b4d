//! The event Tick. It is counted, and the detector's moment becomes that of the tick if this is later. A timer is due
//! if it is set for that moment or an earlier one. The first of the due timers fires, and no other. If none is due,
//! nothing fires.
//!
//! The first is the one with the least deadline. Of those with the same deadline, the end of a round comes before a
//! suspicion, then Direct, the Nack of a relay, its end, the start of a round, forgetting a member, and a gossip.
//! Within one kind, the lesser name or number comes first. Only one fires, so that the packets always fit in the reply;
//! the next tick fires the next one. What a timer sets counts from the detector's moment, however long the timer was
//! due.
//!
//! - A round starts, its helpers are asked, or it ends: `round.rt`.
//! - A suspicion runs out: its member has failed, at the incarnation and the address of its record.
//! - A relay sends its Nack, or is closed: `relay.rt`.
//! - A member that is gone is forgotten: `forget.rt`.
//! - News is gossiped: `gossip.rt`.
//!
//! A claim that the timer makes is applied like one of a packet, so it ends or raises a suspicion, sets its timer,
//! and is queued. The reply has the timer that fired, the packets that are sent, the records that changed and the name
//! that was forgotten. Like every reply, it also says whether this member is ousted, and has the least deadline after
//! the event.
//!
//! Defined in: `specs/Meaning/Tick.antt`, `specs/Support/Tick.antt`, `specs/Meaning/Timing.antt`.
//! Tested in: `lg_detector_tests/src/detector/tick.rt`.
ghost use Rattle.std.specs.Prelude.{◌≡◌, ◌<◌, ◌++◌, None, Some};
ghost use Rattle.std.specs.Option.{option_to_list};
ghost use Rattle.arrayvec.specs.ArrayVec.{array_vec_len};
ghost use Rattle.lg_rules.specs.Meaning.View.{changed};
ghost use Rattle.lg_membership.specs.declared.origin.Origin.TheVariants.{Group};
ghost use Rattle.lg_detector.specs.Meaning.Tick.{failed_of, failure_of, found};
ghost use Rattle.lg_detector.specs.Support.State.{apply_all_state, come_state, end_round, forgotten_first};
ghost use Rattle.lg_detector.specs.Support.State.{forgotten_id};
ghost use Rattle.lg_detector.specs.Support.Step.{view_state};
ghost use Rattle.lg_detector.specs.Support.Tick.{due_state, expire_sends_state, expire_state, fired_state};
ghost use Rattle.lg_detector.specs.Support.Tick.{sends_at_state, tick_state};

use super::{Detector, MAX_EVENTS};
use crate::reply::{MAX_CHANGED, MAX_FORGOTTEN, Reply};
use crate::sends::Sends;
use arrayvec::ArrayVec;
use lg_rules::{Claim, Name, Record, Status};
use lg_timers::{Timer, TimerId};
use lg_timing::Moment;

/// The claim that a member has failed, if it has a record.
fn failed_claim(current: &Option<Record>) -> Option<Claim>
    ensures { option_to_list result ≡ failed_of current.now }
{
    let Some(current) = current else {
        return None;
    };
    Some(Claim {
        status: Status::Failed,
        ..*current
    })
}

/// Appends the name that a timer forgets, if it forgets one.
pub(super) fn put_forgotten(id: &TimerId, forgotten: &mut ArrayVec<Name, MAX_FORGOTTEN>)
    requires { array_vec_len forgotten.old < MAX_FORGOTTEN }
    ensures { forgotten.new.items ≡ forgotten.old.items ++ forgotten_id id.now }
{
    if let TimerId::Forget(name) = id {
        forgotten.push(*name);
    }
}

impl Detector {
    /// Time has passed: fires the first of the timers that are due.
    #[inline(never)]
    pub(super) fn tick(&mut self, now: Moment, words: &[u32; 8], reply: &mut Reply)
        requires { self.old.events < MAX_EVENTS }
        ensures state { let come = come_state now self.old in
            self.new ≡ fired_state (due_state come) words.now come }
        ensures fired { reply.new.fired ≡ due_state (come_state now self.old) }
        ensures sends { reply.new.sends.items ≡ sends_at_state now words.now self.old }
        ensures differing { reply.new.changed.items
            ≡ changed (view_state self.old) (view_state (tick_state now words.now self.old)) }
        ensures forgotten { reply.new.forgotten.items ≡ forgotten_first (due_state (come_state now self.old)) }
        ensures answer { reply.new.answer ≡ None }
    {
        // The proof needs what the invariant says of the state at the start.
        let _ = &self.parts;
        reply.answer = None;
        reply.forgotten.clear();
        self.come(now);
        reply.fired = self.due();
        match &reply.fired {
            Some(timer) => {
                self.fire(timer, words, &mut reply.changed, &mut reply.sends);
                put_forgotten(&timer.id, &mut reply.forgotten);
            }
            None => {
                reply.changed.clear();
                reply.sends.clear();
            }
        }
    }

    /// The first of the timers that are due, if one is.
    fn due(&self) -> Option<Timer>
        ensures { result ≡ due_state self.now }
    {
        self.parts.timers.due(self.parts.moment)
    }

    /// Ends the round that runs. If no Ack counted, its target is suspected. Overwrites `differing` with the record
    /// that changed by that, if one did.
    #[inline(never)]
    fn close_round(&mut self, differing: &mut ArrayVec<Record, MAX_CHANGED>)
        ensures state { let s = self.old in self.new
            ≡ apply_all_state Group (failure_of s.membership.own.name s.round (view_state s)) (end_round s) }
        ensures differing { differing.new.items ≡ changed (view_state self.old) (view_state self.new) }
    {
        let claim = self.failure();
        self.end_round();
        self.say_one(&claim, differing);
    }

    /// A member's suspicion has run out: it has failed. Overwrites `differing` with its record, if that changed.
    #[inline(never)]
    fn fail_member(&mut self, member: &Name, differing: &mut ArrayVec<Record, MAX_CHANGED>)
        ensures state { let rows = view_state self.old in self.new
            ≡ apply_all_state Group (failed_of (found member.now rows)) self.old }
        ensures differing { differing.new.items ≡ changed (view_state self.old) (view_state self.new) }
    {
        let claim = failed_claim(&self.record_of(member));
        self.say_one(&claim, differing);
    }

    /// Fires a timer. Overwrites `differing` with the records that its claim changed, and `sends` with its packets. A
    /// timer that makes a claim sends nothing. That of the gossip stays set, until the event ends.
    #[tactic(auto, unfolding(crate::specs::Support::State::fire_state))]
    fn fire(
        &mut self,
        timer: &Timer,
        words: &[u32; 8],
        differing: &mut ArrayVec<Record, MAX_CHANGED>,
        sends: &mut Sends,
    )
        ensures state { self.new ≡ fired_state (Some timer.now) words.now self.old }
        ensures sends { sends.new.items ≡ expire_sends_state (Some timer.now) words.now self.old }
        ensures differing { differing.new.items
            ≡ changed (view_state self.old) (view_state (expire_state (Some timer.now) words.now self.old)) }
    {
        // The proof needs what the invariant says of the state at the start.
        let _ = &self.parts;
        match &timer.id {
            TimerId::RoundEnd => {
                self.close_round(differing);
                sends.clear();
            }
            TimerId::Suspicion(member) => {
                self.fail_member(member, differing);
                sends.clear();
            }
            TimerId::Direct => {
                differing.clear();
                self.ask_helpers(words, sends);
            }
            TimerId::RelayNack(number) => {
                differing.clear();
                self.send_nack(*number, sends);
            }
            TimerId::RelayEnd(number) => {
                self.close_relay(*number);
                differing.clear();
                sends.clear();
            }
            TimerId::RoundStart => {
                differing.clear();
                self.start_round(words, sends);
            }
            TimerId::Forget(name) => {
                self.forget(name);
                differing.clear();
                sends.clear();
            }
            TimerId::Gossip => {
                differing.clear();
                self.gossip(words, sends);
            }
        }
    }
}
