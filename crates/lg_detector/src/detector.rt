//! The detector: what it holds, which events it accepts, and the two calls that advance it by one event, `step` and
//! `absorb`. Each kind of event has a file of its own.
//!
//! In a contract `event.now` is the event that `event` refers to. It isn't the event's moment, although the field of
//! that moment is also called `now`.
//!
//! Defined in: `specs/Meaning/Step.antt`, `specs/Support/Step.antt`, `specs/Meaning/Window.antt`,
//! `specs/Meaning/Room.antt`.
//! Tested in: `lg_detector_tests/src/detector/open.rt`, `lg_detector_tests/src/detector/copies.rt`.
ghost use Rattle.std.specs.Prelude.{◌≡◌, ℕ, ◌≤◌, ◌<◌, ◌+◌, ◌++◌, [], ◌∷◌, List, length, reverse};
ghost use Rattle.std.specs.Prelude.{IfOk, IsTrue, true, false, is_some, nat_eq};
ghost use Rattle.std.specs.List.{IsDistinct};
ghost use Rattle.std.specs.Option.{option_to_list};
ghost use Rattle.lg_rules.specs.declared.claim.Claim.{Claim};
ghost use Rattle.lg_rules.specs.Meaning.Rows.{name_cmp, is_among};
ghost use Rattle.lg_probe.specs.Meaning.Order.{window};
ghost use Rattle.lg_timing.specs.declared.config.Config.{Config as Configuration};
ghost use Rattle.lg_timing.specs.Meaning.Config.{IsChecked};
ghost use Rattle.lg_membership.specs.Meaning.Log.{needs_room};
ghost use Rattle.lg_detector.specs.declared.event.Event.{Event as Happened};
ghost use Rattle.lg_detector.specs.declared.event.Event.TheVariants.{Open as Opening};
ghost use Rattle.lg_detector.specs.Meaning.Log.{Log, group_log};
ghost use Rattle.lg_detector.specs.Meaning.Forget.{Gone};
ghost use Rattle.lg_detector.specs.Meaning.Apply.{forget, make_room};
ghost use Rattle.lg_detector.specs.Meaning.Room.{somebody_is_gone, IsFirstGone};
ghost use Rattle.lg_detector.specs.Meaning.Probing.{others};
ghost use Rattle.lg_detector.specs.Meaning.Window.{targets, AreOthers};
ghost use Rattle.lg_detector.specs.Meaning.Step.{is_accepted, is_open_event, opens_well, begins_open};
ghost use Rattle.lg_detector.specs.Meaning.Relaying.{is_next_in_use, numbers_in_use};
ghost use Rattle.lg_detector.specs.Meaning.Step.{log_of, reply_after, deadline_after};
ghost use Rattle.lg_detector.specs.Meaning.Choice.{choice_of_reply, targets_after};
ghost use Rattle.lg_detector.specs.Support.Step as state;
ghost use Rattle.lg_detector.specs.Support.Step.{answer_by_state, changed_by_state, fired_by_state, react_state};
ghost use Rattle.lg_detector.specs.Support.Step.{forgotten_by_state};
ghost use Rattle.lg_detector.specs.Support.Step.{reply_state};
ghost use Rattle.lg_detector.specs.Support.Step.{sends_by_state, step_state};
ghost use Rattle.lg_detector.specs.Support.Step.{accepts_at, accepts_of, state_after};

use crate::event::Event;
use crate::reply::Reply;
use lg_membership::Membership;
use lg_probe::{Order, Relays, Round};
use lg_timers::Timers;
use lg_timing::{Moment, Score};
use numbers::LOWEST_NUMBER;
use std::alloc::{AllocError, Global};
use std::marker::Model;

mod ask;
mod facts;
mod forget;
mod gossip;
mod group;
mod hear;
mod joining;
mod leave;
mod merge;
mod numbers;
mod open;
mod readers;
mod relay;
mod round;
mod send;
mod tick;

/// Memory was refused. The call that fails with this error has changed nothing.
pub type NoMemory = AllocError;

/// The most events that a detector accepts: 4,000,000,000 (this project's choice).
pub const MAX_EVENTS: u64 = 4_000_000_000;

/// The failure detector of one member (SWIM, sections 3 and 4; Lifeguard).
///
/// A contract sees it as its state, which is a function of the list of the events that it has accepted.
#[derive(Drop)]
pub struct Detector {
    parts: Box<Parts>,
}

/// What a detector holds, on the heap.
#[derive(Drop)]
struct Parts {
    /// How many events have come.
    events: u64,
    /// The greatest moment handed in so far.
    moment: Moment,
    /// The health score (Lifeguard's local health multiplier, LHM).
    score: Score,
    /// The timers that are set: those of the round, that of the next gossip, one for each suspicion, at most two for
    /// each relay, and one for each member that is gone and will be forgotten.
    timers: Timers,
    /// Whom rounds choose: the other members that aren't gone, and which of them were chosen in the current cycle.
    order: Order,
    /// The sequence number that comes next, for a probe or a relay.
    number: u32,
    /// The probe that runs, if one does.
    round: Option<Round>,
    /// When news is gossiped next, in milliseconds, if it is.
    gossip: Option<u64>,
    /// The open relays.
    relays: Relays,
    /// What it knows of its group.
    membership: Membership,
}

impl Model for Detector {
    ghost use Rattle.lg_detector.specs.Support.State.{State};
    ghost use Rattle.lg_detector.specs.Support.Reached.{IsReached};
    ghost use Rattle.lg_detector.specs.Support.Kept.{state_in};

    ghost Value = { State };

    ghost view = { λ d. state_in d.parts.value };

    ghost invariant = { λ d. IsReached (state_in d.parts.value) };
}

impl Detector {
    /// A detector to which nothing has happened yet. Allocates one box, which is all the memory that the detector
    /// will ever hold. The only error is that memory was refused.
    pub fn blank(alloc: Global) -> Result<Detector, NoMemory>
        ensures { IfOk result (λ detector. detector ≡ state_after []) }
    {
        let parts = Box::new(
            alloc,
            Parts {
                events: 0,
                moment: Moment::default(),
                score: Score::new(0),
                timers: Timers::new(),
                order: Order::new(),
                number: LOWEST_NUMBER,
                round: None,
                gossip: None,
                relays: Relays::new(),
                membership: Membership::blank(),
            },
        )?;
        Ok(Detector { parts })
    }

    /// An equal detector. Allocates one box for it; the only error is that memory was refused.
    pub(crate) fn copy(&self, alloc: Global) -> Result<Detector, NoMemory>
        ensures { IfOk result (λ detector. detector ≡ self.now) }
    {
        let mut copy = Detector::blank(alloc)?;
        self.copy_into(&mut copy);
        Ok(copy)
    }

    /// Overwrites another detector by this one, part by part. Allocates nothing.
    pub(crate) fn copy_into(&self, into: &mut Detector)
        ensures { into.new ≡ self.now }
    {
        let parts = &self.parts;
        into.parts.events = parts.events;
        into.parts.moment = parts.moment;
        into.parts.score = parts.score;
        parts.timers.copy_into(&mut into.parts.timers);
        parts.order.copy_into(&mut into.parts.order);
        into.parts.number = parts.number;
        into.parts.round = match &parts.round {
            Some(round) => Some(round.copy()),
            None => None,
        };
        into.parts.gossip = parts.gossip;
        parts.relays.copy_into(&mut into.parts.relays);
        parts.membership.copy_into(&mut into.parts.membership);
    }

    /// Whether an event can come next. The first event has to be an opening with a good configuration, and no later
    /// one may be an opening. At most [`MAX_EVENTS`] events are accepted in all.
    pub fn accepts(&self, event: &Event) -> bool
        ensures state { result ≡ accepts_of self.now event.now }
        // After an accepted list: exactly if the list with this event is accepted.
        ensures list { (f : List Happened) → is_accepted f ≡ true → self.now ≡ state_after f
            → result ≡ is_accepted (f ++ event.now ∷ []) }
    {
        can_come(self.parts.events, event)
    }

    /// Advances the state by an accepted event, and overwrites `reply` with the reply to it. Allocates nothing, and
    /// always succeeds.
    pub fn step(&mut self, event: &Event, reply: &mut Reply)
        requires { IsTrue (accepts_of self.old event.now) }
        ensures state { self.new ≡ step_state self.old event.now }
        ensures reply { reply.new ≡ reply_state self.old event.now }
        // After any list of events: the state is then that of the list with this event, and the reply is the one that
        // the definitions give after the list.
        ensures after { (f : List Happened) → self.old ≡ state_after f
            → self.new ≡ state_after (f ++ event.now ∷ []) }
        ensures answer { (f : List Happened) → self.old ≡ state_after f → reply.new ≡ reply_after f event.now }
    {
        self.advance(event, reply);
    }

    /// Advances the state by an event, without a reply. An event that isn't accepted changes nothing. Allocates
    /// nothing, and always succeeds.
    pub fn absorb(&mut self, event: &Event)
        ensures state { self.new ≡ step_state self.old event.now }
        ensures after { (f : List Happened) → self.old ≡ state_after f → IsTrue (accepts_of self.old event.now)
            → self.new ≡ state_after (f ++ event.now ∷ []) }
        ensures refused { accepts_of self.old event.now ≡ false → self.new ≡ self.old }
    {
        if can_come(self.parts.events, event) {
            let mut reply = Reply::default();
            self.advance(event, &mut reply);
        }
    }

    /// Advances the state by an accepted event, and writes the reply to it.
    fn advance(&mut self, event: &Event, reply: &mut Reply)
        requires { IsTrue (accepts_of self.old event.now) }
        ensures state { self.new ≡ state.advance self.old event.now }
        ensures reply { reply.new ≡ reply_state self.old event.now }
    {
        self.react(event, reply);
        self.end_event(&reply.fired);
        reply.ousted = self.is_ousted();
        reply.next = self.next();
    }
}

impl Detector {
    /// Advances the state by an accepted event, up to its end, and writes the parts of the reply that the event itself
    /// makes.
    fn react(&mut self, event: &Event, reply: &mut Reply)
        requires { IsTrue (accepts_of self.old event.now) }
        ensures state { self.new ≡ react_state self.old event.now }
        ensures fired { reply.new.fired ≡ fired_by_state self.old event.now }
        ensures sends { reply.new.sends.items ≡ sends_by_state self.old event.now }
        ensures differing { reply.new.changed.items ≡ changed_by_state self.old event.now }
        ensures forgotten { reply.new.forgotten.items ≡ forgotten_by_state self.old event.now }
        ensures answer { reply.new.answer ≡ answer_by_state self.old event.now }
    {
        match event {
            Event::Open { now, config } => self.open_with(*now, config, reply),
            Event::Tick { now, words } => self.tick(*now, words, reply),
            Event::Heard {
                now,
                source,
                packet,
            } => self.hear(*now, *source, packet, reply),
            Event::Ask { now, name } => self.ask(*now, name, reply),
            Event::Health { now } => self.ask_health(*now, reply),
            Event::Pull { now, peer } => self.pull(*now, *peer, reply),
            Event::Leave { now, words } => self.leave(*now, words, reply),
        }
    }
}

/// Whether an event is an opening.
fn is_opening(event: &Event) -> bool
    ensures { result ≡ is_open_event event.now }
{
    matches!(event, Event::Open { .. })
}

/// Whether an event is an opening with a good configuration.
fn opens_well(event: &Event) -> bool
    ensures { result ≡ opens_well event.now }
{
    match event {
        Event::Open { config, .. } => config.check().is_ok(),
        _ => false,
    }
}

/// Whether an event can come after this many others.
fn can_come(events: u64, event: &Event) -> bool
    ensures { result ≡ accepts_at events event.now }
{
    if events == 0 {
        opens_well(event)
    } else {
        !is_opening(event) && events < MAX_EVENTS
    }
}

/// The law by itself: the states that the contracts speak of are functions of the list of events. A state that
/// accepts an event advances as the list does, and its reply is the one of the definitions.
pub fn states_lead_on()
    ensures next { (f : List Happened) (e : Happened) → IsTrue (accepts_of (state_after f) e)
        → step_state (state_after f) e ≡ state_after (f ++ e ∷ []) }
    ensures reply { (f : List Happened) (e : Happened) → reply_state (state_after f) e ≡ reply_after f e }
    // After an accepted list: an event is accepted exactly if the list with it is.
    ensures accepts { (f : List Happened) (e : Happened) → is_accepted f ≡ true
        → accepts_of (state_after f) e ≡ is_accepted (f ++ e ∷ []) }
    ensures events { (f : List Happened) → (state_after f).events ≡ length f }
    // After a list that begins with an opening a timer is always set. One clause says it of the first event, the
    // other of the list.
    ensures deadline { (x : Happened) (f : List Happened) → is_open_event x ≡ true
        → is_some (deadline_after (x ∷ f)) ≡ true }
    ensures timed { (f : List Happened) → begins_open f ≡ true → is_some (deadline_after f) ≡ true }
    // The reply to an event says whom the event chose.
    ensures chosen { (f : List Happened) (e : Happened)
        → targets_after (f ++ e ∷ []) ≡ targets_after f ++ option_to_list (choice_of_reply (reply_after f e)) }
{}

/// Which lists of events are accepted. They have at most [`MAX_EVENTS`] events, and the first one is an opening. The
/// list of an opening alone is accepted if its configuration passes the check. An accepted list that has an opening
/// and fewer than [`MAX_EVENTS`] events is also accepted with a further event that is no opening.
pub fn accepted_lists()
    ensures few { (f : List Happened) → is_accepted f ≡ true → length f ≤ MAX_EVENTS }
    ensures opens { (x : Happened) (f : List Happened) → is_accepted (x ∷ f) ≡ true → is_open_event x ≡ true }
    ensures more { (x : Happened) (f : List Happened) (e : Happened) → is_accepted (x ∷ f) ≡ true
        → is_open_event e ≡ false → length f + 1 < MAX_EVENTS → is_accepted (x ∷ f ++ e ∷ []) ≡ true }
    ensures opening { (now : ℕ) (opening : Configuration) → IsChecked opening
        → is_accepted (Opening now opening ∷ []) ≡ true }
{}

/// What holds of the sequence numbers in use after an accepted list, although the numbers begin anew behind the
/// greatest. The number that comes next is free: neither the probe that runs nor an open relay has it. And no number is
/// in use twice: no open relay has the number of the probe that runs, and no two open relays have the same.
pub fn numbers_are_free()
    ensures next { (f : List Happened) → is_accepted f ≡ true → is_next_in_use (log_of (reverse f)) ≡ false }
    ensures apart { (f : List Happened) → is_accepted f ≡ true
        → IsDistinct nat_eq (numbers_in_use (log_of (reverse f))) }
{}

/// Who is forgotten to make room for the member of a claim, after any log. If the claim needs room and somebody is
/// gone, one member is forgotten. It is one of those whose record is Failed or Left. None of these was to be forgotten
/// at an earlier moment, and none that was at the same moment has a lesser name. Then the claim needs no room any more.
/// If nobody is gone, or the claim needs no room, nobody is forgotten.
pub fn room_is_made_by_the_earliest()
    ensures some { (log : Log) (c : Claim) → needs_room (group_log log) c ≡ true
        → somebody_is_gone (group_log log) ≡ true
        → (r : Gone) × IsFirstGone (group_log log) r × (make_room c log ≡ forget r.name log) }
    ensures none { (log : Log) (c : Claim) → somebody_is_gone (group_log log) ≡ false → make_room c log ≡ log }
    ensures roomy { (log : Log) (c : Claim) → needs_room (group_log log) c ≡ false → make_room c log ≡ log }
    ensures enough { (log : Log) (c : Claim) → somebody_is_gone (group_log log) ≡ true
        → needs_room (group_log (make_room c log)) c ≡ false }
{}

/// Whom a stretch of rounds chooses (SWIM, section 4.3). Suppose that throughout the stretch the others that aren't
/// gone are the same p names. This member isn't one of them. Then 2p - 1 rounds of the stretch in a row, if each
/// chooses a target, choose each of these names. If there are no such names, nobody is chosen.
pub fn windows_have_each()
    ensures each { (log stretch : Log) (name : List ℕ) → AreOthers (others log) stretch log
        → is_among name_cmp name (others log) ≡ true → window (others log) ≤ length (targets stretch log)
        → is_among name_cmp name (targets stretch log) ≡ true }
    ensures none { (log stretch : Log) → AreOthers [] stretch log → targets stretch log ≡ [] }
{}
