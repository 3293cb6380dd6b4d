//! What a member knows of its group, and what a claim and a packet change of it.
//!
//! Defined in: `specs/Meaning/Applied.antt`, `specs/Meaning/Gossip.antt`, `specs/Meaning/Log.antt`.
//! Tested in: `lg_parts_tests/src/membership/claims.rt`, `lg_parts_tests/src/membership/queue.rt`.
ghost use Rattle.std.specs.Prelude.{◌≡◌, ◌≢◌, [], ◌∷◌, ◌&&◌, ◌||◌};
ghost use Rattle.lg_rules.specs.Meaning.Rows.{name_cmp, is_same};
ghost use Rattle.lg_timing.specs.Meaning.Config.{IsChecked};
ghost use Rattle.lg_membership.specs.Meaning.Log.{GroupFact, GroupLog, Opened, Said, Sent, Departed};
ghost use Rattle.lg_membership.specs.Meaning.Gossip.{put_if, counted_or, taken, fill};
ghost use Rattle.lg_membership.specs.Meaning.Suspicions.{is_accusation};
ghost use Rattle.lg_membership.specs.Meaning.Applied.{IsApplied, IsLeave};
ghost use Rattle.lg_membership.specs.Support.State.{group_state_of, open_group, apply_to_group, apply_own, apply_other};
ghost use Rattle.lg_membership.specs.Support.State.{applied, applied_own, applied_other, if_open, taken_if};
ghost use Rattle.lg_membership.specs.Support.State.{leave_group, changed_by_leave};
ghost use Rattle.lg_membership.specs.Support.State.{send_from_group, queue_with, taken_in, fill_in};
ghost use Rattle.lg_membership.specs.Support.Changes.{is_override, stands, presence_by};
ghost use Rattle.lg_membership.specs.Support.Room.{HasPlace};

use crate::addressee::{Addressee, buddy_record};
use crate::applied::{Applied, Deadline, Presence};
use crate::origin::Origin;
use crate::suspicions::Suspicions;
use arrayvec::ArrayVec;
use lg_gossip::Queue;
use lg_rules::{Addr, Claim, Heard, MAX_CLAIMS, Members, Name, Own, Record, Version};
use lg_timing::{Config, Moment};
use oneself::{is_refuted, own_arrival, put_if_answered, put_if_leaves, put_of_own};
use std::cmp::Ordering;
use std::marker::Model;

mod forgetting;
mod oneself;
mod pages;
mod readers;
mod repeating;

pub use lg_rules::MAX_MEMBERS;

/// What a member knows of its group (SWIM, section 4; Lifeguard): its own incarnation, the records of the others,
/// their suspicions, and the queue of claims to be sent.
///
/// It is made blank, then opened, and then applies one claim after another. No call allocates memory. A contract sees
/// it as plain data, which is a function of its log: what it was opened with, which claims were said and when, which
/// packets were sent, when the member left, and which names it forgot.
#[derive(Debug, Drop)]
pub struct Membership {
    config: Option<Config>,
    own: Own,
    members: Members,
    suspicions: Suspicions,
    queue: Queue,
}

impl Model for Membership {
    ghost use Rattle.lg_membership.specs.Support.State.{GroupState};
    ghost use Rattle.lg_membership.specs.Support.Reached.{IsGroupKept};
    ghost use Rattle.lg_membership.specs.Support.Rows.{rows_by};

    ghost Value = { GroupState };

    ghost view = { λ m. record {
      config = m.config;
      own = m.own;
      members = m.members;
      suspicions = rows_by m.members.names m.suspicions;
      queue = m.queue;
    } };

    ghost invariant = { λ m.
        let group : GroupState = record {
          config = m.config;
          own = m.own;
          members = m.members;
          suspicions = rows_by m.members.names m.suspicions;
          queue = m.queue;
        } in
        IsGroupKept group m.suspicions };
}

/// Whether two names are the same.
fn is_same_name(name: &Name, other: &Name) -> bool
    ensures { result ≡ is_same name_cmp name.now other.now }
{
    name.cmp(other).is_eq()
}

/// Puts a claim into the queue, if one is given.
fn put(queue: &mut Queue, claim: Option<Claim>)
    requires { HasPlace claim queue.old }
    ensures { queue.new ≡ queue_with claim queue.old }
{
    if let Some(claim) = claim {
        queue.put(claim);
    }
}

/// A record that a claim changed. Before the opening nobody has one.
fn if_open(config: &Option<Config>, changed: Option<Record>) -> Option<Record>
    ensures { result ≡ if_open config.now changed }
{
    match config {
        Some(_) => changed,
        None => None,
    }
}

/// Whether hearing a claim about another member made or replaced a record.
fn is_override(heard: Heard) -> bool
    ensures { result ≡ is_override heard }
{
    matches!(heard, Heard::Overrode)
}

/// The record that hearing a claim about another member made or replaced: it is the claim.
fn taken_of_other(heard: Heard, claim: &Claim) -> Option<Record>
    ensures { result ≡ taken_if (is_override heard) claim.now }
{
    if is_override(heard) {
        Some(*claim)
    } else {
        None
    }
}

/// Whether a claim about another member is to be passed on. It is if it made or replaced a record, or if it confirms
/// a suspicion: it accuses, and the deadline was set anew for its accuser.
fn is_to_be_passed_on(heard: Heard, deadline: Deadline) -> bool
    ensures { result ≡ (is_override heard || (is_accusation heard && stands deadline)) }
{
    match heard {
        Heard::Overrode => true,
        Heard::Accused => matches!(deadline, Deadline::Stands(_)),
        Heard::Same | Heard::Ignored | Heard::NoRoom => false,
    }
}

/// What a claim about another member puts into the queue, if the group says it: the claim itself, if it counts, and
/// else the record of a leave that is to be repeated, if there is one. A claim counts if it makes or replaces a record,
/// or confirms a suspicion.
fn put_of_other(
    origin: Origin,
    counts: bool,
    claim: &Claim,
    repeated: Option<Record>,
) -> Option<Claim>
    ensures { result ≡ put_if origin (counted_or counts claim.now repeated) }
{
    match origin {
        Origin::Seed => None,
        Origin::Group if counts => Some(*claim),
        Origin::Group => repeated,
    }
}

/// Whether a claim's member joined those that aren't gone, or left them, by how many there were before the claim
/// and how many there are after it.
fn presence_by(before: usize, after: usize) -> Presence
    ensures { result ≡ presence_by before after }
{
    match after.cmp(&before) {
        Ordering::Less => Presence::Leaves,
        Ordering::Equal => Presence::Stays,
        Ordering::Greater => Presence::Joins,
    }
}

impl Membership {
    /// A member that wasn't opened. It knows nobody, and has a placeholder for its name.
    pub fn blank() -> Membership
        ensures { result ≡ group_state_of [] }
    {
        let name = Name::default();
        Membership {
            config: None,
            own: Own::new(name, Addr::v4([0; 4], 0)),
            members: Members::new(&name, false),
            suspicions: Suspicions::new(),
            queue: Queue::new(1, Version::One),
        }
    }

    /// Overwrites another member by this one. Allocates no memory.
    pub fn copy_into(&self, into: &mut Membership)
        ensures { into.new ≡ self.now }
    {
        into.config = match &self.config {
            Some(config) => Some(config.copy()),
            None => None,
        };
        into.own = self.own;
        self.members.copy_into(&mut into.members);
        self.suspicions.copy_into(&mut into.suspicions);
        self.queue.copy_into(&mut into.queue);
    }

    /// Opens the member with a configuration that passed its check. Forgets all that was known. In version 3 this
    /// member's own record is queued. The seeds of the configuration are to be applied next.
    pub fn open_with(&mut self, config: &Config)
        requires { IsChecked config.now }
        ensures state { self.new ≡ open_group config.now self.old }
        // Whatever happened before, the opening is added to the log.
        ensures log { (log : GroupLog) → self.old ≡ group_state_of log
            → self.new ≡ group_state_of (Opened config.now ∷ log) }
    {
        self.own = Own::new(config.name, config.addr);
        self.members.restart(&config.name, config.does_forget());
        self.suspicions.clear();
        self.queue.restart(config.lambda, config.version());
        put(&mut self.queue, own_arrival(config.version(), &self.own));
        self.config = Some(config.copy());
    }

    /// Applies a claim that is said at a moment, and returns what that did (SWIM, section 4.2; Lifeguard, local
    /// health aware suspicion). At most 256 names are known, this member's included. A claim about one more does
    /// nothing. If `forget_ms` isn't 0, neither does a claim that an unknown member failed or left.
    #[tactic(auto, unfolding(crate::specs::Support::State::apply_to_group, crate::specs::Support::State::applied))]
    pub fn apply(&mut self, now: Moment, origin: Origin, claim: &Claim) -> Applied
        ensures state { self.new ≡ apply_to_group now origin claim.now self.old }
        ensures applied { result ≡ applied now claim.now self.old }
        // Whatever happened before, the claim is added to the log.
        ensures log { (log : GroupLog) → self.old ≡ group_state_of log
            → self.new ≡ group_state_of (Said now origin claim.now ∷ log) }
        // The result says what the claim changes of its member's record and suspicion, and of the members that
        // aren't gone.
        ensures meaning { (log : GroupLog) → self.old ≡ group_state_of log → IsApplied now origin claim.now log result }
    {
        if is_same_name(&claim.name, &self.own.name()) {
            self.apply_own(claim)
        } else {
            self.apply_other(now, origin, claim)
        }
    }

    /// Applies a claim about this member. A doubt that is answered changes no record.
    fn apply_own(&mut self, claim: &Claim) -> Applied
        requires { claim.now.name ≡ self.old.own.name }
        ensures state { self.new ≡ apply_own claim.now self.old }
        ensures applied { result ≡ applied_own claim.now self.old }
    {
        let answered = self.is_answered(claim);
        let heard = self.own.hear(claim);
        put(&mut self.queue, put_if_answered(answered, heard, &self.own));
        Applied {
            changed: if_open(&self.config, put_of_own(heard, &self.own)),
            refuted: is_refuted(heard),
            deadline: Deadline::Stays,
            presence: Presence::Stays,
        }
    }

    /// Applies a claim about another member.
    fn apply_other(&mut self, now: Moment, origin: Origin, claim: &Claim) -> Applied
        requires { claim.now.name ≢ self.old.own.name }
        ensures state { self.new ≡ apply_other now origin claim.now self.old }
        ensures applied { result ≡ applied_other now claim.now self.old }
    {
        let before = self.members.live();
        let repeated = self.leave_to_repeat(claim);
        let heard = self.members.hear(claim);
        let presence = presence_by(before, self.members.live());
        let deadline = self
            .suspicions
            .suspect(&self.config, now, &self.members, heard, claim);
        let counts = is_to_be_passed_on(heard, deadline);
        put(
            &mut self.queue,
            put_of_other(origin, counts, claim, repeated),
        );
        Applied {
            changed: if_open(&self.config, taken_of_other(heard, claim)),
            refuted: false,
            deadline,
            presence,
        }
    }

    /// This member leaves its group, for good (this project's choice). Its own record becomes Left at its incarnation,
    /// and is queued. Returns that record. A further call does nothing, and returns `None`. Before the opening nobody
    /// has a record, and `None` is returned too. Allocates no memory.
    ///
    /// From then on a claim about this member does nothing, unless its incarnation is greater than this member's: then
    /// the own record becomes Left at the claim's incarnation, and is queued. This member still counts as one that
    /// isn't gone.
    pub fn leave(&mut self) -> Option<Record>
        ensures state { self.new ≡ leave_group self.old }
        ensures changed { result ≡ changed_by_leave self.old }
        // Whatever happened before, the leave is added to the log.
        ensures log { (log : GroupLog) → self.old ≡ group_state_of log
            → self.new ≡ group_state_of (Departed ∷ log) }
        // The result says what the leave changes of this member's own record.
        ensures meaning { (log : GroupLog) → self.old ≡ group_state_of log → IsLeave log result }
    {
        let has_left = self.own.has_left();
        self.own.leave();
        put(&mut self.queue, put_if_leaves(has_left, &self.own));
        if_open(&self.config, put_if_leaves(has_left, &self.own))
    }

    /// Replaces what `claims` holds by the claims of the next packet, at most six, or twelve in version 3: those of the
    /// queue whose turn it is, which count as sent once more (piggyback; SWIM, section 4.1). A claim whose address the
    /// version can't tell is passed over.
    ///
    /// `to` is whom the packet goes to. If it pings a member whose record is Suspect, that record stands first and
    /// doesn't count as sent, and the queue's claim about the member is passed over (Lifeguard, buddy system). In
    /// version 3 it is the same if it acks a member whose record is Suspect or Failed. A record whose address the
    /// version can't tell is no buddy. A member that isn't known, or is this member itself, adds nothing.
    pub fn fill_into(&mut self, to: &Addressee, claims: &mut ArrayVec<Claim, MAX_CLAIMS>)
        ensures claims { claims.new.items ≡ fill_in to.now self.old }
        ensures state { self.new ≡ send_from_group (taken_in to.now self.old) self.old }
        // After any log, these are the claims that the log gives, and the packet that took them is added to the log.
        ensures filled { (log : GroupLog) → self.old ≡ group_state_of log → claims.new.items ≡ fill to.now log }
        ensures log { (log : GroupLog) → self.old ≡ group_state_of log
            → self.new ≡ group_state_of (Sent (taken to.now log) ∷ log) }
    {
        let buddy = buddy_record(self.version(), to, &self.members);
        self.queue.fill_into(buddy, self.members.live(), claims);
    }
}
