//! The facts that events are made of: an event comes, the member is opened, a claim is applied. This file has what
//! they do to the score, the timers and the order of probing. What they do to the group is in `lg_membership`. A
//! timer that fires is in `tick.rt`.
//!
//! Defined in: `specs/Meaning/Apply.antt`, `specs/Support/State.antt`, `specs/Meaning/Timing.antt`.
//! Tested in: `lg_detector_tests/src/detector/hear.rt`, `lg_detector_tests/src/detector/ask.rt`.
ghost use Rattle.std.specs.Prelude.{◌≡◌, ◌<◌, ◌≤◌, length, map, option_copied};
ghost use Rattle.std.specs.Option.{option_to_list};
ghost use Rattle.arrayvec.specs.ArrayVec.{array_vec_len};
ghost use Rattle.lg_rules.specs.Meaning.Claim.{name_of};
ghost use Rattle.lg_rules.specs.Meaning.Rows.{name_cmp, put_key, Rises};
ghost use Rattle.lg_rules.specs.Meaning.View.{changed};
ghost use Rattle.lg_timing.specs.Meaning.Config.{IsChecked};
ghost use Rattle.lg_timers.specs.Meaning.Timers.{is_set, with_timer, without_timer};
ghost use Rattle.lg_timers.specs.declared.timer.TimerId.TheVariants.{Forget, Suspicion};
ghost use Rattle.lg_probe.specs.Meaning.Order.{known_names};
ghost use Rattle.lg_membership.specs.declared.applied.Presence.TheVariants.{Joins};
ghost use Rattle.lg_membership.specs.declared.origin.Origin.TheVariants.{Group};
ghost use Rattle.lg_membership.specs.Support.State.{applied, with_found};
ghost use Rattle.lg_detector.specs.Meaning.Timing.{start_timer};
ghost use Rattle.lg_membership.specs.Support.Reached.{IsGood};
ghost use Rattle.lg_detector.specs.Support.State.{come_state, begin, marked_if, follow, forget_deadline};
ghost use Rattle.lg_detector.specs.Support.State.{reorder, apply_state};
ghost use Rattle.lg_detector.specs.Support.State.{apply_all_state};
ghost use Rattle.lg_detector.specs.Support.Step.{view_state};

use super::{Detector, MAX_EVENTS};
use crate::reply::MAX_CHANGED;
use arrayvec::ArrayVec;
use lg_membership::{Deadline, Membership, Origin, Presence};
use lg_probe::{Order, Relays};
use lg_rules::{Claim, MAX_CLAIMS, MAX_OTHERS, Name, Record, Status, put_row};
use lg_timers::{MAX_TIMERS, Timer, TimerId, Timers};
use lg_timing::{Config, Moment, Score};

/// Makes the timer of a member's suspicion follow its deadline: it is set, or moved if an accuser brings the deadline
/// nearer, or cancelled if the suspicion ended.
fn follow_suspicion(timers: &mut Timers, member: &Name, deadline: Deadline)
    requires { length timers.old < MAX_TIMERS }
    ensures { timers.new ≡ follow (Suspicion member.now) deadline timers.old }
{
    match deadline {
        Deadline::Stays => {}
        Deadline::Ends => {
            timers.cancel(&TimerId::Suspicion(*member));
        }
        Deadline::Stands(deadline) => timers.reset(Timer {
            deadline,
            id: TimerId::Suspicion(*member),
        }),
    }
}

/// The same of the timer that forgets a member: it is set or set anew, or cancelled.
fn follow_forget(timers: &mut Timers, member: &Name, deadline: Deadline)
    requires { length timers.old < MAX_TIMERS }
    ensures { timers.new ≡ follow (Forget member.now) deadline timers.old }
{
    match deadline {
        Deadline::Stays => {}
        Deadline::Ends => {
            timers.cancel(&TimerId::Forget(*member));
        }
        Deadline::Stands(deadline) => timers.reset(Timer {
            deadline,
            id: TimerId::Forget(*member),
        }),
    }
}

/// What becomes of the moment at which a member is forgotten once its record changed, if it did: it is set anew if the
/// member is gone, and else there is none (this project's choice). This member itself is never forgotten.
fn forget_after(membership: &Membership, now: Moment, changed: &Option<Record>) -> Deadline
    requires { IsGood membership.now.config }
    ensures { result ≡ forget_deadline now changed.now membership.now }
{
    let Some(record) = changed else {
        return Deadline::Stays;
    };
    let Some(config) = membership.config() else {
        return Deadline::Stays;
    };
    if !config.does_forget() || record.name.cmp(&membership.name()).is_eq() {
        return Deadline::Stays;
    }
    match record.status {
        Status::Failed | Status::Left => { Deadline::Stands(now.milliseconds() + config.forget_ms) }
        Status::Alive | Status::Suspect(_) => Deadline::Ends,
    }
}

/// Marks the score if a suspicion of this member was refuted (Lifeguard, local health aware probe).
fn mark_if(score: &mut Score, refuted: bool)
    ensures { score.new ≡ marked_if refuted score.old }
{
    if refuted {
        score.mark(1);
    }
}

/// Makes the order of probing follow a member's presence among those that aren't gone: the member joins the order,
/// leaves it, or neither.
fn reorder(order: &mut Order, member: &Name, presence: Presence)
    requires { (presence ≡ Joins) → length (put_key name_cmp member.now (known_names order.old)) ≤ MAX_OTHERS }
    ensures { order.new ≡ reorder member.now presence order.old }
{
    match presence {
        Presence::Stays => {}
        Presence::Joins => order.join(member),
        Presence::Leaves => order.leave(member),
    }
}

/// Puts a record that a claim changed, if it changed one, among those that other claims changed.
pub(super) fn put_changed(differing: &mut ArrayVec<Record, MAX_CHANGED>, changed: Option<Record>)
    requires room { array_vec_len differing.old < MAX_CHANGED }
    requires rises { Rises name_cmp (map name_of differing.old.items) }
    ensures { differing.new.items ≡ with_found changed differing.old.items }
{
    // Taken apart, since the checker doesn't follow a whole record into a generic call.
    if let Some(
        Record {
            name,
            addr,
            status,
            incarnation,
        },
    ) = changed
    {
        put_row(
            differing,
            Record {
                name,
                addr,
                status,
                incarnation,
            },
        );
    }
}

impl Detector {
    /// Counts an event, and moves the moment on to that of the event if it is later.
    pub(super) fn come(&mut self, now: Moment)
        requires { self.old.events < MAX_EVENTS }
        ensures { self.new ≡ come_state now self.old }
    {
        let parts = &mut *self.parts;
        parts.events += 1;
        parts.moment = parts.moment.later(now);
    }

    /// Opens the member: its score is 0, nobody is probed, the numbers begin as the configuration says, and the first
    /// round starts at once.
    pub(super) fn begin(&mut self, config: &Config)
        requires { IsChecked config.now }
        ensures { self.new ≡ begin config.now self.old }
    {
        let parts = &mut *self.parts;
        parts.score = Score::new(config.max_score);
        parts.timers.clear();
        let deadline = parts.moment.milliseconds();
        parts.timers.set(Timer {
            deadline,
            id: TimerId::RoundStart,
        });
        parts.order = Order::new();
        parts.number = config.first as u32;
        parts.round = None;
        parts.gossip = None;
        parts.relays = Relays::new();
        parts.membership.open_with(config);
    }

    /// Applies a claim. Returns the record of its member, if the claim changed it.
    #[tactic(auto, unfolding(crate::specs::Support::State::apply_state))]
    pub(super) fn apply(&mut self, origin: Origin, claim: &Claim) -> Option<Record>
        ensures state { self.new ≡ apply_state origin claim.now self.old }
        ensures changes { result ≡ (applied self.old.moment claim.now self.old.membership).changed }
    {
        let parts = &mut *self.parts;
        let now = parts.moment;
        let applied = parts.membership.apply(now, origin, claim);
        mark_if(&mut parts.score, applied.refuted);
        follow_suspicion(&mut parts.timers, &claim.name, applied.deadline);
        let until = forget_after(&parts.membership, now, &applied.changed);
        follow_forget(&mut parts.timers, &claim.name, until);
        reorder(&mut parts.order, &claim.name, applied.presence);
        applied.changed
    }

    /// Applies the claim of a timer, if it makes one. Overwrites `differing` with the record that changed by it, if one
    /// did.
    #[inline(never)]
    pub(super) fn say_one(
        &mut self,
        claim: &Option<Claim>,
        differing: &mut ArrayVec<Record, MAX_CHANGED>,
    )
        ensures state { self.new ≡ apply_all_state Group (option_to_list claim.now) self.old }
        ensures differing { differing.new.items
            ≡ changed (view_state self.old) (view_state (apply_all_state Group (option_to_list claim.now) self.old)) }
    {
        // The proof needs what the invariant says of the state at the start.
        let _ = &self.parts;
        differing.clear();
        match claim {
            Some(claim) => {
                let changed = self.apply(Origin::Group, claim);
                put_changed(differing, changed);
            }
            None => {}
        }
    }

    /// Applies the claims of a packet, one after another, each of which has room. Overwrites `differing` with the
    /// records that changed by them, in the order of names.
    pub(super) fn say_each(
        &mut self,
        claims: &[Claim],
        differing: &mut ArrayVec<Record, MAX_CHANGED>,
    )
        requires { length claims.now ≤ MAX_CLAIMS }
        ensures state { self.new ≡ apply_all_state Group claims.now self.old }
        ensures differing { differing.new.items
            ≡ changed (view_state self.old) (view_state (apply_all_state Group claims.now self.old)) }
    {
        // The proof needs what the invariant says of the state at the start.
        let _ = &self.parts;
        differing.clear();
        for claim in claims {
            let changed = self.apply(Origin::Group, claim);
            put_changed(differing, changed);
        }
    }
}
