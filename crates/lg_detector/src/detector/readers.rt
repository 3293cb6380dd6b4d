//! What can be read of a detector without an event.
//!
//! Defined in: `specs/Meaning/Step.antt`, `specs/Meaning/Ask.antt`, `specs/Support/Step.antt`,
//! `lg_rules/specs/Meaning/Rows.antt`.
//! Tested in: `lg_detector_tests/src/detector/ask.rt`, `lg_detector_tests/src/detector/suspected.rt`.
ghost use Rattle.std.specs.Prelude.{◌≡◌, ◌≤◌, List, IfOk, IfSome, length, option_map};
ghost use Rattle.lg_rules.specs.Meaning.Claim.{name_of};
ghost use Rattle.lg_rules.specs.Meaning.Rows.{name_cmp, row_at};
ghost use Rattle.lg_detector.specs.declared.event.Event.{Event as Happened};
ghost use Rattle.lg_detector.specs.Meaning.Step.{view_after, deadline_after, moment_after, own_standing_after};
ghost use Rattle.lg_detector.specs.Meaning.Step.{suspicion_standing_after};
ghost use Rattle.lg_detector.specs.Meaning.Timing.{or_zero};
ghost use Rattle.lg_detector.specs.Support.Ask.{own_standing_state, suspicion_standing_state};
ghost use Rattle.lg_detector.specs.Support.Step.{state_after, deadline_state, view_state};

use super::{Detector, NoMemory};
use crate::standing::Standing;
use arrayvec::ArrayVec;
use lg_rules::{Addr, MAX_MEMBERS, Name, Record};
use lg_suspicion::SuspicionStanding;
use lg_timing::Moment;
use std::alloc::Global;

impl Detector {
    /// The record of a name, this member's included, if it is known. Allocates nothing.
    pub fn record_of(&self, name: &Name) -> Option<Record>
        ensures state { result ≡ row_at name_cmp name_of name.now (view_state self.now) }
        // After any list of events: the record in the table after the list.
        ensures list { (f : List Happened) → self.now ≡ state_after f
            → result ≡ row_at name_cmp name_of name.now (view_after f) }
    {
        self.parts.membership.record_of(name)
    }

    /// The address of a member, if it has a record. It is found sooner if its record is at the index `near` of those of
    /// the others.
    pub(super) fn addr_near(&self, name: &Name, near: usize) -> Option<Addr>
        ensures { result ≡ option_map (λ r. r.addr) (row_at name_cmp name_of name.now (view_state self.now)) }
    {
        self.parts.membership.addr_near(name, near)
    }

    /// Overwrites `row` with the records of all members, this one included, in the order of their names. Nothing is
    /// known before the opening. Allocates nothing.
    pub fn put_table(&self, row: &mut ArrayVec<Record, MAX_MEMBERS>)
        ensures state { row.new.items ≡ view_state self.now }
        ensures list { (f : List Happened) → self.now ≡ state_after f → row.new.items ≡ view_after f }
    {
        self.parts.membership.put_table(row);
    }

    /// The records of all members, this one included, in the order of their names. Allocates the list alone, of at
    /// most [`MAX_MEMBERS`] records; the only error is that memory was refused.
    pub fn table(&self, alloc: Global) -> Result<Vec<Record>, NoMemory>
        ensures state { IfOk result (λ table. table.items ≡ view_state self.now) }
        ensures list { (f : List Happened) → self.now ≡ state_after f
            → IfOk result (λ table. table.items ≡ view_after f) }
    {
        let mut row = ArrayVec::new();
        self.put_table(&mut row);
        Vec::from_slice(alloc, row.as_slice())
    }

    /// What this member knows of itself. Before the opening the score is 0, the incarnation 0, and it isn't ousted.
    /// Allocates nothing.
    pub fn standing(&self) -> Standing
        ensures state { result ≡ own_standing_state self.now }
        ensures list { (f : List Happened) → self.now ≡ state_after f → result ≡ own_standing_after f }
    {
        Standing {
            score: self.parts.score.value(),
            number: self.parts.membership.number(),
            ousted: self.parts.membership.is_ousted(),
        }
    }

    /// How the suspicion of a member stands, or `None` if it isn't suspected (Lifeguard, local health aware suspicion):
    /// when it was raised, in milliseconds, its timeouts, and how many confirmations came that count. This member never
    /// suspects itself. Allocates nothing.
    ///
    /// The suspicion runs out at the moment at which it was raised plus `timeout.after(confirmations)` milliseconds. If
    /// the member is still suspected then, the first tick from that moment on takes it as failed.
    pub fn suspicion_of(&self, name: &Name) -> Option<SuspicionStanding>
        ensures state { result ≡ suspicion_standing_state self.now name.now }
        ensures list { (f : List Happened) → self.now ≡ state_after f
            → result ≡ suspicion_standing_after f name.now }
        // No more confirmations count than may.
        ensures counted { IfSome result (λ s. s.confirmations ≤ s.timeout.confirmations) }
    {
        self.parts.membership.suspicion_of(name)
    }

    /// The greatest moment handed in so far, or 0 if nothing has happened yet. Allocates nothing.
    pub fn moment(&self) -> Moment
        ensures state { result ≡ self.now.moment }
        ensures list { (f : List Happened) → self.now ≡ state_after f → result ≡ moment_after f }
    {
        self.parts.moment
    }

    /// The least deadline of the timers that are set, in milliseconds. There is none before the opening.
    pub fn next_deadline(&self) -> Option<u64>
        ensures state { result ≡ deadline_state self.now }
        ensures list { (f : List Happened) → self.now ≡ state_after f → result ≡ deadline_after f }
    {
        match self.parts.timers.least() {
            Some(timer) => Some(timer.deadline),
            None => None,
        }
    }

    /// The same, with 0 for none.
    pub(super) fn next(&self) -> u64
        ensures { result ≡ or_zero (deadline_state self.now) }
    {
        match self.parts.timers.least() {
            Some(timer) => timer.deadline,
            None => 0,
        }
    }

    /// Whether this member was ousted.
    pub(super) fn is_ousted(&self) -> bool
        ensures { result ≡ self.now.membership.own.ousted }
    {
        self.parts.membership.is_ousted()
    }

    /// This member's name.
    pub(super) fn name(&self) -> Name
        ensures { result ≡ self.now.membership.own.name }
    {
        self.parts.membership.name()
    }

    /// How many events it has accepted, at most [`MAX_EVENTS`](crate::MAX_EVENTS).
    pub fn events(&self) -> u64
        ensures state { result ≡ self.now.events }
        ensures list { (f : List Happened) → self.now ≡ state_after f → result ≡ length f }
    {
        self.parts.events
    }
}
