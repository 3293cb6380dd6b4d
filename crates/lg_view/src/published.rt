//! What is published: a detector, and the front that it is after.
//!
//! Defined in: `lg_detector/specs/Meaning/Step.antt`, `specs/Meaning/Changes.antt`, `specs/Support/Updates.antt`.
//! Tested in: `lg_agent_tests/src/view/looks.rt`.
ghost use Rattle.std.specs.Prelude.{◌≡◌, ◌+◌, ◌∷◌, ◌++◌, ℕ, List, [], filter, length, map, IfOk, Some};
ghost use Rattle.lg_changes.specs.declared.change.Change.{Change as Changed};
ghost use Rattle.lg_changes.specs.Meaning.Changes.{forgotten_at};
ghost use Rattle.lg_changes.specs.Meaning.Kept.{HasBehind, KeepsNewest};
ghost use Rattle.lg_rules.specs.Meaning.Claim.{name_of};
ghost use Rattle.lg_rules.specs.Meaning.Rows.{name_cmp, row_at};
ghost use Rattle.lg_detector.specs.declared.event.Event.{Event as Happened};
ghost use Rattle.lg_detector.specs.Meaning.Step.{view_after, deadline_after, moment_after, own_standing_after};
ghost use Rattle.lg_detector.specs.Meaning.Step.{reply_after};
ghost use Rattle.lg_detector.specs.Support.Step.{state_after};
ghost use Rattle.lg_view.specs.Meaning.Changes.{changes_at, changes_of, is_unknown_after};
ghost use Rattle.lg_view.specs.Support.Updates.{taken_events};

use crate::book::PairName;
use crate::front::Front;
use crate::update::{Added, Update};
use arrayvec::ArrayVec;
use left_right::Absorb;
use lg_changes::{Behind, Changes};
use lg_detector::{Detector, Event, MAX_MEMBERS, NoMemory, Reply, Standing};
use lg_rules::{Name, Record};
use lg_timing::Moment;
use std::alloc::{AllocError, Global};
use std::marker::Model;

/// A detector beside the front of the book that it is after, and the newest changes of the events of that front. A
/// contract sees it as the front.
///
/// `left_right` keeps two of them: readers read one while the writer advances the other. Each takes the memory of a
/// detector, the room for [`MAX_CHANGES`](lg_changes::MAX_CHANGES) changes, and some 12 KB for a reply.
#[derive(Drop)]
pub struct Published<P: PairName> {
    detector: Detector,
    front: Front<P>,
    changes: Changes,
    // The reply to the last event. It tells who was forgotten and which records changed, and nobody reads the rest of
    // it. It is kept, since making one for each event would take longer than most events do.
    reply: Box<Reply>,
}

impl<P: PairName> Model for Published<P> {
    ghost use Rattle.std.specs.Prelude.{◌≡◌, List};
    ghost use Rattle.lg_changes.specs.Meaning.Kept.{KeepsNewest};
    ghost use Rattle.lg_detector.specs.declared.event.Event.{Event};
    ghost use Rattle.lg_detector.specs.Support.Step.{state_after};
    ghost use Rattle.lg_view.specs.Meaning.Changes.{changes_of};

    ghost Value = { List Event };

    ghost view = { λ p. p.front };

    ghost invariant = { λ p. (p.detector ≡ state_after p.front) × KeepsNewest p.changes (changes_of p.front) };
}

impl<P: PairName> Published<P> {
    /// A detector before any event. Allocates the detector's memory, the room for the changes, and a box for a reply.
    /// The only error is that memory was refused.
    pub(crate) fn blank(alloc: Global, front: Front<P>) -> Result<Published<P>, NoMemory>
        requires { front ≡ [] }
        ensures { IfOk result (λ published. published ≡ front) }
    {
        Ok(Published {
            detector: Detector::blank(alloc)?,
            front,
            changes: Changes::new(alloc)?,
            reply: Box::new(alloc, Reply::default())?,
        })
    }

    /// The front that the detector is after.
    pub(crate) fn front(&self) -> &Front<P>
        ensures { result.now ≡ self.now }
    {
        &self.front
    }

    /// The record of a name, if it is known.
    pub(crate) fn status_of(&self, name: &Name) -> Option<Record>
        ensures { result ≡ row_at name_cmp name_of name.now (view_after self.now) }
    {
        self.detector.record_of(name)
    }

    /// What this member knows of itself.
    pub(crate) fn standing(&self) -> Standing
        ensures { result ≡ own_standing_after self.now }
    {
        self.detector.standing()
    }

    /// The greatest moment handed in.
    pub(crate) fn moment(&self) -> Moment
        ensures { result ≡ moment_after self.now }
    {
        self.detector.moment()
    }

    /// The changes behind a version. Allocates memory for them; the only error is that it was refused.
    pub(crate) fn behind(&self, alloc: Global, version: u64) -> Result<Behind, AllocError>
        ensures { IfOk result (λ found. HasBehind found version (changes_of self.now)) }
    {
        self.changes.behind(alloc, version)
    }

    /// The least deadline. There is none before the opening.
    pub(crate) fn next_deadline(&self) -> Option<u64>
        ensures { result ≡ deadline_after self.now }
    {
        self.detector.next_deadline()
    }

    /// Overwrites `row` with the records of all members, in the order of their names.
    pub(crate) fn put_table(&self, row: &mut ArrayVec<Record, MAX_MEMBERS>)
        ensures { row.new.items ≡ view_after self.now }
    {
        self.detector.put_table(row);
    }

    /// Advances by an event that was added, if it is the next one.
    fn advance(&mut self, added: &Added<P>)
        ensures { self.new ≡ taken_events self.old (Some added.now) }
    {
        if self.front.len() + 1 == added.front.len() {
            self.front.begins(&added.front);
            self.detector.step(&added.event, &mut self.reply);
            self.front = added.front.copy();
            keep_changes(
                &self.detector,
                &added.event,
                &self.reply,
                self.front.len(),
                &mut self.changes,
            );
        }
    }
}

/// Keeps those of some names that are unknown: they were forgotten, and then there were so many events. A name that is
/// known again isn't kept: its record is, if it has changed.
fn keep_unknown(detector: &Detector, names: &[Name], version: u64, changes: &mut Changes)
    ensures { (f : List Happened) → (all : List Changed) → detector.now ≡ state_after f → KeepsNewest changes.old all
        → KeepsNewest changes.new
        (all ++ map (forgotten_at version (moment_after f)) (filter (is_unknown_after f) names.now)) }
{
    let moment = detector.moment();
    for name in names {
        if detector.record_of(name).is_none() {
            changes.keep_forgotten(version, moment, &[*name]);
        }
    }
}

/// Keeps whom an event forgot and which records it changed. This was its reply, the detector is after it, and there are
/// so many events.
fn keep_changes(
    detector: &Detector,
    event: &Event,
    reply: &Reply,
    version: u64,
    changes: &mut Changes,
)
    ensures { (f : List Happened) → (all : List Changed) → detector.now ≡ state_after (f ++ event.now ∷ [])
        → reply.now ≡ reply_after f event.now → version ≡ length f + 1 → KeepsNewest changes.old all
        → KeepsNewest changes.new (all ++ changes_at f event.now) }
{
    let moment = detector.moment();
    keep_unknown(detector, &reply.forgotten, version, changes);
    match event {
        Event::Open { .. } => {
            let mut table = ArrayVec::<Record, MAX_MEMBERS>::new();
            detector.put_table(&mut table);
            changes.keep_changed(version, moment, &table);
        }
        _ => changes.keep_changed(version, moment, &reply.changed),
    }
}

impl<P: PairName> Absorb<Update<P>> for Published<P> {
    ghost use Rattle.lg_view.specs.Support.Updates.{taken_events};

    // A state, as contracts see it, is a list of events. No value of this type is made.
    type State = [Event; 0];

    ghost state = { λ published. published };

    ghost applied = { λ events update. taken_events events update };

    ghost never_fails = { Unit {0} };

    fn absorb_first(
        &mut self,
        operation: &Update<P>,
        _other: &Published<P>,
    ) -> Result<(), AllocError> {
        if let Some(added) = &operation.added {
            self.advance(added);
        }
        Ok(())
    }
}
