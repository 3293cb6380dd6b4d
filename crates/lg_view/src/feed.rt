//! The writer's side of a published pair.
//!
//! An event is appended, and then published. Appending allocates all the memory, and can be refused. Publishing can't
//! be refused, since the event is in the book by then. This holds in three steps:
//! - `append` first puts an update with no event into the writer's log, only to reserve memory there;
//! - it then adds the event to the book, which is the last thing that can be refused;
//! - `publish` puts the update with the event into the log, again as long as memory for it is refused, and publishes.
//!
//! That the log takes this update at the first try is no theorem of this crate. It follows from how `left_right` and
//! its log are made. The log never holds more than four updates: the two of the last publication, which one of the
//! two copies lacks, and the two of this one. A log whose updates have at most 1,024 bytes reserves memory for four
//! when it first grows, and an update has 24. So the last of the four finds its memory, and `publish` returns once no
//! reader reads the copy that is to be advanced.
//!
//! Defined in: `specs/Meaning/Views.antt`, `specs/Support/Updates.antt`.
//! Tested in: `lg_agent_tests/src/view/looks.rt`.
ghost use Rattle.std.specs.Prelude.{◌≡◌, ◌≤◌, ◌++◌, ◌∷◌, [], length, drop, fold, true};
ghost use Rattle.std.specs.Prelude.{Some, MatchResult};
ghost use Rattle.lg_detector.specs.Meaning.Step.{is_accepted};
ghost use Rattle.lg_view.specs.Support.Updates.{taken_events};
ghost use mathlib.Core.List.{IsPrefix};

use crate::book::{Book, PairName};
use crate::front::Front;
use crate::look::Look;
use crate::published::Published;
use crate::update::{Added, Update};
use core::mem::replace_with;
use crossbeam_utils::rule::Unruled;
use left_right::Absorb;
use left_right::writer::Writer;
use lg_detector::{Event, NoMemory};
use std::alloc::{AllocError, Global};
use std::marker::Model;
use std::sync::Wait;

/// The writer of `left_right`, over the published value.
pub(crate) type FeedWriter<P> = Writer<Published<P>, Update<P>, (), Unruled>;

/// The writer's side of a published pair. It isn't `Drop`: [`Feed::end`] ends it.
///
/// A contract sees it as the events that are published, and those that wait to be published, of which there is at
/// most one.
pub struct Feed<P: PairName>
where
    Published<P>: Absorb<Update<P>, State = [Event; 0]>,
{
    writer: FeedWriter<P>,
    book: Book<P>,
    /// What is published.
    front: Front<P>,
    /// The event that waits, if one does.
    waiting: Option<Added<P>>,
}

impl<P: PairName> Model for Feed<P>
where
    Published<P>: Absorb<Update<P>, State = [Event; 0]>,
{
    ghost use Rattle.std.specs.Prelude.{◌≡◌, ◌++◌, ◌∷◌, [], drop, fold, MatchOption};
    ghost use Rattle.lg_view.specs.Meaning.Views.{FeedValue};
    ghost use Rattle.lg_view.specs.Support.Updates.{waiting_of, taken_events};

    ghost Value = { FeedValue };

    ghost view = { λ f. record { events = f.writer.desk.shown.value; waiting = waiting_of f.waiting } };

    ghost invariant = { λ f. (f.front ≡ f.writer.desk.shown.value)
        × MatchOption f.waiting (Unit {0}) (λ a. a.events ≡ f.front ++ a.event ∷ [])
        × (fold taken_events f.writer.desk.shown.value (drop f.writer.behind f.writer.log.items)
        ≡ f.writer.desk.shown.value) };
}

impl<P: PairName> Feed<P> {
    /// A feed over a writer that has nothing to publish.
    pub(crate) fn over(writer: FeedWriter<P>, book: Book<P>, front: Front<P>) -> Feed<P>
        requires { (front ≡ writer.desk.shown.value) × (drop writer.behind writer.log.items ≡ []) }
        ensures { (result.events ≡ front) × (result.waiting ≡ []) }
    {
        Feed {
            writer,
            book,
            front,
            waiting: None,
        }
    }

    /// Makes an event wait to be published. The events that are published have to be accepted with it, and no other
    /// may wait. Allocates memory for the event, and in the writer's log. The only error is that memory was refused,
    /// and then nothing has changed.
    pub fn append(&mut self, alloc: Global, event: &Event) -> Result<(), NoMemory>
        requires accepted { is_accepted (self.old.events ++ event.now ∷ []) ≡ true }
        requires none_waits { self.old.waiting ≡ [] }
        ensures { MatchResult result (λ _. self.new ≡ record self.old { waiting = event.now ∷ [] })
            (λ _. self.new ≡ self.old) }
    {
        let event_box = Box::new(alloc, event.copy())?;
        if self.writer.append(Update { added: None }).is_err() {
            return Err(AllocError);
        }
        // There is one word with the length of the book, and only this feed has it. So this is never none.
        let Some(front) = self.front.add(&self.book, event) else {
            return Err(AllocError);
        };
        self.waiting = Some(Added {
            event: event_box,
            front,
        });
        Ok(())
    }

    /// Publishes the event that waits: each look that is entered from then on finds it. Allocates nothing. Waits until
    /// no reader still reads what was published before the last time. If no event waits, it does nothing.
    ///
    /// It never fails, and it returns, since [`Feed::append`] has reserved the memory: the head of this file says how.
    pub fn publish<R: Wait>(&mut self, rt: &R)
        ensures { self.new ≡ record self.old { events = self.old.events ++ self.old.waiting; waiting = [] } }
    {
        let Some(added) = self.waiting.take() else {
            return;
        };
        self.front = added.front.copy();
        put(rt, &mut self.writer, added);
        publish_put(rt, &mut self.writer);
    }

    /// Brings a reader up to date with what is published. It has then seen these events, which begin with what it had
    /// seen. The reader must not be ahead. Allocates nothing, and touches nothing that threads share.
    pub fn tell(&self, look: &mut Look<P>)
        requires { length look.old ≤ length self.now.events }
        ensures begins { IsPrefix look.old self.now.events }
        ensures told { look.new ≡ self.now.events }
    {
        look.seen.begins(&self.front);
        look.seen = self.front.copy();
    }

    /// Shows that what a reader has seen begins what is published. The reader must not be ahead.
    pub fn compare(&self, look: &Look<P>)
        requires { length look.now ≤ length self.now.events }
        ensures { IsPrefix look.now self.now.events }
    {
        look.seen.begins(&self.front);
    }

    /// Ends the feed. Waits until no reader reads; from then on each look answers [`NoView`](crate::NoView).
    pub fn end<R: Wait>(self, rt: &R) {
        let Feed {
            writer,
            book: _,
            front: _,
            waiting: _,
        } = self;
        drop(writer.take(rt));
    }
}

/// Puts an event where it will be published. The memory for it was reserved before, so the first try is the last.
fn put<P: PairName, R: Wait>(rt: &R, writer: &mut FeedWriter<P>, added: Added<P>)
    ensures desk { writer.new.desk ≡ writer.old.desk }
    ensures pending { drop writer.new.behind writer.new.log.items
        ≡ drop writer.old.behind writer.old.log.items ++ Some added ∷ [] }
{
    let mut update = Update { added: Some(added) };
    for _ in rt.forever() {
        match writer.append(update) {
            Ok(()) => return,
            Err(back) => update = back,
        }
    }
    unreachable!()
}

/// Publishes all that was put, in place.
fn publish_put<P: PairName, R: Wait>(rt: &R, writer: &mut FeedWriter<P>)
    ensures value { writer.new.desk.shown.value
        ≡ fold taken_events writer.old.desk.shown.value (drop writer.old.behind writer.old.log.items) }
    ensures none { drop writer.new.behind writer.new.log.items ≡ [] }
{
    replace_with(writer, rt, publish_all);
}

/// Publishes all that was put.
fn publish_all<P: PairName, R: Wait>(writer: FeedWriter<P>, rt: &R) -> (FeedWriter<P>, ())
    ensures value { result.0.desk.shown.value
        ≡ fold taken_events writer.desk.shown.value (drop writer.behind writer.log.items) }
    ensures none { drop result.0.behind result.0.log.items ≡ [] }
{
    (writer.publish_as::<Unruled, R>(rt).0, ())
}
