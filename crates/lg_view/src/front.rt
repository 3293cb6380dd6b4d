//! A front of the book: the events at its beginning, up to some length (a prefix).
//!
//! Defined in: `lg_detector/specs/Meaning/Step.antt`.
//! Tested in: `lg_agent_tests/src/view/looks.rt`.
ghost use Rattle.std.specs.Prelude.{◌≡◌, ◌≤◌, ◌++◌, ◌∷◌, [], length, true, IfSome, MatchBool};
ghost use Rattle.lg_detector.specs.Meaning.Step.{is_accepted};
ghost use mathlib.Core.List.{IsPrefix};

use crate::book::{Adding, Book, BookRule, EventOffer, NoGain, PairName};
use lg_detector::Event;
use logbook::Seen;
use std::marker::{Model, PhantomData};

/// A front of the book. In memory it is the number of its events, in eight bytes.
#[derive(Drop)]
pub struct Front<P: PairName> {
    count: u64,
    seen: Seen<Event, u64, BookRule>,
    name: PhantomData<P>,
}

impl<P: PairName> Model for Front<P> {
    ghost use Rattle.std.specs.Prelude.{◌≡◌, List, length, true};
    ghost use Rattle.lg_detector.specs.declared.event.Event.{Event};
    ghost use Rattle.lg_detector.specs.Meaning.Step.{is_accepted};

    ghost Value = { List Event };

    ghost view = { λ f. f.seen.log };

    ghost invariant = { λ f. (f.count ≡ length f.seen.log)
        × (f.seen.book ≡ P.book)
        × (is_accepted f.seen.log ≡ true) };
}

impl<P: PairName> Front<P> {
    /// The empty front.
    pub(crate) fn empty(seen: Seen<Event, u64, BookRule>) -> Front<P>
        requires { (seen.book ≡ P.book) × (seen.log ≡ []) }
        ensures { result ≡ [] }
    {
        Front {
            count: 0,
            seen,
            name: PhantomData,
        }
    }

    /// How many events it has: at most 4,000,000,000, since it is a list that a detector accepts.
    pub(crate) fn len(&self) -> u64
        ensures length { result ≡ length self.now }
        ensures accepted { is_accepted self.now ≡ true }
    {
        self.count
    }

    /// An equal front. Allocates nothing.
    pub(crate) fn copy(&self) -> Front<P>
        ensures { result ≡ self.now }
    {
        Front {
            count: self.count,
            seen: self.seen.again(),
            name: PhantomData,
        }
    }

    /// Shows that this front begins the other one of the same book. The other must not be shorter.
    pub(crate) fn begins(&self, other: &Front<P>)
        requires { length self.now ≤ length other.now }
        ensures { IsPrefix self.now other.now }
    {
        let mut both = self.seen.again();
        both.learn(&other.seen);
    }

    /// Becomes the other front, unless that is shorter. Returns whether it did.
    pub(crate) fn advance_to(&mut self, other: &Front<P>) -> bool
        ensures { MatchBool result ((self.new ≡ other.now) × IsPrefix self.old other.now) (self.new ≡ self.old) }
    {
        if self.count > other.count {
            return false;
        }
        self.begins(other);
        *self = other.copy();
        true
    }

    /// Adds an event to the book if this front is its whole list, and returns the front with the event. If the book
    /// has another length, adds nothing and returns none.
    pub(crate) fn add(&self, book: &Book<P>, event: &Event) -> Option<Front<P>>
        requires { is_accepted (self.now ++ event.now ∷ []) ≡ true }
        ensures { IfSome result (λ front. front ≡ self.now ++ event.now ∷ []) }
    {
        let mut seen = self.seen.again();
        let mut offer: EventOffer = seen.plain::<NoGain, Event, Adding>(event);
        let mut pen = seen.no_pen();
        let count = self.count;
        let found = book
            .head
            .compare_exchange::<Adding, NoGain>(count, count + 1, &mut seen, &mut offer, &mut pen);
        if found != count {
            return None;
        }
        Some(Front {
            count: count + 1,
            seen,
            name: PhantomData,
        })
    }
}
