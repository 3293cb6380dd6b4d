//! A feed, and a detector after the same events, from which the keeper knows which event is accepted.
ghost use Rattle.std.specs.Prelude.{◌≡◌, ◌<◌, ◌++◌, ◌∷◌, ◌^◌, [], length, IfOk, MatchBool};

use left_right::Absorb;
use lg_detector::{Detector, Event};
use lg_view::{Feed, Look, PairFault, PairName, Published, UnnamedBook, Update, pair};
use std::alloc::Global;
use std::marker::Model;
use std::sync::Wait;

pub(super) struct Keeper<P: PairName>
where
    Published<P>: Absorb<Update<P>, State = [Event; 0]>,
{
    feed: Feed<P>,
    detector: Detector,
}

impl<P: PairName> Model for Keeper<P>
where
    Published<P>: Absorb<Update<P>, State = [Event; 0]>,
{
    ghost use Rattle.std.specs.Prelude.{◌≡◌, List, [], true};
    ghost use Rattle.lg_detector.specs.declared.event.Event.{Event};
    ghost use Rattle.lg_detector.specs.Meaning.Step.{is_accepted};
    ghost use Rattle.lg_detector.specs.Support.Step.{state_after};

    ghost Value = { List Event };

    ghost view = { λ k. k.feed.events };

    ghost invariant = { λ k. (k.feed.waiting ≡ []) × (k.detector ≡ state_after k.feed.events)
        × (is_accepted k.feed.events ≡ true) };
}

impl<P: PairName> Keeper<P> {
    /// A keeper of no events, and this many looks. Fails as [`pair`] does, and with [`PairFault::NoMemory`] if memory
    /// for the detector was refused.
    pub(super) fn new<R: Wait>(
        rt: &R,
        alloc: Global,
        book: UnnamedBook,
        places: usize,
    ) -> Result<(Keeper<P>, Vec<Look<P>>), PairFault>
        requires book { book.seen.book ≡ P.book }
        requires places { (0 < places) × (places < 2 ^ 32) }
        ensures { IfOk result (λ made. made.0 ≡ []) }
    {
        let Ok(detector) = Detector::blank(alloc) else {
            return Err(PairFault::NoMemory);
        };
        let (feed, looks) = pair(rt, alloc, book, places)?;
        Ok((Keeper { feed, detector }, looks))
    }

    /// Appends an event and publishes it, if it is accepted. Returns whether it was accepted and no memory was
    /// refused.
    pub(super) fn take<R: Wait>(&mut self, rt: &R, alloc: Global, event: &Event) -> bool
        ensures { MatchBool result (self.new ≡ self.old ++ event.now ∷ []) (self.new ≡ self.old) }
    {
        if !self.detector.accepts(event) {
            return false;
        }
        if self.feed.append(alloc, event).is_err() {
            return false;
        }
        self.detector.absorb(event);
        self.feed.publish(rt);
        true
    }

    /// Tells a look what is published, unless it has seen more events than that. Returns whether it was told.
    pub(super) fn tell(&self, look: &mut Look<P>) -> bool
        ensures { MatchBool result (look.new ≡ self.now) (look.new ≡ look.old) }
    {
        if look.seen() > self.detector.events() {
            return false;
        }
        self.feed.tell(look);
        true
    }

    pub(super) fn end<R: Wait>(self, rt: &R) {
        let Keeper { feed, detector: _ } = self;
        feed.end(rt);
    }
}
