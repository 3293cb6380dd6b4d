//! Published pairs of b at 127.0.0.1:7000: what fails because of refused memory has changed nothing, and goes well the
//! next time.
ghost use Rattle.std.specs.Prelude.{◌≡◌, ◌<◌, ◌++◌, ◌∷◌, ◌^◌, [], length, IfOk, MatchBool};

use left_right::Absorb;
use lg_changes::{Altered, Behind};
use lg_detector::{Detector, Event};
use lg_testing::{alive, at, letter, local};
use lg_timing::Config;
use lg_view::{
    Feed, Look, MembersFault, PairFault, PairName, Published, UnnamedBook, Update, pair,
};
use std::alloc::Global;
use std::marker::{Brand, Model};
use std::sync::Wait;

/// A feed, and a detector after the same events, from which the keeper knows which event is accepted.
struct Keeper<P: PairName>
where
    Published<P>: Absorb<Update<P>, State = [Event; 0]>,
{
    feed: Feed<P>,
    detector: Detector,
}

impl<P: PairName> Model for Keeper<P>
where
    Published<P>: Absorb<Update<P>, State = [Event; 0]>,
{
    ghost use Rattle.std.specs.Prelude.{◌≡◌, List, [], true};
    ghost use Rattle.lg_detector.specs.declared.event.Event.{Event};
    ghost use Rattle.lg_detector.specs.Meaning.Step.{is_accepted};
    ghost use Rattle.lg_detector.specs.Support.Step.{state_after};

    ghost Value = { List Event };

    ghost view = { λ k. k.feed.events };

    ghost invariant = { λ k. (k.feed.waiting ≡ []) × (k.detector ≡ state_after k.feed.events)
        × (is_accepted k.feed.events ≡ true) };
}

impl<P: PairName> Keeper<P> {
    /// A keeper of no events, and this many looks. Fails as [`pair`] does, and with [`PairFault::NoMemory`] if memory
    /// for the detector was refused.
    fn new<R: Wait>(
        rt: &R,
        alloc: Global,
        book: UnnamedBook,
        places: usize,
    ) -> Result<(Keeper<P>, Vec<Look<P>>), PairFault>
        requires book { book.seen.book ≡ P.book }
        requires places { (0 < places) × (places < 2 ^ 32) }
        ensures { IfOk result (λ made. made.0 ≡ []) }
    {
        let Ok(detector) = Detector::blank(alloc) else {
            return Err(PairFault::NoMemory);
        };
        let (feed, looks) = pair(rt, alloc, book, places)?;
        Ok((Keeper { feed, detector }, looks))
    }

    /// Appends an event and publishes it, if it is accepted. Returns whether it was accepted and no memory was
    /// refused.
    fn take<R: Wait>(&mut self, rt: &R, alloc: Global, event: &Event) -> bool
        ensures { MatchBool result (self.new ≡ self.old ++ event.now ∷ []) (self.new ≡ self.old) }
    {
        if !self.detector.accepts(event) {
            return false;
        }
        if self.feed.append(alloc, event).is_err() {
            return false;
        }
        self.detector.absorb(event);
        self.feed.publish(rt);
        true
    }

    fn end<R: Wait>(self, rt: &R) {
        let Keeper { feed, detector: _ } = self;
        feed.end(rt);
    }
}

/// Publishes an event, at the second try if need be. Returns whether it was published, and nothing had changed before
/// that. There are `count` events before it.
fn takes<P: PairName, R: Wait>(
    rt: &R,
    alloc: Global,
    keeper: &mut Keeper<P>,
    look: &mut Look<P>,
    event: &Event,
    count: u64,
) -> bool {
    if keeper.take(rt, alloc, event) {
        return true;
    }
    look.version() == Ok(count) && keeper.take(rt, alloc, event)
}

/// Whether b is the only member that a look finds, or why it found none.
fn has_own<P: PairName>(alloc: Global, look: &mut Look<P>) -> Result<bool, MembersFault> {
    let members = look.members(alloc)?;
    Ok(members.as_slice() == [alive(b'b', 0)].as_slice())
}

/// The same, at the second try if memory was refused.
fn has_own_at_last<P: PairName>(alloc: Global, look: &mut Look<P>) -> bool {
    let mut has = has_own(alloc, look);
    if has == Err(MembersFault::NoMemory) {
        has = has_own(alloc, look);
    }
    has == Ok(true)
}

/// Whether all changes that a look tells are that b became known, or why it told none.
fn has_change<P: PairName>(alloc: Global, look: &mut Look<P>) -> Result<bool, MembersFault> {
    let found = look.overview(alloc, 0)?;
    match &found.changes {
        Behind::All(rows) => Ok(
            matches!(rows.as_slice(), [change] if change.altered == Altered::Recorded(alive(b'b', 0))),
        ),
        Behind::Missed(_) => Ok(false),
    }
}

/// The same, at the second try if memory was refused.
fn has_change_at_last<P: PairName>(alloc: Global, look: &mut Look<P>) -> bool {
    let mut has = has_change(alloc, look);
    if has == Err(MembersFault::NoMemory) {
        has = has_change(alloc, look);
    }
    has == Ok(true)
}

/// Makes a pair, publishes an opening and an event, and looks at the members and at the changes, each twice if need be.
/// Returns whether all went well. The error is that no pair was made.
fn goes_on<P: PairName, R: Wait>(
    rt: &R,
    alloc: Global,
    book: UnnamedBook,
) -> Result<bool, PairFault>
    requires book { book.seen.book ≡ P.book }
{
    let (now, config) = (at(0), Config::new(letter(b'b'), local(7000)));
    let (mut keeper, mut looks) = Keeper::<P>::new(rt, alloc, book, 1)?;
    let Some(mut look) = looks.pop() else {
        keeper.end(rt);
        return Err(PairFault::NoPlace);
    };
    let (keeper_of, look_of) = (&mut keeper, &mut look);
    let met = takes(
        rt,
        alloc,
        keeper_of,
        look_of,
        &Event::Open { now, config },
        0,
    ) && takes(rt, alloc, keeper_of, look_of, &Event::Health { now }, 1)
        && has_own_at_last(alloc, look_of)
        && has_change_at_last(alloc, look_of);
    keeper.end(rt);
    Ok(met && look.seen() == 2)
}

/// Whether all goes well.
fn told<R: Wait>(rt: &R, alloc: Global) -> Result<bool, PairFault> {
    goes_on::<Brand, R>(rt, alloc, UnnamedBook::new())
}

#[test]
fn goes_on_after_refused_memory(rt: HostRuntime) {
    let mut ended = told(&rt, rt.alloc());
    if ended == Err(PairFault::NoMemory) {
        ended = told(&rt, rt.alloc());
    }
    assert_eq!(rt; ended, Ok(true));
}
