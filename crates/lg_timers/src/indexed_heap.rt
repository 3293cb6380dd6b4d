//! The timers of which there may be many at once: those about a member or about a relay.
//!
//! Defined in: `specs/Meaning/Timers.antt`, `specs/Support/Slots.antt`.
//! Tested in: `lg_parts_tests/src/timers.rt`.
ghost use Rattle.std.specs.Prelude.{◌≡◌, ◌<◌, ◌≤◌, ◌+◌, ◌^◌, false, [], length};
ghost use Rattle.std.specs.Option.{option_copied};
ghost use Rattle.lg_timers.specs.Meaning.Timers.{is_set, with_timer, without_timer};
ghost use Rattle.lg_timers.specs.Meaning.Timers.{least_of, first_forget};
ghost use Rattle.lg_timers.specs.Support.InTurn.{earlier_forget};

use crate::by_id::index_of;
use crate::comparing::Comparer;
use crate::heap::Heap;
use crate::steps::MAX_STEPS;
use crate::timer::{Timer, TimerId};
use crate::timers::MAX_TIMERS;
use arrayvec::ArrayVec;
use std::marker::Model;

/// Timers, at most one with each id, and at most [`MAX_TIMERS`].
///
/// A contract sees them in the order in which they fire, whatever their order in memory is. The first is found without
/// a search. To set or to cancel one takes at most [`MAX_STEPS`] comparisons of timers, and a search by halving for its
/// id.
#[derive(Debug, Drop)]
pub(crate) struct IndexedHeap {
    // Each timer stays in its slot. What is in a slot that isn't in use doesn't count.
    timers: [Timer; MAX_TIMERS],
    // The slots in use, as a heap.
    heap: Heap,
    // The slots in use, in rising order of their timers' ids.
    by_id: ArrayVec<u16, MAX_TIMERS>,
}

impl Model for IndexedHeap {
    ghost use Rattle.std.specs.Prelude.{List};
    ghost use Rattle.lg_timers.specs.declared.timer.Timer.{Timer as OneTimer};
    ghost use Rattle.lg_timers.specs.Meaning.Timers.{in_turn};
    ghost use Rattle.lg_timers.specs.Support.Slots.{timers_in, AreBothRows};

    ghost Value = { List OneTimer };

    ghost view = { λ t. in_turn (timers_in t.timers t.by_id.items) };

    ghost invariant = { λ t. AreBothRows t.timers t.heap.slots t.heap.places t.heap.count t.by_id.items };
}

/// The first timer that forgets a member, by the first of some timers that does, and one more timer.
fn earlier_forget(first: Option<Timer>, timer: &Timer) -> Option<Timer>
    ensures { result ≡ earlier_forget first timer.now }
{
    if !matches!(timer.id, TimerId::Forget(_)) {
        return first;
    }
    match first {
        Some(first) if first.is_before(timer) => Some(first),
        _ => Some(*timer),
    }
}

impl IndexedHeap {
    /// No timer is set.
    #[tactic(auto, unfolding(crate::specs::Meaning::Timers::in_turn))]
    pub(crate) fn new() -> IndexedHeap
        ensures { result ≡ [] }
    {
        IndexedHeap {
            timers: [Timer::default(); MAX_TIMERS],
            heap: Heap::new(),
            by_id: ArrayVec::new(),
        }
    }

    /// Overwrites others by these timers, in place.
    pub(crate) fn copy_into(&self, into: &mut IndexedHeap)
        ensures { into.new ≡ self.now }
    {
        into.timers.copy_from_slice(&self.timers);
        self.heap.copy_into(&mut into.heap);
        into.by_id.clear();
        into.by_id.try_extend_from_slice(&self.by_id).unwrap();
    }

    /// Sets a timer: replaces the one with its id, or adds it. If none with its id is set, fewer than [`MAX_TIMERS`]
    /// have to be set. Counts at most [`MAX_STEPS`] comparisons, if its comparer counts.
    pub(crate) fn reset_with<C: Comparer>(&mut self, timer: Timer, comparer: &mut C)
        requires room { is_set timer.id self.old ≡ false → length self.old < MAX_TIMERS }
        requires few { C.count comparer.old + MAX_STEPS < 2 ^ 64 }
        ensures set { self.new ≡ with_timer timer (without_timer timer.id self.old) }
        ensures rises { C.count comparer.old ≤ C.count comparer.new }
        ensures counted { C.count comparer.new ≤ C.count comparer.old + MAX_STEPS }
    {
        match index_of(&self.by_id, &self.timers, &timer.id) {
            Ok(at) => {
                let slot = self.by_id[at];
                self.timers[usize::from(slot)] = timer;
                self.heap.replace(&self.timers, slot, comparer);
            }
            Err(at) => {
                let slot = self.heap.free_slot();
                self.timers[usize::from(slot)] = timer;
                self.by_id.insert(at, slot);
                self.heap.add(&self.timers, comparer);
            }
        }
    }

    /// Cancels the timer with this id, and returns whether there was one. The others stay set. Counts at most
    /// [`MAX_STEPS`] comparisons, if its comparer counts.
    pub(crate) fn cancel_with<C: Comparer>(&mut self, id: &TimerId, comparer: &mut C) -> bool
        requires few { C.count comparer.old + MAX_STEPS < 2 ^ 64 }
        ensures was_set { result ≡ is_set id.now self.old }
        ensures others { self.new ≡ without_timer id.now self.old }
        ensures rises { C.count comparer.old ≤ C.count comparer.new }
        ensures counted { C.count comparer.new ≤ C.count comparer.old + MAX_STEPS }
    {
        match index_of(&self.by_id, &self.timers, id) {
            Ok(at) => {
                let slot = self.by_id.remove(at);
                self.heap.remove(&self.timers, slot, comparer);
                true
            }
            Err(_) => false,
        }
    }

    /// Cancels all timers.
    #[tactic(auto, unfolding(crate::specs::Meaning::Timers::in_turn))]
    pub(crate) fn clear(&mut self)
        ensures { self.new ≡ [] }
    {
        self.heap.clear();
        self.by_id.clear();
    }

    /// The timer that fires first, if any is set.
    pub(crate) fn first(&self) -> Option<&Timer>
        ensures { option_copied result ≡ least_of self.now }
    {
        let slot = self.heap.first()?;
        Some(&self.timers[usize::from(slot)])
    }

    /// The first of the timers that forget a member, or `None` if none is set. This goes over all timers that are set.
    pub(crate) fn first_forget(&self) -> Option<Timer>
        ensures { result ≡ first_forget self.now }
    {
        let mut first = None;
        for slot in self.by_id.as_slice() {
            first = earlier_forget(first, &self.timers[usize::from(*slot)]);
        }
        first
    }
}
