//! The set of timers.
//!
//! Defined in: `specs/Meaning/Timers.antt`.
//! Tested in: `lg_parts_tests/src/timers.rt`.
ghost use Rattle.std.specs.Prelude.{◌≡◌, ◌<◌, ◌≤◌, ◌+◌, ◌^◌, false, [], length};
ghost use Rattle.lg_timers.specs.Meaning.Timers.{is_set, with_timer, without_timer};
ghost use Rattle.lg_timers.specs.Meaning.Timers.{least_of, due_of, first_forget, timers_left};
ghost use Rattle.lg_timers.specs.Support.InTurn.{IsTimerSet};

use crate::comparing::{Comparer, Uncounted};
use crate::indexed_heap::IndexedHeap;
use crate::singles::{Single, Singles, first_of_both};
use crate::steps::{MAX_STEPS, Steps};
use crate::timer::{Timer, TimerId};
use lg_timing::Moment;
use std::marker::Model;

/// The most timers that are set at once: 400 (this project's choice).
pub const MAX_TIMERS: usize = 400;

/// The timers that are set: at most one with each id, and at most [`MAX_TIMERS`].
///
/// A contract sees them in the order in which they fire, whatever their order in memory is. The first is found without
/// a search. To set or to cancel one takes at most [`MAX_STEPS`] comparisons of timers of the heap, and a search by
/// halving for its id. No call allocates memory.
///
/// [`TimerId::RoundEnd`], [`TimerId::Direct`], [`TimerId::RoundStart`] and [`TimerId::Gossip`] stand outside the heap,
/// each as its deadline, since there is at most one of each, and each round and each gossip sets or cancels some. So to
/// set or to cancel one takes no search, and moves no timer of the heap.
#[derive(Debug, Drop)]
pub struct Timers {
    // The timers about no member and no relay, of which at most one of a kind is set.
    singles: Singles,
    // The first of these. Each event asks for it, and few change it.
    first_single: Option<Single>,
    // The others, as a heap.
    heap: IndexedHeap,
}

impl Model for Timers {
    ghost use Rattle.std.specs.Prelude.{List};
    ghost use Rattle.lg_timers.specs.declared.timer.Timer.{Timer as OneTimer};
    ghost use Rattle.lg_timers.specs.Support.Singles.{with_singles, AreTimers};

    ghost Value = { List OneTimer };

    ghost view = { λ t. with_singles t.singles t.heap };

    ghost invariant = { λ t. AreTimers t.singles t.first_single t.heap };
}

impl Default for Timers {
    ghost use Rattle.std.specs.Prelude.{◌≡◌, []};

    ghost is_default = { λ t. t ≡ [] };

    fn default() -> Self {
        Timers::new()
    }
}

impl Timers {
    /// An empty set of timers.
    pub fn new() -> Timers
        ensures { result ≡ [] }
    {
        Timers {
            singles: Singles::new(),
            first_single: None,
            heap: IndexedHeap::new(),
        }
    }

    /// Overwrites other timers by these, in place. Allocates no memory.
    pub fn copy_into(&self, into: &mut Timers)
        ensures { into.new ≡ self.now }
    {
        into.singles = self.singles;
        into.first_single = self.first_single;
        self.heap.copy_into(&mut into.heap);
    }

    /// Adds a timer. Fewer than [`MAX_TIMERS`] have to be set, and none with its id.
    pub fn set(&mut self, timer: Timer)
        requires room { length self.old < MAX_TIMERS }
        requires apart { is_set timer.id self.old ≡ false }
        ensures { self.new ≡ with_timer timer self.old }
    {
        self.set_with(timer, &mut Uncounted);
    }

    /// Adds a timer, as `set` does. Its comparisons of timers of the heap raise the count by at most [`MAX_STEPS`], for
    /// which there has to be room.
    pub fn set_counted(&mut self, timer: Timer, steps: &mut Steps)
        requires room { length self.old < MAX_TIMERS }
        requires apart { is_set timer.id self.old ≡ false }
        requires few { steps.old + MAX_STEPS < 2 ^ 64 }
        ensures set { self.new ≡ with_timer timer self.old }
        ensures rises { steps.old ≤ steps.new }
        ensures counted { steps.new ≤ steps.old + MAX_STEPS }
    {
        self.set_with(timer, steps);
    }

    /// Adds a timer, as `set` does. Counts at most [`MAX_STEPS`] comparisons, if its comparer counts.
    fn set_with<C: Comparer>(&mut self, timer: Timer, comparer: &mut C)
        requires room { length self.old < MAX_TIMERS }
        requires apart { is_set timer.id self.old ≡ false }
        requires few { C.count comparer.old + MAX_STEPS < 2 ^ 64 }
        ensures set { self.new ≡ with_timer timer self.old }
        ensures rises { C.count comparer.old ≤ C.count comparer.new }
        ensures counted { C.count comparer.new ≤ C.count comparer.old + MAX_STEPS }
    {
        self.reset_with(timer, comparer);
    }

    /// Sets a timer: replaces the one with its id, or adds it. If none with its id is set, fewer than [`MAX_TIMERS`]
    /// have to be set.
    pub fn reset(&mut self, timer: Timer)
        requires { is_set timer.id self.old ≡ false → length self.old < MAX_TIMERS }
        ensures { self.new ≡ with_timer timer (without_timer timer.id self.old) }
    {
        self.reset_with(timer, &mut Uncounted);
    }

    /// Sets a timer, as `reset` does. Counts at most [`MAX_STEPS`] comparisons, if its comparer counts.
    fn reset_with<C: Comparer>(&mut self, timer: Timer, comparer: &mut C)
        requires room { is_set timer.id self.old ≡ false → length self.old < MAX_TIMERS }
        requires few { C.count comparer.old + MAX_STEPS < 2 ^ 64 }
        ensures set { self.new ≡ with_timer timer (without_timer timer.id self.old) }
        ensures rises { C.count comparer.old ≤ C.count comparer.new }
        ensures counted { C.count comparer.new ≤ C.count comparer.old + MAX_STEPS }
    {
        if self.singles.reset(&timer) {
            self.first_single = self.singles.first();
        } else {
            self.heap.reset_with(timer, comparer);
        }
    }

    /// Cancels the timer with this id, and returns whether there was one. The others stay set.
    pub fn cancel(&mut self, id: &TimerId) -> bool
        ensures was_set { result ≡ is_set id.now self.old }
        ensures others { self.new ≡ without_timer id.now self.old }
    {
        self.cancel_with(id, &mut Uncounted)
    }

    /// Cancels the timer with this id, as `cancel` does. Its comparisons of timers of the heap raise the count by at
    /// most [`MAX_STEPS`], for which there has to be room.
    pub fn cancel_counted(&mut self, id: &TimerId, steps: &mut Steps) -> bool
        requires { steps.old + MAX_STEPS < 2 ^ 64 }
        ensures was_set { result ≡ is_set id.now self.old }
        ensures others { self.new ≡ without_timer id.now self.old }
        ensures rises { steps.old ≤ steps.new }
        ensures counted { steps.new ≤ steps.old + MAX_STEPS }
    {
        self.cancel_with(id, steps)
    }

    /// Cancels the timer with this id, as `cancel` does. Counts at most [`MAX_STEPS`] comparisons, if its comparer
    /// counts.
    fn cancel_with<C: Comparer>(&mut self, id: &TimerId, comparer: &mut C) -> bool
        requires few { C.count comparer.old + MAX_STEPS < 2 ^ 64 }
        ensures was_set { result ≡ is_set id.now self.old }
        ensures others { self.new ≡ without_timer id.now self.old }
        ensures rises { C.count comparer.old ≤ C.count comparer.new }
        ensures counted { C.count comparer.new ≤ C.count comparer.old + MAX_STEPS }
    {
        match self.singles.cancel(id) {
            Some(was_set) => {
                self.first_single = self.singles.first();
                was_set
            }
            None => self.heap.cancel_with(id, comparer),
        }
    }

    /// Cancels all timers.
    pub fn clear(&mut self)
        ensures { self.new ≡ [] }
    {
        self.singles = Singles::new();
        self.first_single = None;
        self.heap.clear();
    }

    /// The timer that fires first, if any is set.
    #[inline]
    pub fn least(&self) -> Option<Timer>
        ensures least { result ≡ least_of self.now }
        ensures set { IsTimerSet self.now }
    {
        first_of_both(self.first_single, self.heap.first())
    }

    /// The first of the timers that are due, or `None` if none is due. A timer is due if its deadline isn't after
    /// `now`. The timer stays set.
    pub fn due(&self, now: Moment) -> Option<Timer>
        ensures { result ≡ due_of now self.now }
    {
        let timer = self.least()?;
        if timer.deadline > now.milliseconds() {
            return None;
        }
        Some(timer)
    }

    /// The first of the timers that forget a member, or `None` if none is set. The timer stays set. This goes over all
    /// timers of the heap.
    pub fn first_forget(&self) -> Option<Timer>
        ensures { result ≡ first_forget self.now }
    {
        self.heap.first_forget()
    }

    /// Takes out the first of the timers that are due, and no other. A timer is due if its deadline isn't after
    /// `now`. If none is due, returns `None` and changes nothing.
    pub fn take_due(&mut self, now: Moment) -> Option<Timer>
        ensures due { result ≡ due_of now self.old }
        ensures left { self.new ≡ timers_left result self.old }
    {
        self.take_due_with(now, &mut Uncounted)
    }

    /// Takes out the first of the timers that are due, as `take_due` does. Its comparisons of timers of the heap raise
    /// the count by at most [`MAX_STEPS`], for which there has to be room.
    pub fn take_due_counted(&mut self, now: Moment, steps: &mut Steps) -> Option<Timer>
        requires { steps.old + MAX_STEPS < 2 ^ 64 }
        ensures due { result ≡ due_of now self.old }
        ensures left { self.new ≡ timers_left result self.old }
        ensures rises { steps.old ≤ steps.new }
        ensures counted { steps.new ≤ steps.old + MAX_STEPS }
    {
        self.take_due_with(now, steps)
    }

    /// Takes out the first of the timers that are due, as `take_due` does. Counts at most [`MAX_STEPS`] comparisons, if
    /// its comparer counts.
    fn take_due_with<C: Comparer>(&mut self, now: Moment, comparer: &mut C) -> Option<Timer>
        requires few { C.count comparer.old + MAX_STEPS < 2 ^ 64 }
        ensures due { result ≡ due_of now self.old }
        ensures left { self.new ≡ timers_left result self.old }
        ensures rises { C.count comparer.old ≤ C.count comparer.new }
        ensures counted { C.count comparer.new ≤ C.count comparer.old + MAX_STEPS }
    {
        let timer = self.due(now)?;
        self.cancel_with(&timer.id, comparer);
        Some(timer)
    }
}
