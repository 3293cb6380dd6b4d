//! The slots that are in use, as a heap.
//!
//! Defined in: `specs/Support/Heap.antt`, `specs/Support/Slots.antt`.
//! Tested in: `lg_parts_tests/src/timers.rt`.
ghost use Rattle.std.specs.Prelude.{◌≡◌, ◌<◌, ◌≤◌, ◌+◌, ◌*◌, ◌^◌, ◌∷◌, None, Some, IsPermutation};
ghost use Rattle.std.specs.Prelude.{length, take, slice_index, slice_set};
ghost use Rattle.std.specs.List.{swap};
ghost use Rattle.lg_timers.specs.Support.Heap.{fires_before, IsFirstBelow};
ghost use Rattle.lg_timers.specs.Support.Heap.{IsHeap, IsHeapAbove, IsHeapBelow, IsHeapAround};
ghost use Rattle.lg_timers.specs.Support.Slots.{timer_at, ArePlaced, AreTimerSlots, AreSettled};

use crate::comparing::Comparer;
use crate::timer::Timer;
use crate::timers::MAX_TIMERS;

/// The levels of the heap below its first place. A timer moves over each of them once at most.
pub(crate) const LEVELS: u64 = 8;

/// Numbers of slots, each of which holds a timer: those in use are a heap by their timers.
#[derive(Debug, Drop)]
pub(crate) struct Heap {
    // All slots. Those in use come first. The two below place p are at 2p + 1 and 2p + 2, and neither of their timers
    // fires before that of p.
    slots: [u16; MAX_TIMERS],
    // The place of each slot in that row, so that a slot is found there without a search.
    places: [u16; MAX_TIMERS],
    // How many are in use.
    count: usize,
}

impl Heap {
    /// No slot is in use.
    pub(crate) fn new() -> Heap
        ensures placed { ArePlaced result.slots result.places }
        ensures empty { result.count ≡ 0 }
    {
        let mut slots = [0; MAX_TIMERS];
        for slot in 0..MAX_TIMERS {
            slots[slot] = slot as u16;
        }
        Heap {
            slots,
            places: slots,
            count: 0,
        }
    }

    /// Overwrites another heap by this one, in place: the same slots in the same order.
    pub(crate) fn copy_into(&self, into: &mut Heap)
        ensures { into.new ≡ self.now }
    {
        into.slots.copy_from_slice(&self.slots);
        into.places.copy_from_slice(&self.places);
        into.count = self.count;
    }

    /// No slot is in use any more.
    pub(crate) fn clear(&mut self)
        ensures slots { self.new.slots ≡ self.old.slots }
        ensures places { self.new.places ≡ self.old.places }
        ensures empty { self.new.count ≡ 0 }
    {
        self.count = 0;
    }

    /// The slot whose timer fires first, if any is in use.
    pub(crate) fn first(&self) -> Option<u16>
        ensures none { self.now.count ≡ 0 → result ≡ None }
        ensures some { 0 < self.now.count → result ≡ Some (slice_index self.now.slots 0) }
    {
        if self.count == 0 {
            return None;
        }
        Some(self.slots[0])
    }

    /// A slot that isn't in use.
    pub(crate) fn free_slot(&self) -> u16
        requires { self.now.count < MAX_TIMERS }
        ensures { result ≡ slice_index self.now.slots self.now.count }
    {
        self.slots[self.count]
    }

    /// Whether the timer at a place fires before the one at another.
    #[inline]
    fn is_before<C: Comparer>(
        &self,
        timers: &[Timer],
        place: usize,
        other: usize,
        comparer: &mut C,
    ) -> bool
        requires full { length timers.now ≡ MAX_TIMERS }
        requires placed { ArePlaced self.now.slots self.now.places }
        requires place { place < MAX_TIMERS }
        requires other { other < MAX_TIMERS }
        requires room { C.count comparer.old + 1 < 2 ^ 64 }
        ensures before { let timer = timer_at timers.now self.now.slots in
            result ≡ fires_before (timer place) (timer other) }
        ensures counted { C.count comparer.new ≡ C.count comparer.old + C.adds }
        ensures once { C.adds ≤ 1 }
    {
        let timer = &timers[usize::from(self.slots[place])];
        comparer.is_before(timer, &timers[usize::from(self.slots[other])])
    }

    /// Puts a slot at a place.
    fn put(&mut self, place: usize, slot: u16)
        requires place { place < MAX_TIMERS }
        requires slot { slot < MAX_TIMERS }
        ensures slots { self.new.slots ≡ slice_set self.old.slots place slot }
        ensures places { self.new.places ≡ slice_set self.old.places slot place }
        ensures count { self.new.count ≡ self.old.count }
    {
        self.slots[place] = slot;
        self.places[usize::from(slot)] = place as u16;
    }

    /// The slots at two places change their places.
    fn exchange(&mut self, first: usize, second: usize)
        requires placed { ArePlaced self.old.slots self.old.places }
        requires first { first < MAX_TIMERS }
        requires second { second < MAX_TIMERS }
        ensures placed { ArePlaced self.new.slots self.new.places }
        ensures swapped { self.new.slots ≡ swap self.old.slots first second }
        ensures count { self.new.count ≡ self.old.count }
    {
        let slot = self.slots[first];
        let other = self.slots[second];
        self.put(first, other);
        self.put(second, slot);
    }

    /// Moves the slot at a place up, until its timer doesn't fire before the one above it. Counts at most one
    /// comparison a level.
    fn sift_up<C: Comparer>(&mut self, timers: &[Timer], mut place: usize, comparer: &mut C)
        requires slots { AreTimerSlots timers.now self.old.slots self.old.places self.old.count }
        requires within { place < self.old.count }
        requires above { IsHeapAbove (timer_at timers.now self.old.slots) self.old.count place }
        requires room { C.count comparer.old + LEVELS < 2 ^ 64 }
        ensures settled { AreSettled timers.now self.old.slots self.new.slots self.new.places self.old.count }
        ensures count { self.new.count ≡ self.old.count }
        ensures rises { C.count comparer.old ≤ C.count comparer.new }
        ensures counted { C.count comparer.new ≤ C.count comparer.old + LEVELS }
    {
        while place > 0 {
            let parent = (place - 1) / 2;
            if !self.is_before(timers, place, parent, comparer) {
                return;
            }
            self.exchange(parent, place);
            place = parent;
        }
    }

    /// Of the places right below a place, the one whose timer fires first.
    fn first_below<C: Comparer>(&self, timers: &[Timer], place: usize, comparer: &mut C) -> usize
        requires slots { AreTimerSlots timers.now self.now.slots self.now.places self.now.count }
        requires within { 2 * place + 1 < self.now.count }
        requires room { C.count comparer.old + 1 < 2 ^ 64 }
        ensures first { IsFirstBelow (timer_at timers.now self.now.slots) self.now.count place result }
        ensures rises { C.count comparer.old ≤ C.count comparer.new }
        ensures counted { C.count comparer.new ≤ C.count comparer.old + 1 }
    {
        let left = 2 * place + 1;
        let right = left + 1;
        if right < self.count && self.is_before(timers, right, left, comparer) {
            right
        } else {
            left
        }
    }

    /// Moves the slot at a place down, until no timer below fires before its own. Counts at most two comparisons a
    /// level.
    fn sift_down<C: Comparer>(&mut self, timers: &[Timer], mut place: usize, comparer: &mut C)
        requires slots { AreTimerSlots timers.now self.old.slots self.old.places self.old.count }
        requires within { place < self.old.count }
        requires below { IsHeapBelow (timer_at timers.now self.old.slots) self.old.count place }
        requires room { C.count comparer.old + 2 * LEVELS < 2 ^ 64 }
        ensures settled { AreSettled timers.now self.old.slots self.new.slots self.new.places self.old.count }
        ensures count { self.new.count ≡ self.old.count }
        ensures rises { C.count comparer.old ≤ C.count comparer.new }
        ensures counted { C.count comparer.new ≤ C.count comparer.old + 2 * LEVELS }
    {
        while 2 * place + 1 < self.count {
            let child = self.first_below(timers, place, comparer);
            if !self.is_before(timers, child, place, comparer) {
                return;
            }
            self.exchange(place, child);
            place = child;
        }
    }

    /// Moves the slot at a place up or down to where its timer belongs. Counts at most two comparisons a level, and one
    /// more.
    fn settle<C: Comparer>(&mut self, timers: &[Timer], place: usize, comparer: &mut C)
        requires slots { AreTimerSlots timers.now self.old.slots self.old.places self.old.count }
        requires within { place < self.old.count }
        requires around { IsHeapAround (timer_at timers.now self.old.slots) self.old.count place }
        requires room { C.count comparer.old + 2 * LEVELS + 1 < 2 ^ 64 }
        ensures settled { AreSettled timers.now self.old.slots self.new.slots self.new.places self.old.count }
        ensures count { self.new.count ≡ self.old.count }
        ensures rises { C.count comparer.old ≤ C.count comparer.new }
        ensures counted { C.count comparer.new ≤ C.count comparer.old + 2 * LEVELS + 1 }
    {
        if place > 0 && self.is_before(timers, place, (place - 1) / 2, comparer) {
            self.sift_up(timers, place, comparer);
        } else {
            self.sift_down(timers, place, comparer);
        }
    }

    /// Takes the free slot into use, once its timer is there. Counts at most one comparison a level.
    pub(crate) fn add<C: Comparer>(&mut self, timers: &[Timer], comparer: &mut C)
        requires slots { AreTimerSlots timers.now self.old.slots self.old.places self.old.count }
        requires free { self.old.count < MAX_TIMERS }
        requires heap { IsHeap (timer_at timers.now self.old.slots) self.old.count }
        requires room { C.count comparer.old + LEVELS < 2 ^ 64 }
        ensures settled { let count = self.old.count + 1 in
            AreSettled timers.now self.old.slots self.new.slots self.new.places count }
        ensures count { self.new.count ≡ self.old.count + 1 }
        ensures rises { C.count comparer.old ≤ C.count comparer.new }
        ensures counted { C.count comparer.new ≤ C.count comparer.old + LEVELS }
    {
        let place = self.count;
        self.count += 1;
        self.sift_up(timers, place, comparer);
    }

    /// Takes a slot out of use. Counts at most two comparisons a level, and one more.
    pub(crate) fn remove<C: Comparer>(&mut self, timers: &[Timer], slot: u16, comparer: &mut C)
        requires slots { AreTimerSlots timers.now self.old.slots self.old.places self.old.count }
        requires slot { slot < MAX_TIMERS }
        requires used { slice_index self.old.places slot < self.old.count }
        requires placed { slice_index self.old.slots (slice_index self.old.places slot) ≡ slot }
        requires heap { IsHeap (timer_at timers.now self.old.slots) self.old.count }
        requires room { C.count comparer.old + 2 * LEVELS + 1 < 2 ^ 64 }
        ensures slots { AreTimerSlots timers.now self.new.slots self.new.places self.new.count }
        ensures moved { let used = take self.new.count self.new.slots in
            IsPermutation (take self.old.count self.old.slots) (slot ∷ used) }
        ensures heap { IsHeap (timer_at timers.now self.new.slots) self.new.count }
        ensures count { self.new.count + 1 ≡ self.old.count }
        ensures rises { C.count comparer.old ≤ C.count comparer.new }
        ensures counted { C.count comparer.new ≤ C.count comparer.old + 2 * LEVELS + 1 }
    {
        let place = usize::from(self.places[usize::from(slot)]);
        self.count -= 1;
        self.exchange(place, self.count);
        if place < self.count {
            self.settle(timers, place, comparer);
        }
    }

    /// Moves a slot to where it belongs, once the deadline of its timer has changed. Counts at most two comparisons a
    /// level, and one more.
    pub(crate) fn replace<C: Comparer>(&mut self, timers: &[Timer], slot: u16, comparer: &mut C)
        requires slots { AreTimerSlots timers.now self.old.slots self.old.places self.old.count }
        requires slot { slot < MAX_TIMERS }
        requires used { slice_index self.old.places slot < self.old.count }
        requires around { let place = slice_index self.old.places slot in
            IsHeapAround (timer_at timers.now self.old.slots) self.old.count place }
        requires room { C.count comparer.old + 2 * LEVELS + 1 < 2 ^ 64 }
        ensures settled { AreSettled timers.now self.old.slots self.new.slots self.new.places self.old.count }
        ensures count { self.new.count ≡ self.old.count }
        ensures rises { C.count comparer.old ≤ C.count comparer.new }
        ensures counted { C.count comparer.new ≤ C.count comparer.old + 2 * LEVELS + 1 }
    {
        let place = usize::from(self.places[usize::from(slot)]);
        self.settle(timers, place, comparer);
    }
}
