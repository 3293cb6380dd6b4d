//! The packets of a reply. A packet is large, so one that is given up stays in its slot, and the next packet is written
//! over it: what an event costs doesn't grow with the slots that it doesn't use.
//!
//! Tested in: `lg_detector_tests/src/detector/probing.rt`.
ghost use Rattle.std.specs.Prelude.{◌≡◌, ◌<◌, ◌≤◌, ◌+◌, ◌++◌, ◌∷◌, ◌==◌, [], length, take, false};
ghost use Rattle.arrayvec.specs.ArrayVec.{array_vec_len};

use crate::reply::{MAX_SENDS, Outgoing};
use arrayvec::ArrayVec;
use std::fmt::{self, Debug, Formatter};
use std::marker::Model;

/// The packets that an event sends, in order: at most [`MAX_SENDS`]. No call allocates memory. A contract sees them as
/// the items of an `ArrayVec`.
#[derive(Drop)]
pub struct Sends {
    /// The packets, and behind them those of earlier events, which nobody sees.
    pub(crate) slots: ArrayVec<Outgoing, MAX_SENDS>,
    /// How many of the slots are packets of this event.
    pub(crate) count: usize,
}

impl Model for Sends {
    ghost use Rattle.std.specs.Prelude.{◌≤◌, length, take};
    ghost use Rattle.arrayvec.specs.ArrayVec.{ArrayVec};
    ghost use Rattle.lg_detector.specs.declared.reply.Outgoing.{Outgoing};

    ghost Value = { ArrayVec Outgoing };

    ghost view = { λ s. record { items = take s.count s.slots.items } };

    ghost invariant = { λ s. s.count ≤ length s.slots.items };
}

impl Sends {
    /// No packets.
    pub fn new() -> Sends
        ensures { result.items ≡ [] }
    {
        Sends {
            slots: ArrayVec::new(),
            count: 0,
        }
    }

    /// How many packets there are.
    pub fn len(&self) -> usize
        ensures { result ≡ length self.now.items }
    {
        self.count
    }

    /// Whether there is no packet.
    pub fn is_empty(&self) -> bool
        ensures { result ≡ (length self.now.items == 0) }
    {
        self.count == 0
    }

    /// Whether there are as many packets as there can be: [`MAX_SENDS`].
    pub fn is_full(&self) -> bool
        ensures full { result ≡ (length self.now.items == MAX_SENDS) }
        ensures room { result ≡ false → length self.now.items < MAX_SENDS }
    {
        self.as_slice().len() == MAX_SENDS
    }

    /// The packets.
    pub fn as_slice(&self) -> &[Outgoing]
        ensures value { result.now ≡ self.now.items }
        ensures fits { length result.now ≤ MAX_SENDS }
    {
        &self.slots.as_slice()[..self.count]
    }

    /// Gives up all packets.
    pub fn clear(&mut self)
        ensures { self.new.items ≡ [] }
    {
        self.count = 0;
    }

    /// Appends a packet.
    pub fn push(&mut self, outgoing: Outgoing)
        requires { length self.old.items < MAX_SENDS }
        ensures { self.new.items ≡ self.old.items ++ outgoing ∷ [] }
    {
        let count = self.count;
        make_slots(&mut self.slots, count + 1);
        self.slots[count] = outgoing;
        self.count = count + 1;
    }
}

/// Brings a row to this many slots at least.
pub(crate) fn make_slots(slots: &mut ArrayVec<Outgoing, MAX_SENDS>, count: usize)
    requires { count ≤ MAX_SENDS }
    ensures enough { count ≤ array_vec_len slots.new }
    ensures kept { take (array_vec_len slots.old) slots.new.items ≡ slots.old.items }
{
    while slots.len() < count {
        add_slot(slots);
    }
}

/// Adds a slot. Mostly there are slots enough, and then no packet is to be made, so this isn't inlined.
#[inline(never)]
fn add_slot(slots: &mut ArrayVec<Outgoing, MAX_SENDS>)
    requires { array_vec_len slots.old < MAX_SENDS }
    ensures more { array_vec_len slots.new ≡ array_vec_len slots.old + 1 }
    ensures kept { take (array_vec_len slots.old) slots.new.items ≡ slots.old.items }
{
    slots.push(Outgoing::default());
}

impl Debug for Sends {
    fn fmt<W: fmt::Write>(&self, f: &mut Formatter<W>) -> fmt::Result {
        self.as_slice().fmt(f)
    }
}
