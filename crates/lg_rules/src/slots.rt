//! Slots: the known names as numbers.
//!
//! Defined in: `specs/Meaning/Slots.antt`, `Table.antt`.
//! Tested in: `lg_parts_tests/src/rules.rt`.
ghost use Rattle.std.specs.Prelude.{◌≡◌, ◌≤◌, ◌<◌, ◌+◌, ◌==◌, map, insert, remove, slice_index_or, slice_set};
ghost use Rattle.std.specs.List.{position};
ghost use Rattle.arrayvec.specs.ArrayVec.{array_vec_len};
ghost use Rattle.lg_rules.specs.Support.Slots.{moved_down, moved_up};

use crate::members::MAX_OTHERS;
use arrayvec::ArrayVec;
use std::alloc::AllocError;
use std::marker::Model;

/// The slot of a known name, 0 to 255 (this project's choice): the lowest one that was free when this name became
/// known. This member's own name has slot 0. As long as a name is known, its slot is given to no other name.
///
/// A contract sees it as its number.
#[derive(Debug)]
pub struct Slot {
    number: u8,
}

impl Model for Slot {
    ghost use Rattle.std.specs.Prelude.{ℕ, ◌≤◌};

    ghost Value = { ℕ };

    ghost view = { λ s. s.number };

    ghost invariant = { λ s. s.number ≤ 255 };

    ghost inverse = { λ n. record { number = n } };
}

impl Clone for Slot {
    ghost use Rattle.std.specs.Prelude.{◌≡◌, ⊤};

    ghost is_clone = { λ x y. y ≡ x };

    ghost is_infallible = { λ _. ⊤ };

    fn clone(&self) -> Result<Self, AllocError> {
        Ok(*self)
    }
}

impl Copy for Slot {}

/// The slot of this member's own name. It fills those places of arrays of fixed length that hold no slot yet.
impl Default for Slot {
    ghost use Rattle.std.specs.Prelude.{◌≡◌};

    ghost is_default = { λ s. s ≡ 0 };

    fn default() -> Self {
        Slot { number: 0 }
    }
}

impl PartialEq for Slot {
    ghost use Rattle.std.specs.Prelude.{nat_eq};
    ghost use Rattle.std.proofs.Common.{rules};
    ghost use Rattle.std.specs.Cmp.Rules.{comparing};

    ghost eq = { nat_eq };

    ghost laws = { Prim.search (comparing, rules) };

    fn eq(&self, other: &Slot) -> bool {
        self.number == other.number
    }
}

impl Eq for Slot {
    ghost use Rattle.std.proofs.Common.{rules};
    ghost use Rattle.std.specs.Cmp.Rules.{comparing};

    ghost laws = { Prim.search (comparing, rules) };
}

impl Slot {
    /// The slot with this number.
    pub fn new(number: u8) -> Slot
        ensures { result ≡ number }
    {
        Slot { number }
    }

    /// The slot of this member's own name: 0.
    pub fn own() -> Slot
        ensures { result ≡ 0 }
    {
        Slot { number: 0 }
    }

    /// The number, 0 to 255.
    pub fn number(&self) -> u8
        ensures { result ≡ self.now }
    {
        self.number
    }
}

/// The index of a free slot. It is that of no record, since there are at most 255.
pub(crate) const FREE: u8 = 255;

/// The index of a record once another one was inserted at an index.
fn moved_up(index: u8, at: u8) -> u8
    ensures { result ≡ moved_up at index }
{
    if at <= index && index < FREE {
        index + 1
    } else {
        index
    }
}

/// The index of a record once the one at an index was removed: a free slot's, if it is this one's.
fn moved_down(index: u8, at: u8) -> u8
    ensures { result ≡ moved_down at index }
{
    if index == at {
        FREE
    } else if at < index && index < FREE {
        index - 1
    } else {
        index
    }
}

/// Moves each index up that isn't below the one at which a record was inserted.
fn move_up(indexes: &mut [u8], at: u8)
    ensures { indexes.new ≡ map (moved_up at) indexes.old }
{
    for index in indexes.iter_mut() {
        *index = moved_up(*index, at);
    }
}

/// Frees the slot of a record that was removed at an index, and moves each index down that is above.
fn move_down(indexes: &mut [u8], at: u8)
    ensures { indexes.new ≡ map (moved_down at) indexes.old }
{
    for index in indexes.iter_mut() {
        *index = moved_down(*index, at);
    }
}

/// Where the first free slot is among the slots behind the own one, if one is free.
pub(crate) fn free_place(indexes: &[u8]) -> Option<usize>
    ensures { result ≡ position (λ i. i == FREE) indexes.now }
{
    indexes.iter().position(|index| *index == FREE)
}

/// Gives a free slot to a name whose record was inserted at an index.
pub(crate) fn give_slot(
    slots: &mut ArrayVec<Slot, MAX_OTHERS>,
    indexes: &mut [u8; MAX_OTHERS],
    at: usize,
    free: usize,
)
    requires room { array_vec_len slots.old < MAX_OTHERS }
    requires within { at ≤ array_vec_len slots.old }
    requires free { free < MAX_OTHERS }
    ensures slots { slots.new.items ≡ insert slots.old.items at (free + 1) }
    ensures indexes { indexes.new ≡ slice_set (map (moved_up at) indexes.old) free at }
{
    move_up(indexes, at as u8);
    indexes[free] = at as u8;
    slots.insert(at, Slot::new(free as u8 + 1));
}

/// Frees the slot of a name whose record was removed at an index.
pub(crate) fn take_slot(
    slots: &mut ArrayVec<Slot, MAX_OTHERS>,
    indexes: &mut [u8; MAX_OTHERS],
    at: usize,
) -> Slot
    requires within { at < array_vec_len slots.old }
    requires few { array_vec_len slots.old ≤ MAX_OTHERS }
    ensures slot { result ≡ slice_index_or slots.old.items at result }
    ensures slots { slots.new.items ≡ remove slots.old.items at }
    ensures indexes { indexes.new ≡ map (moved_down at) indexes.old }
{
    move_down(indexes, at as u8);
    slots.remove(at)
}
