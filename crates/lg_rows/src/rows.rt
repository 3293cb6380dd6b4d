//! A row whose items stay in their places.
//!
//! Defined in: `specs/Meaning/Rows.antt`.
//! Tested in: `lg_parts_tests/src/rows.rt`.
ghost use Rattle.std.specs.Prelude.{◌≡◌, ◌<◌, ◌≤◌, ◌++◌, ◌∷◌, ◌==◌, [], length};
ghost use Rattle.std.specs.Prelude.{option_copied, slice_get, slice_index_or, insert, remove};
ghost use Rattle.std.specs.Borrow.{sem};

use crate::places::{all_places, move_down, move_up, put_at};
use arrayvec::ArrayVec;
use std::marker::Model;
use std::ops::{Index, IndexMut};

/// The greatest room of a row: 65,536 items, since a place has 16 bits (this project's choice).
pub const MAX_ROWS: usize = 65_536;

/// A row of at most `N` items, in an order that its caller keeps. `N` is at most [`MAX_ROWS`].
///
/// An item stays in its place in memory for as long as it is in the row. To insert or to remove one moves two bytes for
/// each item behind it. An item that was taken out is dropped once another comes to its place, or with the row. A
/// contract sees the list of the items, in the order of the row. `Debug` prints the places in that order, and beside
/// them what each place has, also items that were taken out and aren't dropped yet. No call allocates memory.
#[derive(Debug, Drop)]
pub struct Rows<T, const N: usize> {
    // How many places are in use.
    count: usize,
    // All places, each once. Those in use come first, in the order of their items.
    places: [u16; N],
    // The item in each place. What is in a place that isn't in use doesn't count.
    items: ArrayVec<T, N>,
}

impl<T, const N: usize> Model for Rows<T, N> {
    ghost use Rattle.std.specs.Prelude.{take};
    ghost use Rattle.lg_rows.specs.Meaning.Rows.{RowsValue, rows_code};

    ghost Value = { RowsValue T };

    ghost coded = { rows_code T.code };

    ghost use Rattle.lg_rows.specs.Support.Places.{items_at, AreRowPlaces};

    ghost view = { λ r. record { items = items_at r.items.items (take r.count r.places) } };

    ghost invariant = { λ r. AreRowPlaces N r.count r.places r.items.items };
}

impl<T: Default, const N: usize> Rows<T, N> {
    /// An empty row.
    pub fn new() -> Self
        requires { N ≤ MAX_ROWS }
        ensures { result.items ≡ [] }
    {
        Rows {
            count: 0,
            places: all_places(),
            items: ArrayVec::from_array_in((), Default::default()),
        }
    }
}

impl<T, const N: usize> Rows<T, N> {
    /// How many items the row has.
    #[inline]
    pub fn len(&self) -> usize
        ensures len { result ≡ length self.now.items }
        ensures few { result ≤ N }
    {
        self.count
    }

    /// Whether the row has no item.
    #[inline]
    pub fn is_empty(&self) -> bool
        ensures { result ≡ (length self.now.items == 0) }
    {
        self.count == 0
    }

    /// Whether the row has `N` items, so that there is room for no more.
    #[inline]
    pub fn is_full(&self) -> bool
        ensures full { result ≡ (length self.now.items == N) }
        ensures few { length self.now.items ≤ N }
    {
        self.count == N
    }

    /// The item at an index, from 0. `None` if there are no more than `index` items.
    #[inline]
    pub fn get(&self, index: usize) -> Option<&T>
        ensures { option_copied result ≡ slice_get self.now.items index }
    {
        if index < self.count {
            Some(&self[index])
        } else {
            None
        }
    }

    /// Takes all items out of the row.
    #[inline]
    pub fn clear(&mut self)
        ensures { self.new.items ≡ [] }
    {
        self.count = 0;
    }
}

impl<T: Drop, const N: usize> Rows<T, N> {
    /// Inserts an item at an index, which is at most the number of items. There has to be room. The items from this
    /// index on come behind it.
    pub fn insert(&mut self, index: usize, item: T)
        requires within { index ≤ length self.old.items }
        requires room { length self.old.items < N }
        ensures { self.new.items ≡ insert self.old.items index item }
    {
        put_at(&mut self.items, self.places[self.count], item);
        move_down(&mut self.places, self.count, index);
        self.count += 1;
    }

    /// Appends an item. There has to be room.
    pub fn push(&mut self, item: T)
        requires { length self.old.items < N }
        ensures { self.new.items ≡ self.old.items ++ item ∷ [] }
    {
        let end = self.len();
        self.insert(end, item);
    }

    /// Takes the item at an index out of the row. The items behind it come one index earlier.
    pub fn remove(&mut self, index: usize)
        requires { index < length self.old.items }
        ensures { self.new.items ≡ remove self.old.items index }
    {
        self.count -= 1;
        move_up(&mut self.places, index, self.count);
    }
}

impl<T: Copy + Default, const N: usize> Rows<T, N> {
    /// Overwrites another row by this one, in place. Copies all numbers of places, and of the items' places those that
    /// were ever used. Allocates no memory.
    pub fn copy_into(&self, into: &mut Self)
        ensures { into.new.items ≡ self.now.items }
    {
        into.count = self.count;
        into.places.copy_from_slice(&self.places);
        into.items.clear();
        into.items.try_extend_from_slice(&self.items).unwrap();
    }
}

/// `rows[index]` is the item at an index below the number of items.
impl<T, const N: usize> Index<usize> for Rows<T, N> {
    type Output = T;

    ghost can_index = { λ r i. i < length r.items };

    ghost index_gives = { λ r i x. x ≡ slice_index_or r.items i x };

    #[inline]
    fn index(&self, index: usize) -> &T
        requires { index < length self.now.items }
        ensures { result.now ≡ slice_index_or self.now.items index result.now }
    {
        &self.items[usize::from(self.places[index])]
    }
}

/// `rows[index] = item` replaces an item, and `&mut rows[index]` changes it in its place.
impl<T, const N: usize> IndexMut<usize> for Rows<T, N> {
    ghost use Rattle.lg_rows.specs.Support.Lends.{lends_row};

    #[inline]
    fn index_mut(&mut self, index: usize) -> &mut T
        requires { index < length self.old.items }
        ensures* writes_back { sem 𝓛 (lends_row T.row N.row self.entry index result) }
        ensures value { result.now ≡ slice_index_or self.old.items index result.now }
    {
        let places = &self.places;
        let place = usize::from(places[index]);
        self.items.get_mut(place).unwrap()
    }
}
