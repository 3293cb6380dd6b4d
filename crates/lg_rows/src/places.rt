//! The places of a row: those in use come first, in the order of the row.
//!
//! Defined in: `specs/Support/Places.antt`.
//! Tested in: `lg_parts_tests/src/rows.rt`.
ghost use Rattle.std.specs.Prelude.{◌≡◌, ◌<◌, ◌≤◌, length, slice_set};
ghost use Rattle.std.specs.List.{range_with_len};
ghost use Rattle.lg_rows.specs.Support.Places.{moved};

use crate::rows::MAX_ROWS;
use arrayvec::ArrayVec;

/// Moves the place at an index down to a lower index. Those between move up by one.
pub(crate) fn move_down(places: &mut [u16], from: usize, to: usize)
    requires order { to ≤ from }
    requires within { from < length places.old }
    ensures { places.new ≡ moved places.old from to }
{
    places[to..from + 1].rotate_right(1);
}

/// Moves the place at an index up to a higher index. Those between move down by one.
pub(crate) fn move_up(places: &mut [u16], from: usize, to: usize)
    requires order { from ≤ to }
    requires within { to < length places.old }
    ensures { places.new ≡ moved places.old from to }
{
    places[from..to + 1].rotate_left(1);
}

/// Each number below `N`, in rising order.
pub(crate) fn all_places<const N: usize>() -> [u16; N]
    requires { N ≤ MAX_ROWS }
    ensures { result ≡ range_with_len 0 N }
{
    let mut places = [0; N];
    for place in 0..N {
        places[place] = place as u16;
    }
    places
}

/// Puts an item in a place.
#[inline]
pub(crate) fn put_at<T: Drop, const N: usize>(items: &mut ArrayVec<T, N>, place: u16, item: T)
    requires { place < length items.old.items }
    ensures { items.new.items ≡ slice_set items.old.items place item }
{
    items[usize::from(place)] = item;
}
