//! Rows in rising order of their names: finding a row, and putting one in.
//!
//! Defined in: `specs/Meaning/Rows.antt`.
//! Tested in: `lg_parts_tests/src/rules.rt`.
ghost use Rattle.std.specs.Prelude.{◌≡◌, ◌<◌, ℕ, List, None, MatchResult, length, map};
ghost use Rattle.std.specs.List.{prefix_len};
ghost use Rattle.std.specs.Ordering.{is_lt};
ghost use Rattle.arrayvec.specs.ArrayVec.{array_vec_len};
ghost use Rattle.lg_rules.specs.Meaning.Rows.{name_cmp, put_row, row_at, Rises};
ghost use Rattle.lg_rules.specs.Support.Places.{HasRow, LacksRow};

use crate::name::Name;
use arrayvec::ArrayVec;
use lg_rows::Rows;
use std::cmp::Ordering;

/// A row with a name. Such rows are kept in the order of their names.
pub trait Keyed {
    ghost key_of: { Self → List ℕ };

    /// The name of the row.
    fn key(&self) -> Name
        ensures { result ≡ key_of self.now };
}

/// A name is a row whose name is itself.
impl Keyed for Name {
    ghost key_of = { λ n. n };

    fn key(&self) -> Name {
        *self
    }
}

/// How many rows have a lesser name. Found by binary search.
fn count_lesser<T: Keyed>(rows: &[T], name: &Name) -> usize
    requires { Rises name_cmp (map T.key_of rows.now) }
    ensures { result ≡ prefix_len (λ r. is_lt (name_cmp (T.key_of r) name.now)) rows.now }
{
    rows.partition_point(|row| row.key().cmp(name).is_lt())
}

/// `Ok` with the index of the row that has a name, or else `Err` with the index at which such a row would be
/// inserted. The rows have to be in rising order of their names.
pub fn index_of<T: Keyed>(rows: &[T], name: &Name) -> Result<usize, usize>
    requires { Rises name_cmp (map T.key_of rows.now) }
    ensures { let has = HasRow name_cmp T.key_of name.now rows.now in
        let lacks = LacksRow name_cmp T.key_of name.now rows.now in
        MatchResult result has lacks }
{
    let at = count_lesser(rows, name);
    if at < rows.len() {
        let row = &rows[at];
        if row.key() == *name { Ok(at) } else { Err(at) }
    } else {
        Err(at)
    }
}

/// Puts a row among rows in rising order of their names: replaces the row with its name, or inserts it if there is
/// none.
pub fn put_row<T: Keyed + Drop, const N: usize>(rows: &mut ArrayVec<T, N>, row: T)
    requires room { (row_at name_cmp T.key_of (T.key_of row) rows.old.items ≡ None) → array_vec_len rows.old < N }
    requires rises { Rises name_cmp (map T.key_of rows.old.items) }
    ensures { rows.new.items ≡ put_row name_cmp T.key_of row rows.old.items }
{
    match index_of(rows.as_slice(), &row.key()) {
        Ok(at) => rows[at] = row,
        Err(at) => rows.insert(at, row),
    }
}

/// The index of the row with a name, as [`index_of`] gives it, among rows that stay in their places. It is found by
/// halving.
pub fn index_in_rows<T: Keyed, const N: usize>(
    rows: &Rows<T, N>,
    name: &Name,
) -> Result<usize, usize>
    requires { Rises name_cmp (map T.key_of rows.now.items) }
    ensures { let has = HasRow name_cmp T.key_of name.now rows.now.items in
        let lacks = LacksRow name_cmp T.key_of name.now rows.now.items in
        MatchResult result has lacks }
{
    let mut low = 0;
    let mut high = rows.len();
    while low < high {
        let middle = low + (high - low) / 2;
        match rows[middle].key().cmp(name) {
            Ordering::Less => low = middle + 1,
            Ordering::Equal => return Ok(middle),
            Ordering::Greater => high = middle,
        }
    }
    Err(low)
}

/// Puts a row among rows that stay in their places, as [`put_row`] does.
pub fn put_in_rows<T: Keyed + Drop, const N: usize>(rows: &mut Rows<T, N>, row: T)
    requires room { (row_at name_cmp T.key_of (T.key_of row) rows.old.items ≡ None) → length rows.old.items < N }
    requires rises { Rises name_cmp (map T.key_of rows.old.items) }
    ensures { rows.new.items ≡ put_row name_cmp T.key_of row rows.old.items }
{
    match index_in_rows(rows, &row.key()) {
        Ok(at) => rows[at] = row,
        Err(at) => rows.insert(at, row),
    }
}
