//! Rows of names, and sets of the numbers of their entries.
//!
//! Defined in: `lg_rules/specs/Meaning/Rows.antt`, `lg_bit_set/specs/Meaning/Flags.antt`.
//! Tested in: `lg_parts_tests/src/probe.rt`.
ghost use Rattle.std.specs.Prelude.{◌≡◌, ◌+◌, ◌≤◌, ◌++◌, length};
ghost use Rattle.arrayvec.specs.ArrayVec.{array_vec_len};
ghost use Rattle.lg_bit_set.specs.Meaning.Flags.{entries_in};
ghost use Rattle.lg_rules.specs.Meaning.Rows.{name_cmp, is_among};
ghost use Rattle.lg_probe.specs.Meaning.Order.{without};
ghost use Rattle.lg_probe.specs.Support.Order.{IsPart};

use arrayvec::ArrayVec;
use lg_bit_set::BitSet;
use lg_rules::{MAX_OTHERS, Name};

/// The names of a row whose numbers are in a set, in the order of the row.
pub(crate) fn entries(row: &[Name], numbers: &BitSet) -> ArrayVec<Name, MAX_OTHERS>
    requires { length row.now ≤ MAX_OTHERS }
    ensures { result.items ≡ entries_in numbers.now row.now }
{
    let mut names = ArrayVec::new();
    for (number, name) in row.iter().enumerate() {
        if numbers.contains(number as u8) {
            names.push(*name);
        }
    }
    names
}

/// Takes the numbers of a name out of a set. Returns whether the set had one.
pub(crate) fn take_out(row: &[Name], numbers: &mut BitSet, name: &Name) -> bool
    requires few { length row.now ≤ MAX_OTHERS }
    requires numbers { IsPart row.now (entries_in numbers.old row.now) numbers.old }
    ensures found { result ≡ is_among name_cmp name.now (entries_in numbers.old row.now) }
    ensures left { entries_in numbers.new row.now ≡ without name.now (entries_in numbers.old row.now) }
    ensures numbers { IsPart row.now (entries_in numbers.new row.now) numbers.new }
{
    let mut found = false;
    for (number, other) in row.iter().enumerate() {
        if *other == *name {
            found = found || numbers.contains(number as u8);
            numbers.remove(number as u8);
        }
    }
    found
}

/// Whether a name is among some names in any order.
pub(crate) fn is_listed(names: &[Name], name: &Name) -> bool
    ensures { result ≡ is_among name_cmp name.now names.now }
{
    names.contains(name)
}

/// Adds these names at the end of a row.
pub(crate) fn push_all<const N: usize>(row: &mut ArrayVec<Name, N>, names: &[Name])
    requires { array_vec_len row.old + length names.now ≤ N }
    ensures { row.new.items ≡ row.old.items ++ names.now }
{
    for name in names {
        row.push(*name);
    }
}
