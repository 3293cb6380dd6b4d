//! Picks by random words, among the names of a row whose numbers are in a set.
//!
//! Defined in: `specs/Meaning/Helpers.antt`, `specs/Meaning/Order.antt`.
//! Tested in: `lg_parts_tests/src/probe.rt`.
ghost use Rattle.std.specs.Prelude.{◌≡◌, ◌≤◌, ◌<◌, ◌%◌, ◌++◌, length};
ghost use Rattle.std.specs.Option.{option_to_list};
ghost use Rattle.arrayvec.specs.ArrayVec.{array_vec_len};
ghost use Rattle.lg_bit_set.specs.Meaning.Flags.{count_set, entries_in, nth_number};
ghost use Rattle.lg_rules.specs.Meaning.Rows.{name_cmp, Rises};
ghost use Rattle.lg_probe.specs.Meaning.Order.{candidate, without};
ghost use Rattle.lg_probe.specs.Meaning.Helpers.{left_by, picked_by};
ghost use Rattle.lg_probe.specs.Support.Helpers.{AreOfRow};
ghost use Rattle.lg_probe.specs.Support.Order.{IsPart};

use arrayvec::ArrayVec;
use lg_bit_set::BitSet;
use lg_rules::{MAX_OTHERS, Name, RANDOM_WORDS, index_of};

/// The number of a set that a random word chooses, if the set has any: the one whose index, from 0, is the word modulo
/// how many there are.
pub(crate) fn number_by(numbers: &BitSet, word: u32) -> Option<u8>
    ensures { result ≡ nth_number numbers.now (word % count_set numbers.now) }
{
    let count = numbers.len();
    if count == 0 {
        return None;
    }
    numbers.nth(word as usize % count)
}

/// The numbers of a set without that of a name, if the row has the name.
pub(crate) fn others_than(row: &[Name], numbers: &BitSet, name: &Name) -> BitSet
    requires few { length row.now ≤ MAX_OTHERS }
    requires rises { Rises name_cmp row.now }
    requires numbers { IsPart row.now (entries_in numbers.now row.now) numbers.now }
    ensures others { entries_in result row.now ≡ without name.now (entries_in numbers.now row.now) }
    ensures numbers { AreOfRow result row.now }
{
    let mut others = *numbers;
    if let Ok(at) = index_of(row, name) {
        others.remove(at as u8);
    }
    others
}

/// Picks one of the names left by a random word, if any is left, and takes its number out. Writes the number to
/// `index`.
fn pick_one(row: &[Name], left: &mut BitSet, word: u32, index: &mut u8) -> Option<Name>
    requires { AreOfRow left.old row.now }
    ensures picked { result ≡ candidate word (entries_in left.old row.now) }
    ensures left { entries_in left.new row.now ≡ left_by word (entries_in left.old row.now) }
    ensures numbers { AreOfRow left.new row.now }
{
    let number = number_by(left, word)?;
    left.remove(number);
    *index = number;
    Some(row[usize::from(number)])
}

/// Adds the name that was picked, if one was.
fn push_picked(names: &mut ArrayVec<Name, RANDOM_WORDS>, name: Option<Name>)
    requires { array_vec_len names.old < RANDOM_WORDS }
    ensures { names.new.items ≡ names.old.items ++ option_to_list name }
{
    if let Some(name) = name {
        names.push(name);
    }
}

/// Picks one of the names left by each word, as long as any is left. They replace what `picked` held. At the index of
/// each, `indexes` gets its number.
pub(crate) fn pick_all(
    row: &[Name],
    mut left: BitSet,
    words: &[u32],
    picked: &mut ArrayVec<Name, RANDOM_WORDS>,
    indexes: &mut [u8; RANDOM_WORDS],
)
    requires numbers { AreOfRow left row.now }
    requires words { length words.now ≤ RANDOM_WORDS }
    ensures { picked.new.items ≡ picked_by words.now (entries_in left row.now) }
{
    picked.clear();
    for word in words {
        let count = picked.len();
        let mut index = 0;
        push_picked(picked, pick_one(row, &mut left, *word, &mut index));
        indexes[count] = index;
    }
}
