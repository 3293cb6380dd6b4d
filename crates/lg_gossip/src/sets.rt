//! The rows of the queue by how often they were sent: a set of indexes for each number of sends.
//!
//! Defined in: `specs/Support/Sets.antt`.
//! Tested in: `lg_parts_tests/src/gossip.rt`.
ghost use Rattle.std.specs.Prelude.{◌≡◌, ◌≢◌, ◌≤◌, ◌<◌, ◌+◌, ℕ, List, [], Bool, true, false, length, Some};
ghost use Rattle.std.specs.Prelude.{None, slice_get, slice_index_or, slice_set, insert, remove};
ghost use Rattle.lg_bit_set.specs.Meaning.Flags.{opened_flags, closed_flags};
ghost use Rattle.lg_gossip.specs.declared.queued.Queued.{Queued as Row};
ghost use Rattle.lg_rules.specs.Meaning.Rows.{name_cmp, put_row, row_at};
ghost use Rattle.lg_gossip.specs.Meaning.Queue.{fresh, queued_name};
ghost use Rattle.lg_gossip.specs.Support.Sets.{AreSets};
ghost use Rattle.lg_gossip.specs.Support.Sound.{AreBelow, AreInOrder};

use crate::queue::MAX_QUEUED;
use crate::queued::Queued;
use lg_bit_set::{BitSet, NUMBERS};
use lg_rows::Rows;
use lg_rules::{Claim, MAX_LAMBDA, Version, index_in_rows};

/// How many sets of rows there are: 30, the greatest retransmit limit of a group of up to 256 members, whose number has
/// three digits (this project's choice). Each set has the indexes of the rows that were sent exactly as often as its
/// own index says. A row that was sent 30 times or more is in no set.
pub(crate) const SETS: usize = 3 * MAX_LAMBDA as usize;

/// How many sets may have rows, once a packet took rows that were sent fewer times than a limit. `used` is how many may
/// have rows before.
pub(crate) fn used_after(used: usize, limit: u64) -> usize
    requires { used ≤ SETS }
    ensures rises { used ≤ result }
    ensures most { result ≤ SETS }
    ensures enough { (n : ℕ) → n ≤ limit → n < SETS → n < result }
    ensures least { used < result → result ≤ limit + 1 }
{
    if limit < SETS as u64 {
        used.max(limit as usize + 1)
    } else {
        SETS
    }
}

/// Takes all rows out of the sets.
pub(crate) fn clear_sets(sent: &mut [BitSet; SETS])
    ensures { (rows : List Row) → AreSets sent.old rows → AreSets sent.new [] }
{
    for sends in 0..SETS {
        sent[sends].clear();
    }
}

/// A set without an index, which may be any number.
pub(crate) fn without(set: &BitSet, index: usize) -> BitSet
    requires { length set.now ≤ NUMBERS }
    ensures { result ≡ slice_set set.now index false }
{
    let mut rest = *set;
    if index < NUMBERS {
        rest.remove(index as u8);
    }
    rest
}

/// Takes an index out of the set of the rows that were sent so often, if there is such a set.
fn take_out(sent: &mut [BitSet; SETS], sends: usize, index: u8)
    ensures { sent.new ≡ slice_set sent.old sends (slice_set (slice_index_or sent.old sends []) index false) }
{
    if sends < SETS {
        sent[sends].remove(index);
    }
}

/// Adds an index to the set of the rows that were sent so often, if there is such a set.
fn add_to(sent: &mut [BitSet; SETS], sends: usize, index: u8)
    ensures { sent.new ≡ slice_set sent.old sends (slice_set (slice_index_or sent.old sends []) index true) }
{
    if sends < SETS {
        sent[sends].insert(index);
    }
}

/// Moves the row at an index to the set of the rows that were sent `to` times. It was sent `from` times, or was moved
/// there already.
pub(crate) fn move_row(sent: &mut [BitSet; SETS], index: u8, from: usize, to: usize)
    ensures { (rows : List Row) (row next : Row) → AreSets sent.old rows → slice_get rows index ≡ Some row
        → (row.sends ≢ from → row.sends ≡ to) → next.sends ≡ to → AreSets sent.new (slice_set rows index next) }
{
    take_out(sent, from, index);
    add_to(sent, to, index);
}

/// Opens the place of an index in each of the first `used` sets.
fn open_sets(sent: &mut [BitSet; SETS], used: usize, index: u8)
    requires { used ≤ SETS }
    ensures size { length sent.new ≡ length sent.old }
    ensures flags { (sends : ℕ) (d : List Bool) → sends < used
        → slice_index_or sent.new sends d ≡ opened_flags index (slice_index_or sent.old sends d) }
    ensures others { (sends : ℕ) (d : List Bool) → used ≤ sends
        → slice_index_or sent.new sends d ≡ slice_index_or sent.old sends d }
{
    for sends in 0..used {
        sent[sends].open(index);
    }
}

/// Makes room for a new row at an index, which was sent so often. Only the first `used` sets have rows.
fn open_row(sent: &mut [BitSet; SETS], used: usize, index: u8, sends: usize)
    requires { used ≤ SETS }
    ensures { (rows : List Row) (row : Row) → AreSets sent.old rows → AreBelow used rows
        → (row.sends < SETS → row.sends < used) → length rows < MAX_QUEUED → index ≤ length rows → row.sends ≡ sends
        → AreSets sent.new (insert rows index row) }
{
    open_sets(sent, used, index);
    add_to(sent, sends, index);
}

/// Takes the place of an index away from each set. Only the first `used` sets have rows.
pub(crate) fn close_row(sent: &mut [BitSet; SETS], used: usize, index: u8)
    requires { used ≤ SETS }
    ensures { (rows : List Row) → AreSets sent.old rows → AreBelow used rows → length rows ≤ MAX_QUEUED
        → index < length rows → AreSets sent.new (remove rows index) }
{
    for sends in 0..used {
        sent[sends].close(index);
    }
}

/// Puts a claim that no packet has taken yet among the rows, which have to be in the order of their names: replaces the
/// row about its member, or inserts one if there is none. Only the first `used` sets have rows.
pub(crate) fn put_fresh(
    rows: &mut Rows<Queued, MAX_QUEUED>,
    sent: &mut [BitSet; SETS],
    used: usize,
    version: Version,
    claim: Claim,
)
    requires room { (row_at name_cmp queued_name claim.name rows.old.items ≡ None)
        → length rows.old.items < MAX_QUEUED }
    requires few { length rows.old.items ≤ MAX_QUEUED }
    requires order { AreInOrder rows.old.items }
    requires some { 0 < used }
    requires enough { used ≤ SETS }
    requires below { AreBelow used rows.old.items }
    requires sets { AreSets sent.old rows.old.items }
    ensures rows { rows.new.items ≡ put_row name_cmp queued_name (fresh version claim) rows.old.items }
    ensures few { length rows.new.items ≤ MAX_QUEUED }
    ensures sets { AreSets sent.new rows.new.items }
{
    let row = Queued::fresh(version, claim);
    let sends = row.sends as usize;
    match index_in_rows(rows, &claim.name) {
        Ok(index) => {
            let before = rows[index].sends as usize;
            rows[index] = row;
            move_row(sent, index as u8, before, sends);
        }
        Err(index) => {
            rows.insert(index, row);
            open_row(sent, used, index as u8, sends);
        }
    }
}
