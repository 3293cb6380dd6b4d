//! Entries that are stored and read back.
use super::rows::{Row, all, opening, ping, question};
use crate::comparing::is_same_event;
use lg_detector_testing::is_same_reply;
use lg_history::{Entry, History};
use std::alloc::Global;

/// Whether an entry has this seat and what a row has.
fn is_of(entry: &Entry, seat: usize, row: &Row) -> bool {
    entry.seat() == seat
        && is_same_event(&entry.event(), &row.event)
        && is_same_reply(&entry.reply(), &row.reply)
        && entry.chosen() == row.chosen
}

/// Prepares the event of a row. Returns whether that succeeded, and no entry was added.
fn is_prepared(history: &mut History, alloc: Global, seat: usize, row: &Row) -> bool {
    let before = history.len();
    history.prepare(alloc, seat, &row.event).is_ok() && history.len() == before
}

/// Adds the entry of a row, and reads it back. Returns whether it is the last entry, and one more than before.
fn is_added(history: &mut History, alloc: Global, seat: usize, row: &Row) -> bool {
    let count = history.len().checked_add(1);
    let prepared = is_prepared(history, alloc, seat, row);
    history.complete(alloc, &row.reply);
    let last = history.entries().last();
    prepared && count == Some(history.len()) && last.is_some_and(|entry| is_of(entry, seat, row))
}

#[test]
fn reads_back_what_was_stored(rt: HostRuntime) {
    let rows = all();
    let mut history = History::new(rt.alloc());
    let mut added = true;
    for (seat, row) in rows.iter().enumerate() {
        added = is_added(&mut history, rt.alloc(), seat, row) && added;
    }
    let entries = history.into_entries();
    let same = entries
        .iter()
        .zip(rows.iter())
        .enumerate()
        .all(|(seat, (entry, row))| is_of(entry, seat, row));
    assert!(rt; added && same && entries.len() == rows.len());
}

#[test]
fn withdraws_what_was_prepared(rt: HostRuntime) {
    let alloc = rt.alloc();
    let mut history = History::new(alloc);
    let mut added = is_added(&mut history, alloc, 0, &opening());
    added = is_prepared(&mut history, alloc, 1, &ping()) && added;
    history.withdraw();
    history.complete(alloc, &ping().reply);
    added = history.len() == 1 && added;
    added = is_added(&mut history, alloc, 2, &question()) && added;
    assert!(rt; added && history.len() == 2);
}
