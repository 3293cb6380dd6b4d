//! What C reads of a detector without an event.
//!
//! Defined in: `specs/Support/Calling.antt`, `specs/Meaning/Calls.antt`.
ghost use Rattle.std.specs.Prelude.{◌≡◌, None};
ghost use Rattle.lg_c.specs.Support.Calling.{IsNext, Lists, ListsHeld, TellsNext};

use crate::handle::LgDetector;
use crate::reply::{c_records, put};
use crate::status::{CLOSED, NO_ROOM, OK};
use arrayvec::ArrayVec;
use lg_c_values::LgRecord;
use lg_detector::{Detector, MAX_MEMBERS};
use std::alloc::Global;
use std::mem;

/// Writes the table of a detector over the first places of some records, if they are as many.
fn put_table(detector: &Detector, records: &mut [LgRecord], count: &mut u64) -> u32
    ensures { Lists detector.now records.old result records.new count.new }
{
    let mut table = ArrayVec::new();
    detector.put_table(&mut table);
    *count = table.len() as u64;
    if records.len() < table.len() {
        return NO_ROOM;
    }
    let row = c_records::<MAX_MEMBERS>(&table);
    let _ = put(&row, records);
    OK
}

/// Writes the table of the detector that C holds.
pub(crate) fn list(
    alloc: Global,
    detector: &mut LgDetector,
    records: &mut [LgRecord],
    count: &mut u64,
) -> u32
    ensures { ListsHeld detector.old.kept.value detector.new.kept.value records.old count.old result records.new
        count.new }
{
    let taken = mem::replace(detector, LgDetector::closed());
    let Some(held) = taken.take(alloc) else {
        return CLOSED;
    };
    let status = put_table(&held, records, count);
    *detector = LgDetector::of(held);
    status
}

/// The least deadline, or 0 if no timer is set.
fn next_of(detector: &Detector) -> u64
    ensures { IsNext detector.now result }
{
    match detector.next_deadline() {
        Some(deadline) => deadline,
        None => 0,
    }
}

/// Writes the least deadline of the detector that C holds.
pub(crate) fn next(alloc: Global, detector: &mut LgDetector, next: &mut u64) -> u32
    ensures { TellsNext detector.old.kept.value detector.new.kept.value next.old result next.new }
{
    let taken = mem::replace(detector, LgDetector::closed());
    let Some(held) = taken.take(alloc) else {
        return CLOSED;
    };
    *next = next_of(&held);
    *detector = LgDetector::of(held);
    OK
}

/// Closes the detector that C holds, and frees it.
pub(crate) fn close(alloc: Global, detector: &mut LgDetector)
    ensures { detector.new.kept.value ≡ None }
{
    let taken = mem::replace(detector, LgDetector::closed());
    drop(taken.take(alloc));
}
