//! The slots that are in use, in the order of their timers' ids: finding a timer by its id.
//!
//! Defined in: `specs/Support/Slots.antt`.
//! Tested in: `lg_parts_tests/src/timers.rt`.
ghost use Rattle.std.specs.Prelude.{◌<◌, MatchResult, length, map};
ghost use Rattle.std.specs.List.{All};
ghost use Rattle.lg_rules.specs.Meaning.Rows.{name_cmp, Rises};
ghost use Rattle.lg_timers.specs.Support.Slots.{slot_key, HasSlot, LacksSlot};

use crate::timer::{Timer, TimerId};
use std::cmp::Ordering;

/// `Ok` with the index of the slot whose timer has this id, or else `Err` with the index at which such a slot would be
/// inserted. Found by halving the row.
pub(crate) fn index_of(by_id: &[u16], timers: &[Timer], id: &TimerId) -> Result<usize, usize>
    requires within { All (λ slot. slot < length timers.now) by_id.now }
    requires rises { Rises name_cmp (map (slot_key timers.now) by_id.now) }
    ensures { let has = HasSlot timers.now id.now by_id.now in
        let lacks = LacksSlot timers.now id.now by_id.now in
        MatchResult result has lacks }
{
    let mut low = 0;
    let mut high = by_id.len();
    while low < high {
        let middle = low + (high - low) / 2;
        match timers[usize::from(by_id[middle])].id.compare(id) {
            Ordering::Less => low = middle + 1,
            Ordering::Equal => return Ok(middle),
            Ordering::Greater => high = middle,
        }
    }
    Err(low)
}
