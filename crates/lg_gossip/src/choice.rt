//! Which claims of the queue a packet takes.
//!
//! Defined in: `specs/Meaning/Queue.antt`.
//! Tested in: `lg_parts_tests/src/gossip.rt`.
ghost use Rattle.std.specs.Prelude.{◌≡◌, ◌≤◌, ◌<◌, ◌+◌};
ghost use Rattle.std.specs.Prelude.{◌++◌, ◌∷◌, [], ℕ, List, not, length, map, take, insert};
ghost use Rattle.std.specs.Prelude.{if◌then◌else◌, nat_eq, nat_le, nat_lt, option_copied, slice_index_or};
ghost use Rattle.std.specs.List.{AllByRecursion, prefix_len};
ghost use Rattle.std.specs.Option.{option_to_list};
ghost use Rattle.arrayvec.specs.ArrayVec.{array_vec_len};
ghost use Rattle.lg_gossip.specs.declared.queued.Queued.{Queued as Row};
ghost use Rattle.lg_gossip.specs.Meaning.Queue.{buddy_of, is_beside, queued_claim, room_beside, rows_taken, sent_once};
ghost use Rattle.lg_gossip.specs.Support.Sound.{AreInOrder, AreSent};
ghost use Rattle.lg_gossip.specs.Support.Places.{HasTaken, IsRowOf, rows_at};
ghost use Rattle.lg_gossip.specs.Support.Sets.{AreSets, places_of};

use crate::limit::MAX_TIMES_SENT;
use crate::queue::MAX_QUEUED;
use crate::queued::Queued;
use crate::sets::{SETS, move_row, without};
use arrayvec::ArrayVec;
use lg_bit_set::BitSet;
use lg_rows::Rows;
use lg_rules::{Claim, MAX_CLAIMS, Record, Status, Version, index_in_rows};

/// A row that a packet takes.
#[derive(Clone, Copy, Default)]
pub(crate) struct TakenRow {
    /// Its index among the rows of the queue, from 0.
    index: usize,
    /// How often it was sent before.
    sends: u32,
}

/// The buddy of a packet: the record that is to stand first, if there is one and the version can tell its address.
pub(crate) fn buddy_of(version: Version, first: Option<&Record>) -> Option<&Claim>
    ensures { option_copied result ≡ buddy_of version (option_copied first.entry) }
{
    match first {
        Some(record) if version.tells(&record.addr) => Some(record),
        _ => None,
    }
}

/// How many claims of the queue a packet of a version can hold beside its buddy.
fn room_beside(version: Version, buddy: Option<&Claim>) -> usize
    ensures room { result ≡ room_beside version (option_copied buddy.entry) }
    ensures some { 0 < result }
    ensures most { result ≤ MAX_CLAIMS }
{
    match buddy {
        Some(_) => version.most_claims() - 1,
        None => version.most_claims(),
    }
}

/// The index of the row about the buddy's member, or the number of rows if there is no such row.
fn index_of_buddy(rows: &Rows<Queued, MAX_QUEUED>, buddy: Option<&Claim>) -> usize
    requires { AreInOrder rows.now.items }
    ensures { (k : ℕ) (d : Row) → k < length rows.now.items
        → is_beside (option_copied buddy.entry) (slice_index_or rows.now.items k d) ≡ not (nat_eq k result) }
{
    match buddy {
        Some(buddy) => match index_in_rows(rows, &buddy.name) {
            Ok(index) => index,
            Err(_) => rows.len(),
        },
        None => rows.len(),
    }
}

/// How many rows there are before the first that was sent more than `sends` times.
fn index_after(rows: &[TakenRow], sends: u32) -> usize
    ensures index { result ≡ prefix_len (λ r. nat_le r.sends sends) rows.now }
    ensures within { result ≤ length rows.now }
{
    rows.iter().take_while(|row| row.sends <= sends).count()
}

/// Inserts a row after those that were sent as often or less often, if it is then among the first `room` rows.
/// Returns the new bound: no later row that was sent that often, or more often, can be among the first. `bound` is
/// the bound by the rows before this one.
// Most rows aren't taken, and the loop over them is shorter if this isn't inlined.
#[inline(never)]
fn take_row(
    first: &mut ArrayVec<TakenRow, MAX_CLAIMS>,
    row: TakenRow,
    room: usize,
    bound: u64,
) -> u64
    requires some { 0 < room }
    requires most { room ≤ MAX_CLAIMS }
    requires fits { array_vec_len first.old ≤ room }
    ensures bound { let index = prefix_len (λ r. nat_le r.sends row.sends) first.old.items in
        result ≡ if nat_lt index room then bound else row.sends }
    ensures rows { let index = prefix_len (λ r. nat_le r.sends row.sends) first.old.items in
        first.new.items ≡ take room (insert first.old.items index row) }
{
    let index = index_after(first.as_slice(), row.sends);
    if index < room {
        first.truncate(room - 1);
        first.insert(index, row);
        bound
    } else {
        u64::from(row.sends)
    }
}

/// Takes rows of a set, those at the lowest indexes, until `room` rows are taken. Each of them was sent `sends` times.
fn take_sent(taken: &mut ArrayVec<TakenRow, MAX_CLAIMS>, set: &BitSet, sends: u32, room: usize)
    requires most { room ≤ MAX_CLAIMS }
    requires fits { array_vec_len taken.old ≤ room }
    ensures { taken.new.items ≡ take room (taken.old.items ++ places_of sends set.now) }
{
    let mut rest = *set;
    'rows: for _ in 0..room - taken.len() {
        let Some(number) = rest.pop_first() else {
            return;
        };
        let index = usize::from(number);
        taken.push(TakenRow { index, sends });
    }
}

/// The rows that a packet takes beside its buddy, by one set of rows after another. There is a set for each number of
/// sends below the limit. The rows have to be in the order of their names, and none was sent less often than `fewest`.
fn rows_by_sets(
    rows: &Rows<Queued, MAX_QUEUED>,
    sent: &[BitSet; SETS],
    version: Version,
    buddy: Option<&Claim>,
    limit: u64,
    fewest: u64,
) -> ArrayVec<TakenRow, MAX_CLAIMS>
    requires order { AreInOrder rows.now.items }
    requires least { AreSent fewest rows.now.items }
    requires most { length rows.now.items ≤ MAX_QUEUED }
    requires sets { AreSets sent.now rows.now.items }
    requires rises { fewest ≤ limit }
    requires few { limit ≤ SETS }
    ensures taken { HasTaken version (option_copied buddy.entry) limit rows.now.items result.items }
    ensures few { array_vec_len result ≤ room_beside version (option_copied buddy.entry) }
{
    let room = room_beside(version, buddy);
    let passed_over = index_of_buddy(rows, buddy);
    let mut taken = ArrayVec::new();
    for sends in fewest as u32..limit as u32 {
        let set = without(&sent[sends as usize], passed_over);
        take_sent(&mut taken, &set, sends, room);
        if taken.len() == room {
            break;
        }
    }
    taken
}

/// The rows that a packet takes beside its buddy, by a walk over all rows. These have to be in the order of their
/// names.
fn rows_by_walk(
    rows: &Rows<Queued, MAX_QUEUED>,
    version: Version,
    buddy: Option<&Claim>,
    limit: u64,
) -> ArrayVec<TakenRow, MAX_CLAIMS>
    requires { AreInOrder rows.now.items }
    ensures taken { HasTaken version (option_copied buddy.entry) limit rows.now.items result.items }
    ensures few { array_vec_len result ≤ room_beside version (option_copied buddy.entry) }
{
    let mut first = ArrayVec::new();
    let room = room_beside(version, buddy);
    let passed_over = index_of_buddy(rows, buddy);
    // No row that was sent this often, or more often, is among the first.
    let mut bound = limit;
    for index in 0..rows.len() {
        let sends = rows[index].sends;
        if u64::from(sends) < bound && index != passed_over {
            bound = take_row(&mut first, TakenRow { index, sends }, room, bound);
        }
    }
    first
}

/// The rows that a packet takes beside its buddy: of those below the retransmit limit, the first by their sends and
/// then by their names. The rows have to be in the order of their names, and none was sent less often than `fewest`.
pub(crate) fn rows_taken(
    rows: &Rows<Queued, MAX_QUEUED>,
    sent: &[BitSet; SETS],
    version: Version,
    buddy: Option<&Claim>,
    limit: u64,
    fewest: u64,
) -> ArrayVec<TakenRow, MAX_CLAIMS>
    requires order { AreInOrder rows.now.items }
    requires least { AreSent fewest rows.now.items }
    requires most { length rows.now.items ≤ MAX_QUEUED }
    requires sets { AreSets sent.now rows.now.items }
    ensures taken { HasTaken version (option_copied buddy.entry) limit rows.now.items result.items }
    ensures few { array_vec_len result ≤ room_beside version (option_copied buddy.entry) }
{
    if limit <= fewest {
        // Mostly no row may be sent any more, and then none is looked at.
        ArrayVec::new()
    } else if limit <= SETS as u64 {
        rows_by_sets(rows, sent, version, buddy, limit, fewest)
    } else {
        // No group of up to 256 members has such a limit, but a caller may count more.
        rows_by_walk(rows, version, buddy, limit)
    }
}

/// Adds a claim to those that are there.
#[inline]
fn push_claim(claims: &mut ArrayVec<Claim, MAX_CLAIMS>, claim: &Claim)
    requires { array_vec_len claims.old < MAX_CLAIMS }
    ensures items { claims.new.items ≡ claims.old.items ++ claim.now ∷ [] }
    ensures len { array_vec_len claims.new ≡ array_vec_len claims.old + 1 }
{
    // Its status is named, since the checker doesn't follow the whole claim into a generic call otherwise.
    let _status: Status = claim.status;
    claims.push(*claim);
}

/// Adds the claims of some rows to those that are there.
fn push_claims(
    claims: &mut ArrayVec<Claim, MAX_CLAIMS>,
    rows: &Rows<Queued, MAX_QUEUED>,
    taken: &[TakenRow],
)
    requires places { AllByRecursion (IsRowOf rows.now.items) taken.now }
    requires room { array_vec_len claims.old + length taken.now ≤ MAX_CLAIMS }
    ensures { claims.new.items ≡ claims.old.items ++ map queued_claim (rows_at rows.now.items taken.now) }
{
    for row in taken {
        push_claim(claims, &rows[row.index].claim);
    }
}

/// Writes the claims of a packet: its buddy, if it has one, and those that it takes from the queue.
pub(crate) fn write_claims(
    claims: &mut ArrayVec<Claim, MAX_CLAIMS>,
    buddy: Option<&Claim>,
    rows: &Rows<Queued, MAX_QUEUED>,
    taken: &[TakenRow],
)
    requires places { AllByRecursion (IsRowOf rows.now.items) taken.now }
    requires room { length (option_to_list (option_copied buddy)) + length taken.now ≤ MAX_CLAIMS }
    ensures { claims.new.items
        ≡ option_to_list (option_copied buddy.entry) ++ map queued_claim (rows_at rows.now.items taken.now) }
{
    claims.clear();
    if let Some(buddy) = buddy {
        push_claim(claims, buddy);
    }
    push_claims(claims, rows, taken);
}

/// Counts one more send for each row that a packet takes, and moves it to the next set.
pub(crate) fn count_sends(
    rows: &mut Rows<Queued, MAX_QUEUED>,
    sent: &mut [BitSet; SETS],
    taken: &[TakenRow],
)
    requires order { AreInOrder rows.old.items }
    requires most { length rows.old.items ≤ MAX_QUEUED }
    requires few { AllByRecursion (λ r. r.sends ≤ MAX_TIMES_SENT) rows.old.items }
    requires places { AllByRecursion (IsRowOf rows.old.items) taken.now }
    requires sets { AreSets sent.old rows.old.items }
    ensures sends { rows.new.items
        ≡ map (sent_once (map queued_claim (rows_at rows.old.items taken.now))) rows.old.items }
    ensures sets { AreSets sent.new rows.new.items }
{
    for row in taken {
        let sends = row.sends as usize;
        rows[row.index].sends = row.sends + 1;
        move_row(sent, row.index as u8, sends, sends + 1);
    }
}

/// How often each row was sent at least, once a packet took some of them. `fewest` is how often each was sent at least
/// before. It isn't the greatest such number, which only a pass over all rows would find.
pub(crate) fn fewest_after(
    taken: &[TakenRow],
    version: Version,
    buddy: Option<&Claim>,
    limit: u64,
    fewest: u64,
) -> u64
    ensures { (rows : List Row) → AreInOrder rows → HasTaken version (option_copied buddy.entry) limit rows taken.now
        → AreSent fewest rows
        → AreSent result
        (map (sent_once (map queued_claim (rows_taken version (option_copied buddy.entry) limit rows))) rows) }
{
    // Of the row about a buddy's member nothing more is known. And with such a limit no row was taken.
    if buddy.is_some() || limit <= fewest {
        return fewest;
    }
    // Each row that was taken has one more. If there was no room for further ones, the others were sent as often as the
    // last that was taken, or more often. Else they were sent as often as the limit, or more often.
    let room = version.most_claims();
    match taken {
        [] => limit,
        [first, .., last] if taken.len() == room => {
            u64::from(last.sends).min(u64::from(first.sends) + 1)
        }
        [first, ..] => u64::from(first.sends) + 1,
    }
}
