//! Whether rows of the queue are below the retransmit limit.
//!
//! Defined in: `specs/Meaning/Queue.antt`.
//! Tested in: `lg_parts_tests/src/gossip.rt`.
ghost use Rattle.std.specs.Prelude.{◌≡◌, ◌≤◌, List, nat_lt};
ghost use Rattle.std.specs.List.{list_any};
ghost use Rattle.lg_gossip.specs.declared.queued.Queued.{Queued as Row};
ghost use Rattle.lg_gossip.specs.Support.Sets.{AreSets};
ghost use Rattle.lg_gossip.specs.Support.Sound.{AreSent};

use crate::queue::MAX_QUEUED;
use crate::queued::Queued;
use crate::sets::SETS;
use lg_bit_set::BitSet;
use lg_rows::Rows;

/// Whether one of the rows was sent fewer times than the limit, by the sets of rows. None was sent less often than
/// `fewest`.
fn is_in_sets(sent: &[BitSet; SETS], limit: u64, fewest: u64) -> bool
    requires rises { fewest ≤ limit }
    requires few { limit ≤ SETS }
    ensures { (rows : List Row) → AreSets sent.now rows → AreSent fewest rows
        → result ≡ list_any (λ q. nat_lt q.sends limit) rows }
{
    for sends in fewest as usize..limit as usize {
        if !sent[sends].is_empty() {
            return true;
        }
    }
    false
}

/// Whether one of the rows was sent fewer times than the limit, by a walk over all rows.
fn is_in_walk(rows: &Rows<Queued, MAX_QUEUED>, limit: u64) -> bool
    ensures { result ≡ list_any (λ q. nat_lt q.sends limit) rows.now.items }
{
    for index in 0..rows.len() {
        if u64::from(rows[index].sends) < limit {
            return true;
        }
    }
    false
}

/// Whether one of the rows was sent fewer times than the limit. None was sent less often than `fewest`.
pub(crate) fn is_any_below(
    rows: &Rows<Queued, MAX_QUEUED>,
    sent: &[BitSet; SETS],
    limit: u64,
    fewest: u64,
) -> bool
    requires least { AreSent fewest rows.now.items }
    requires sets { AreSets sent.now rows.now.items }
    ensures { result ≡ list_any (λ q. nat_lt q.sends limit) rows.now.items }
{
    if limit <= fewest {
        // Mostly no row may be sent any more, and then none is looked at.
        false
    } else if limit <= SETS as u64 {
        is_in_sets(sent, limit, fewest)
    } else {
        // No group of up to 256 members has such a limit, but a caller may count more.
        is_in_walk(rows, limit)
    }
}
