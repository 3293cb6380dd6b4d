//! The records of the other members as a row: finding one, and what a claim does to them.
//!
//! Defined in: `specs/Meaning/Table.antt`, `specs/Meaning/Rows.antt`.
//! Tested in: `lg_parts_tests/src/rules.rt`.
ghost use Rattle.std.specs.Prelude.{◌≡◌, ◌<◌, ◌&&◌, Bool, length, map, remove, option_copied, Some};
ghost use Rattle.lg_rules.specs.Meaning.Claim.{is_gone, name_of};
ghost use Rattle.lg_rules.specs.Meaning.Rows.{name_cmp, put_row, row_at, Rises};
ghost use Rattle.lg_rules.specs.Support.Members.{live_weight};
ghost use Rattle.lg_rules.specs.Support.Places.{HasRow, LacksRow};
ghost use Rattle.lg_rules.specs.Meaning.Table.{heard, hearing_of, live_in, standing_hearing};

use crate::claim::{Claim, Record, Status};
use crate::members::{Heard, MAX_OTHERS};
use crate::name::Name;
use crate::overriding::beats;
use crate::rows::index_in_rows;
use lg_rows::Rows;

/// The record of the member with this name, if there is one.
pub(crate) fn find_record<'a>(
    records: &'a Rows<Record, MAX_OTHERS>,
    name: &Name,
) -> Option<&'a Record>
    requires { Rises name_cmp (map name_of records.now.items) }
    ensures { option_copied result ≡ row_at name_cmp name_of name.now records.now.items }
{
    match index_in_rows(records, name) {
        Ok(at) => Some(&records[at]),
        Err(_) => None,
    }
}

/// What hearing a claim does that doesn't override the current record of its member.
fn standing_hearing(claim: &Claim, current: &Record) -> Heard
    ensures { (forgets : Bool) → result ≡ standing_hearing forgets claim.now (Some current.now) }
{
    if claim.incarnation != current.incarnation {
        return Heard::Ignored;
    }
    match (claim.status, current.status) {
        (Status::Alive, Status::Alive)
        | (Status::Failed, Status::Failed)
        | (Status::Left, Status::Left) => Heard::Same,
        (Status::Suspect(_), Status::Suspect(_)) => Heard::Accused,
        _ => Heard::Ignored,
    }
}

/// What a record adds to the number of members that aren't gone.
fn weight(status: Status) -> usize
    ensures { result ≡ live_weight status }
{
    if status.is_gone() { 0 } else { 1 }
}

/// Replaces the record at an index by a claim that overrides it, and updates the number of members that aren't gone.
fn replace(records: &mut Rows<Record, MAX_OTHERS>, live: &mut usize, at: usize, claim: &Claim)
    requires has { HasRow name_cmp name_of claim.now.name records.old.items at }
    requires counted { live.old ≡ live_in records.old.items }
    ensures rows { records.new.items ≡ put_row name_cmp name_of claim.now records.old.items }
    ensures counted { live.new ≡ live_in records.new.items }
{
    // The checker learns here that there are at most 255 records.
    let _ = records.len();
    *live -= weight(records[at].status);
    *live += weight(claim.status);
    records[at] = *claim;
}

/// Inserts a claim about an unknown member at its index, and updates the number of members that aren't gone.
pub(crate) fn add(
    records: &mut Rows<Record, MAX_OTHERS>,
    live: &mut usize,
    at: usize,
    claim: &Claim,
)
    requires lacks { LacksRow name_cmp name_of claim.now.name records.old.items at }
    requires room { length records.old.items < MAX_OTHERS }
    requires counted { live.old ≡ live_in records.old.items }
    ensures rows { records.new.items ≡ put_row name_cmp name_of claim.now records.old.items }
    ensures counted { live.new ≡ live_in records.new.items }
{
    *live += weight(claim.status);
    records.insert(at, *claim);
}

/// Removes the record at an index, and updates the number of members that aren't gone.
pub(crate) fn take_out(records: &mut Rows<Record, MAX_OTHERS>, live: &mut usize, at: usize)
    requires within { at < length records.old.items }
    requires counted { live.old ≡ live_in records.old.items }
    ensures rows { records.new.items ≡ remove records.old.items at }
    ensures counted { live.new ≡ live_in records.new.items }
{
    *live -= weight(records[at].status);
    records.remove(at);
}

/// Whether a claim with this status doesn't let an unknown member in: it says that the member is gone, and this member
/// forgets.
pub(crate) fn is_unwelcome(forgets: bool, status: Status) -> bool
    ensures { result ≡ (forgets && is_gone status) }
{
    forgets && status.is_gone()
}

/// Hears a claim about a member whose record is at an index, and updates the number of members that aren't gone.
#[tactic(auto, unfolding(crate::specs::Meaning::Table::takes))]
pub(crate) fn hear_known(
    records: &mut Rows<Record, MAX_OTHERS>,
    live: &mut usize,
    at: usize,
    claim: &Claim,
) -> Heard
    requires has { HasRow name_cmp name_of claim.now.name records.old.items at }
    requires counted { live.old ≡ live_in records.old.items }
    ensures hearing { (forgets : Bool) → result ≡ hearing_of forgets records.old.items claim.now }
    ensures table { (forgets : Bool) → records.new.items ≡ heard forgets records.old.items claim.now }
    ensures names { map name_of records.new.items ≡ map name_of records.old.items }
    ensures counted { live.new ≡ live_in records.new.items }
{
    if beats(claim, &records[at]) {
        replace(records, live, at, claim);
        Heard::Overrode
    } else {
        standing_hearing(claim, &records[at])
    }
}
