//! What a reader takes out of the published value while it reads it: an answer, and the front that the answer is of.
//! Each of these functions enters, takes both, and leaves. If the value isn't handed out, there is neither.
//!
//! Defined in: `lg_detector/specs/Meaning/Step.antt`.
//! Tested in: `lg_agent_tests/src/view/looks.rt`.
ghost use Rattle.std.specs.Prelude.{◌≡◌, ◌≤◌, [], IfOk, IfSome};
ghost use Rattle.std.specs.Vec.{vec_capacity};
ghost use Rattle.lg_rules.specs.Meaning.Claim.{name_of};
ghost use Rattle.lg_rules.specs.Meaning.Rows.{name_cmp, row_at};
ghost use Rattle.lg_detector.specs.Meaning.Step.{view_after, deadline_after};
ghost use Rattle.lg_detector.specs.Meaning.Timing.{or_zero};
ghost use Rattle.lg_view.specs.Meaning.Views.{IsOverview};

use super::LookReader;
use crate::book::PairName;
use crate::front::Front;
use crate::overview::Overview;
use crate::published::Published;
use arrayvec::ArrayVec;
use crossbeam_utils::rule::Unruled;
use lg_detector::MAX_MEMBERS;
use lg_rules::{Name, Record};
use std::alloc::{AllocError, Global};

/// The front alone.
pub(super) fn read_front<P: PairName>(
    reader: LookReader<P>,
    _nothing: (),
) -> (LookReader<P>, Option<Front<P>>) {
    match reader.enter_as::<Unruled>() {
        Ok(reading) => {
            let front = reading.get().front().copy();
            (reading.leave(), Some(front))
        }
        Err(reader) => (reader, None),
    }
}

/// The record of a name.
pub(super) fn read_status<P: PairName>(
    reader: LookReader<P>,
    name: Name,
) -> (LookReader<P>, Option<(Option<Record>, Front<P>)>)
    ensures { IfSome result.1 (λ taken. taken.0 ≡ row_at name_cmp name_of name (view_after taken.1)) }
{
    match reader.enter_as::<Unruled>() {
        Ok(reading) => {
            let record = reading.get().status_of(&name);
            let front = reading.get().front().copy();
            (reading.leave(), Some((record, front)))
        }
        Err(reader) => (reader, None),
    }
}

/// The least deadline, or 0 if there is none.
pub(super) fn read_deadline<P: PairName>(
    reader: LookReader<P>,
    _nothing: (),
) -> (LookReader<P>, Option<(u64, Front<P>)>)
    ensures { IfSome result.1 (λ taken. taken.0 ≡ or_zero (deadline_after taken.1)) }
{
    match reader.enter_as::<Unruled>() {
        Ok(reading) => {
            let deadline = reading.get().next_deadline().unwrap_or(0);
            let front = reading.get().front().copy();
            (reading.leave(), Some((deadline, front)))
        }
        Err(reader) => (reader, None),
    }
}

/// What an overview is made with.
#[derive(Drop)]
pub(super) struct OverviewBasis {
    /// From it comes the memory for the changes.
    pub(super) alloc: Global,
    /// An empty list for the records, with enough capacity for them.
    pub(super) records: Vec<Record>,
    /// The version behind which changes are taken.
    pub(super) version: u64,
}

/// An overview, unless memory is refused for its changes.
pub(super) fn read_overview<P: PairName>(
    reader: LookReader<P>,
    basis: OverviewBasis,
) -> (
    LookReader<P>,
    Option<(Result<Overview, AllocError>, Front<P>)>,
)
    requires { (basis.records.items ≡ []) × (MAX_MEMBERS ≤ vec_capacity basis.records) }
    ensures { IfSome result.1 (λ taken. IfOk taken.0 (λ found. IsOverview found basis.version taken.1)) }
{
    match reader.enter_as::<Unruled>() {
        Ok(reading) => {
            let overview = overview_of(reading.get(), basis);
            let front = reading.get().front().copy();
            (reading.leave(), Some((overview, front)))
        }
        Err(reader) => (reader, None),
    }
}

/// An overview of what is published. The only error is that memory was refused for its changes.
fn overview_of<P: PairName>(
    published: &Published<P>,
    basis: OverviewBasis,
) -> Result<Overview, AllocError>
    requires { (basis.records.items ≡ []) × (MAX_MEMBERS ≤ vec_capacity basis.records) }
    ensures { IfOk result (λ found. IsOverview found basis.version published.now) }
{
    let OverviewBasis {
        alloc,
        mut records,
        version,
    } = basis;
    put_records(published, &mut records);
    let changes = published.behind(alloc, version)?;
    Ok(Overview {
        version: published.front().len(),
        moment: published.moment(),
        records,
        standing: published.standing(),
        changes,
    })
}

/// The records of all members, in an empty list that has enough capacity for them.
pub(super) fn read_table<P: PairName>(
    reader: LookReader<P>,
    records: Vec<Record>,
) -> (LookReader<P>, Option<(Vec<Record>, Front<P>)>)
    requires { (records.items ≡ []) × (MAX_MEMBERS ≤ vec_capacity records) }
    ensures { IfSome result.1 (λ taken. taken.0.items ≡ view_after taken.1) }
{
    match reader.enter_as::<Unruled>() {
        Ok(reading) => {
            let mut records = records;
            put_records(reading.get(), &mut records);
            let front = reading.get().front().copy();
            (reading.leave(), Some((records, front)))
        }
        Err(reader) => (reader, None),
    }
}

/// Writes the records of all members into an empty list with enough capacity for them.
fn put_records<P: PairName>(published: &Published<P>, records: &mut Vec<Record>)
    requires { (records.old.items ≡ []) × (MAX_MEMBERS ≤ vec_capacity records.old) }
    ensures { records.new.items ≡ view_after published.now }
{
    let mut row = ArrayVec::new();
    published.put_table(&mut row);
    let count = row.len();
    for index in 0..count {
        records.push_reserved(row[index]);
    }
}
