//! One look of a site, and what came of it.
//!
//! Defined in: `specs/Meaning/Shown.antt`, `specs/Support/Showing.antt`.
//! Tested in: `lg_answers_tests/src/showing.rt`.
ghost use Rattle.std.specs.Prelude.{ℕ, List, length};
ghost use Rattle.lg_detector.specs.declared.event.Event.{Event as Happened};
ghost use Rattle.lg_view.specs.Meaning.Views.{IsOverview};
ghost use Rattle.lg_status_server.specs.Meaning.Shown.{ShowsEvents};
ghost use Rattle.lg_status_server.specs.Support.Showing.{KeepsOn, LooksAs, SameReading};

use lg_agent::{AgentName, Overview, Pass};
use lg_answers::{Changes, Snapshot};
use std::alloc::Global;

/// What came of a look of a site.
#[derive(Clone, Copy, Debug, PartialEq, Eq)]
pub(crate) enum Looked {
    /// There are as many events as are shown, so nothing changed.
    Same,
    /// There were events that weren't shown yet, and now they are.
    Taken,
    /// It was refused: what is shown stays as it is.
    Refused,
}

/// Puts what a look found into a snapshot, and its changes behind those that are kept. The look was asked for the
/// changes behind these.
pub(crate) fn show(snapshot: &mut Snapshot, changes: &mut Changes, found: Overview)
    ensures shown { (version : ℕ) → (events : List Happened) → IsOverview found version events
        → ShowsEvents snapshot.new events }
    ensures same { SameReading snapshot.old snapshot.new }
    ensures kept { (shown events : List Happened) → IsOverview found (length shown) events
        → KeepsOn changes.old changes.new shown events }
{
    changes.catch_up(found.changes);
    snapshot.version = found.version;
    snapshot.records = found.records;
    snapshot.score = found.standing.score;
    snapshot.incarnation = found.standing.number;
    snapshot.ousted = found.standing.ousted;
}

/// Shows what a look finds. If it is refused, what is shown stays as it is.
fn take_in<A: AgentName>(
    pass: &mut Pass<'_, A>,
    alloc: Global,
    snapshot: &mut Snapshot,
    changes: &mut Changes,
) -> Looked
    ensures { LooksAs result pass.old pass.new snapshot.old snapshot.new changes.old changes.new }
{
    match pass.overview(alloc, snapshot.version) {
        Ok(found) => {
            show(snapshot, changes, found);
            Looked::Taken
        }
        Err(_) => Looked::Refused,
    }
}

/// Shows what a look finds, if there are events that weren't shown yet. Only then memory is allocated, for 256 records
/// and for a copy of the changes behind those that are kept.
pub(crate) fn look<A: AgentName>(
    pass: &mut Pass<'_, A>,
    alloc: Global,
    snapshot: &mut Snapshot,
    changes: &mut Changes,
) -> Looked
    ensures { LooksAs result pass.old pass.new snapshot.old snapshot.new changes.old changes.new }
{
    match pass.version() {
        Ok(version) if version == snapshot.version => Looked::Same,
        Ok(_) => take_in(pass, alloc, snapshot, changes),
        Err(_) => Looked::Refused,
    }
}
