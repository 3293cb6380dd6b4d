//! What the definitions say before and after the event of an entry.
//!
//! Defined in: `specs/Meaning/Tellings.antt`.
//! Tested in: `lg_explain_tests/src/explaining.rt`.
ghost use Rattle.std.specs.Prelude.{◌≡◌, List, Option};
ghost use Rattle.lg_detector.specs.Support.Step.{state_after};
ghost use Rattle.lg_detector.specs.declared.event.Event.{Event as Happened};
ghost use Rattle.lg_notes.specs.Meaning.Insights.{maybe_insights};
ghost use Rattle.lg_replay.specs.Meaning.Lives.{past_with};
ghost use Rattle.lg_replay.specs.Support.Known.{HoldsPast};
ghost use Rattle.lg_explain.specs.Meaning.Tellings.{insight_after, insights_at};
ghost use Rattle.lg_explain.specs.Support.Insights.{tabled};

use arrayvec::ArrayVec;
use lg_detector::{Detector, Event, Reply};
use lg_notes::{Insight, Insights};
use lg_replay::Known;
use lg_rules::{MAX_MEMBERS, Name, Record};

/// What a detector says of the node and of a member.
fn insight_of(detector: &Detector, name: &Name) -> Insight
    ensures { (f : List Happened) → detector.now ≡ state_after f → result ≡ insight_after name.now f }
{
    Insight {
        score: detector.standing().score,
        suspicion: detector.suspicion_of(name),
    }
}

/// Lets an event happen behind what is known. If its past is known and it is accepted, gives what the definitions say
/// before and after it, and writes the table after it.
pub(crate) fn insights_at(
    known: &mut Known,
    name: &Name,
    event: &Event,
    table: &mut ArrayVec<Record, MAX_MEMBERS>,
) -> Option<(Insight, Insight)>
    ensures past { (past : Option (List Happened)) → HoldsPast known.old past
        → HoldsPast known.new (past_with past event.now) }
    ensures insights { (past : Option (List Happened)) → HoldsPast known.old past
        → tabled result table.new.items ≡ insights_at name.now past event.now }
{
    let before = insight_of(&known.detector, name);
    let mut reply = Reply::default();
    if !known.follow(event, &mut reply) {
        return None;
    }
    known.detector.put_table(table);
    Some((before, insight_of(&known.detector, name)))
}

/// The same with the table.
pub(crate) fn with_table<'t>(
    both: Option<(Insight, Insight)>,
    table: &'t [Record],
) -> Option<Insights<'t>>
    ensures { maybe_insights result ≡ tabled both table.now }
{
    let (before, after) = both?;
    Some(Insights {
        before,
        after,
        table,
    })
}
