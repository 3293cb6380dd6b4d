//! What an entry tells of the member: its steps.
//!
//! Defined in: `specs/Meaning/Steps.antt`.
//! Tested in: `lg_explain_tests/src/explaining.rt`.
ghost use Rattle.std.specs.Prelude.{◌≡◌, IfOk};
ghost use Rattle.lg_notes.specs.Meaning.Insights.{maybe_insights, table_known};
ghost use Rattle.lg_notes.specs.Meaning.Steps.{steps_of};

use crate::insights::{Insights, MinuteBefore};
use crate::probing::{
    push_acked, push_ended, push_minute, push_nacked, push_pinged, push_scored, push_unanswered,
};
use crate::subject::NoteSubject;
use crate::suspecting::{push_changed, push_suspected, push_time_over, push_told};
use crate::watch::Watch;
use lg_accounts::NoteStep;
use lg_detector::{Event, NoMemory, Reply};
use lg_rules::Record;
use std::alloc::Global;

/// The table after an event, or no records if it isn't known.
fn table_known<'a>(known: &Option<Insights<'a>>) -> &'a [Record]
    ensures { result.now ≡ table_known (maybe_insights known.now) }
{
    match known {
        Some(known) => known.table,
        None => &[],
    }
}

/// The steps of an entry, in the order in which they are told. `watch` is what is known of the member before the entry,
/// `known` what the definitions say of its event, and `minute` what was in the minute before.
///
/// Allocates the list and nothing else; the only error is that memory was refused.
#[tactic(auto, unfolding(crate::specs::Meaning::Steps::steps_of))]
pub fn steps_of(
    alloc: Global,
    subject: &NoteSubject,
    watch: &Watch,
    event: &Event,
    reply: &Reply,
    known: &Option<Insights<'_>>,
    minute: MinuteBefore,
) -> Result<Vec<NoteStep>, NoMemory>
    ensures { IfOk result (λ steps. steps.items
        ≡ steps_of subject.now watch.now event.now reply.now (maybe_insights known.now) minute) }
{
    let name = &subject.name;
    let probe = &watch.probe;
    let mut steps = Vec::new(alloc);
    push_pinged(name, reply, &mut steps)?;
    push_unanswered(probe, reply, table_known(known), &mut steps)?;
    push_nacked(subject, probe, event, &mut steps)?;
    push_acked(subject, probe, event, &mut steps)?;
    push_ended(name, probe, reply, known, &mut steps)?;
    push_scored(subject, probe, event, reply, known, &mut steps)?;
    push_told(subject, event, reply, known, &mut steps)?;
    push_time_over(name, reply, &mut steps)?;
    push_changed(name, reply, &mut steps)?;
    push_suspected(known, &mut steps)?;
    push_minute(name, probe, reply, minute, &mut steps)?;
    Ok(steps)
}
