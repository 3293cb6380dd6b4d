//! What an entry tells of what others said of the member, of its record, and of the suspicion of it.
//!
//! Defined in: `specs/Meaning/Suspecting.antt`.
//! Tested in: `lg_explain_tests/src/explaining.rt`.
ghost use Rattle.std.specs.Prelude.{◌≡◌, ◌++◌, OnOk};
ghost use Rattle.lg_notes.specs.Meaning.Insights.{maybe_insights};
ghost use Rattle.lg_notes.specs.Meaning.Suspecting.{changed_steps, is_same_standing, is_same_suspicion};
ghost use Rattle.lg_notes.specs.Meaning.Suspecting.{is_same_timeout, live_records, moves_member, standing_told};
ghost use Rattle.lg_notes.specs.Meaning.Suspecting.{suspected_steps, suspicion_moved, time_over_steps};
ghost use Rattle.lg_notes.specs.Meaning.Suspecting.{timeout_so_far, told_claim, told_claims, told_steps};

use crate::about::{is_about, is_heard, record_changed};
use crate::insights::Insights;
use crate::subject::NoteSubject;
use crate::timers::is_time_over;
use lg_accounts::NoteStep;
use lg_detector::{Event, NoMemory, Reply, SuspicionStanding};
use lg_rules::{Claim, Name, Record};
use lg_timing::SuspicionTimeout;

/// Whether two suspicions have the same timeouts.
fn is_same_timeout(one: &SuspicionTimeout, other: &SuspicionTimeout) -> bool
    ensures { result ≡ is_same_timeout one.now other.now }
{
    one.min_ms() == other.min_ms()
        && one.max_ms() == other.max_ms()
        && one.confirmations() == other.confirmations()
}

/// Whether two suspicions are the same.
fn is_same_standing(one: &SuspicionStanding, other: &SuspicionStanding) -> bool
    ensures { result ≡ is_same_standing one.now other.now }
{
    one.raised == other.raised
        && is_same_timeout(&one.timeout, &other.timeout)
        && one.confirmations == other.confirmations
}

/// Whether two suspicions are the same, or there is neither.
fn is_same_suspicion(one: &Option<SuspicionStanding>, other: &Option<SuspicionStanding>) -> bool
    ensures { result ≡ is_same_suspicion one.now other.now }
{
    match (one, other) {
        (Some(one), Some(other)) => is_same_standing(one, other),
        (None, None) => true,
        (Some(_), None) | (None, Some(_)) => false,
    }
}

/// Whether the suspicion is known to be another than before.
fn suspicion_moved(known: &Option<Insights<'_>>) -> bool
    ensures { result ≡ suspicion_moved (maybe_insights known.now) }
{
    match known {
        Some(known) => !is_same_suspicion(&known.before.suspicion, &known.after.suspicion),
        None => false,
    }
}

/// Whether an entry changed the member's record, or the suspicion of it.
fn moves_member(name: &Name, reply: &Reply, known: &Option<Insights<'_>>) -> bool
    ensures { result ≡ moves_member name.now reply.now (maybe_insights known.now) }
{
    record_changed(name, reply).is_some() || suspicion_moved(known)
}

/// Appends a claim that was told, if it is about the member.
fn push_claim(name: &Name, claim: &Claim, steps: &mut Vec<NoteStep>) -> Result<(), NoMemory>
    ensures { OnOk result (steps.new.items ≡ steps.old.items ++ told_claim name.now claim.now) }
{
    if is_about(name, claim) {
        steps.push(NoteStep::Told { claim: *claim })?;
    }
    Ok(())
}

/// Appends those of some claims that are about the member.
#[tactic(auto, unfolding(crate::specs::Meaning::Suspecting::told_claims))]
fn push_claims(name: &Name, claims: &[Claim], steps: &mut Vec<NoteStep>) -> Result<(), NoMemory>
    ensures { OnOk result (steps.new.items ≡ steps.old.items ++ told_claims name.now claims.now) }
{
    for claim in claims {
        push_claim(name, claim, steps)?;
    }
    Ok(())
}

/// Appends what was told of the member, if that changed something.
#[tactic(auto, unfolding(crate::specs::Meaning::Suspecting::told_steps))]
pub(crate) fn push_told(
    subject: &NoteSubject,
    event: &Event,
    reply: &Reply,
    known: &Option<Insights<'_>>,
    steps: &mut Vec<NoteStep>,
) -> Result<(), NoMemory>
    ensures { OnOk result (steps.new.items
        ≡ steps.old.items ++ told_steps subject.now event.now reply.now (maybe_insights known.now)) }
{
    let Event::Heard { packet, .. } = event else {
        return Ok(());
    };
    if is_heard(subject, packet) && moves_member(&subject.name, reply, known) {
        push_claims(&subject.name, packet.claims.as_slice(), steps)?;
    }
    Ok(())
}

/// Appends that the time of the member's suspicion was over.
#[tactic(auto, unfolding(crate::specs::Meaning::Suspecting::time_over_steps))]
pub(crate) fn push_time_over(
    name: &Name,
    reply: &Reply,
    steps: &mut Vec<NoteStep>,
) -> Result<(), NoMemory>
    ensures { OnOk result (steps.new.items ≡ steps.old.items ++ time_over_steps name.now reply.now) }
{
    if is_time_over(name, &reply.fired) {
        steps.push(NoteStep::TimeOver)?;
    }
    Ok(())
}

/// Appends that the member's record changed.
#[tactic(auto, unfolding(crate::specs::Meaning::Suspecting::changed_steps))]
pub(crate) fn push_changed(
    name: &Name,
    reply: &Reply,
    steps: &mut Vec<NoteStep>,
) -> Result<(), NoMemory>
    ensures { OnOk result (steps.new.items ≡ steps.old.items ++ changed_steps name.now reply.now) }
{
    if let Some(record) = record_changed(name, reply) {
        steps.push(NoteStep::Changed { record: *record })?;
    }
    Ok(())
}

/// How many members of a table are neither failed nor left.
fn live_records(table: &[Record]) -> u64
    ensures { result ≡ live_records table.now }
{
    table
        .iter()
        .filter(|record| !record.status.is_gone())
        .count() as u64
}

/// The timeout of a suspicion after the confirmations that came.
fn timeout_so_far(standing: &SuspicionStanding) -> u64
    ensures { result ≡ timeout_so_far standing.now }
{
    let most = standing.timeout.confirmations();
    standing.timeout.after(standing.confirmations.min(most))
}

/// Appends how the suspicion of the member stands, if it is another than before.
fn push_standing(
    before: &Option<SuspicionStanding>,
    after: &Option<SuspicionStanding>,
    table: &[Record],
    steps: &mut Vec<NoteStep>,
) -> Result<(), NoMemory>
    ensures { OnOk result (steps.new.items
        ≡ steps.old.items ++ standing_told before.now after.now table.now) }
{
    let Some(standing) = after else {
        return Ok(());
    };
    if !is_same_suspicion(before, after) {
        steps.push(NoteStep::Suspected {
            live: live_records(table),
            confirmations: standing.confirmations,
            most: standing.timeout.confirmations(),
            timeout_ms: timeout_so_far(standing),
        })?;
    }
    Ok(())
}

/// Appends how the suspicion of the member stands, if it is known to be another than before.
#[tactic(auto, unfolding(crate::specs::Meaning::Suspecting::suspected_steps))]
pub(crate) fn push_suspected(
    known: &Option<Insights<'_>>,
    steps: &mut Vec<NoteStep>,
) -> Result<(), NoMemory>
    ensures { OnOk result (steps.new.items ≡ steps.old.items ++ suspected_steps (maybe_insights known.now)) }
{
    let Some(known) = known else {
        return Ok(());
    };
    push_standing(
        &known.before.suspicion,
        &known.after.suspicion,
        known.table,
        steps,
    )
}
