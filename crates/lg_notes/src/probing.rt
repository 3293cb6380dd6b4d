//! What an entry tells of a probe of the member, and of the health score.
//!
//! Defined in: `specs/Meaning/Probing.antt`.
//! Tested in: `lg_explain_tests/src/explaining.rt`.
ghost use Rattle.std.specs.Prelude.{◌≡◌, ◌≤◌, ◌<◌, ◌+◌, ◌++◌, OnOk, length};
ghost use Rattle.arrayvec.specs.ArrayVec.{array_vec_len};
ghost use Rattle.lg_notes.specs.Meaning.Insights.{maybe_insights};
ghost use Rattle.lg_notes.specs.Meaning.Probing.{acked_steps, acker_of, acks_probe, ended_steps, ends_probe};
ghost use Rattle.lg_notes.specs.Meaning.Probing.{helper_name, helper_of, helpers_asked, is_to, nacked_steps};
ghost use Rattle.lg_notes.specs.Meaning.Probing.{nacker_of, nacks_probe, pinged_steps, minute_steps, score_rose};
ghost use Rattle.lg_notes.specs.Meaning.Probing.{score_told, scored_steps, unanswered_steps};

use crate::about::{is_heard, suspects_member};
use crate::insights::{Insights, MinuteBefore};
use crate::subject::NoteSubject;
use crate::timers::{asks_helpers, ends_round};
use crate::watch::{RunningProbe, ping_of_start};
use arrayvec::ArrayVec;
use lg_accounts::{Helper, NoteStep};
use lg_detector::{Event, MAX_SENDS, NoMemory, Outgoing, Reply};
use lg_packet::Body;
use lg_rules::{Addr, Name, Record};

/// Appends that a probe of the member began.
#[tactic(auto, unfolding(crate::specs::Meaning::Probing::pinged_steps))]
pub(crate) fn push_pinged(
    name: &Name,
    reply: &Reply,
    steps: &mut Vec<NoteStep>,
) -> Result<(), NoMemory>
    ensures { OnOk result (steps.new.items ≡ steps.old.items ++ pinged_steps name.now reply.now) }
{
    if let Some(ping) = ping_of_start(name, reply) {
        steps.push(NoteStep::Pinged {
            probe: ping.number,
            addr: ping.addr,
        })?;
    }
    Ok(())
}

/// The name of the first member of a table whose record has an address.
fn helper_name(addr: &Addr, table: &[Record]) -> Option<Name>
    ensures { result ≡ helper_name addr.now table.now }
{
    let record = table.iter().find(|record| record.addr == *addr)?;
    Some(record.name)
}

/// Appends whom a packet asks for an indirect probe, if it is a PingReq.
fn push_helper(table: &[Record], sent: &Outgoing, helpers: &mut ArrayVec<Helper, MAX_SENDS>)
    requires { array_vec_len helpers.old < MAX_SENDS }
    ensures items { helpers.new.items ≡ helpers.old.items ++ helper_of table.now sent.now }
    ensures few { array_vec_len helpers.new ≤ array_vec_len helpers.old + 1 }
{
    if let Body::PingReq { .. } = sent.packet.body {
        helpers.push(Helper {
            addr: sent.to,
            name: helper_name(&sent.to, table),
        });
    }
}

/// Those who were asked for an indirect probe, in order.
#[tactic(auto, unfolding(crate::specs::Meaning::Probing::helpers_asked))]
fn helpers_asked(table: &[Record], sends: &[Outgoing]) -> ArrayVec<Helper, MAX_SENDS>
    requires { length sends.now ≤ MAX_SENDS }
    ensures { result.items ≡ helpers_asked table.now sends.now }
{
    let mut helpers = ArrayVec::new();
    for sent in sends {
        push_helper(table, sent, &mut helpers);
    }
    helpers
}

/// Appends that no Ack to the probe of the member came in time.
#[tactic(auto, unfolding(crate::specs::Meaning::Probing::unanswered_steps))]
pub(crate) fn push_unanswered(
    probe: &Option<RunningProbe>,
    reply: &Reply,
    table: &[Record],
    steps: &mut Vec<NoteStep>,
) -> Result<(), NoMemory>
    ensures { OnOk result (steps.new.items ≡ steps.old.items ++ unanswered_steps probe.now reply.now table.now) }
{
    if let (Some(probe), Some(timer)) = (probe, &reply.fired) {
        if asks_helpers(timer) {
            steps.push(NoteStep::Unanswered {
                within: timer.deadline.saturating_sub(probe.since),
                helpers: helpers_asked(table, reply.sends.as_slice()),
            })?;
        }
    }
    Ok(())
}

/// Whether an answer is one to the node, as far as it tells.
fn is_to(me: &Name, receiver: &Option<Name>) -> bool
    ensures { result ≡ is_to me.now receiver.now }
{
    match receiver {
        Some(receiver) => *me == *receiver,
        None => true,
    }
}

/// Whether a body is a Nack to a probe.
fn nacks_probe(me: &Name, probe: u32, body: &Body) -> bool
    ensures { result ≡ nacks_probe me.now probe body.now }
{
    match body {
        Body::Nack { number, receiver } => *number == probe && is_to(me, receiver),
        _ => false,
    }
}

/// Whether a body is an Ack to a probe.
fn acks_probe(me: &Name, probe: u32, body: &Body) -> bool
    ensures { result ≡ acks_probe me.now probe body.now }
{
    match body {
        Body::Ack { number, receiver } => *number == probe && is_to(me, receiver),
        _ => false,
    }
}

/// Of whom a Nack to the probe of the member was heard.
#[tactic(auto, unfolding(crate::specs::Meaning::Probing::nacker_of))]
fn nacker_of(subject: &NoteSubject, probe: &Option<RunningProbe>, event: &Event) -> Option<Name>
    ensures { result ≡ nacker_of subject.now probe.now event.now }
{
    match (probe, event) {
        (Some(probe), Event::Heard { packet, .. })
            if is_heard(subject, packet) && nacks_probe(&subject.me, probe.number, &packet.body) =>
            { Some(packet.sender) }
        _ => None,
    }
}

/// Of whom an Ack to the probe of the member was heard.
#[tactic(auto, unfolding(crate::specs::Meaning::Probing::acker_of))]
fn acker_of(subject: &NoteSubject, probe: &Option<RunningProbe>, event: &Event) -> Option<Name>
    ensures { result ≡ acker_of subject.now probe.now event.now }
{
    match (probe, event) {
        (Some(probe), Event::Heard { packet, .. })
            if is_heard(subject, packet) && acks_probe(&subject.me, probe.number, &packet.body) => {
            Some(packet.sender)
        }
        _ => None,
    }
}

/// Appends that a Nack to the probe of the member came.
#[tactic(auto, unfolding(crate::specs::Meaning::Probing::nacked_steps))]
pub(crate) fn push_nacked(
    subject: &NoteSubject,
    probe: &Option<RunningProbe>,
    event: &Event,
    steps: &mut Vec<NoteStep>,
) -> Result<(), NoMemory>
    ensures { OnOk result (steps.new.items ≡ steps.old.items ++ nacked_steps subject.now probe.now event.now) }
{
    if let Some(by) = nacker_of(subject, probe, event) {
        steps.push(NoteStep::Nacked { by })?;
    }
    Ok(())
}

/// Appends that an Ack to the probe of the member came.
#[tactic(auto, unfolding(crate::specs::Meaning::Probing::acked_steps))]
pub(crate) fn push_acked(
    subject: &NoteSubject,
    probe: &Option<RunningProbe>,
    event: &Event,
    steps: &mut Vec<NoteStep>,
) -> Result<(), NoMemory>
    ensures { OnOk result (steps.new.items ≡ steps.old.items ++ acked_steps subject.now probe.now event.now) }
{
    if let Some(by) = acker_of(subject, probe, event) {
        steps.push(NoteStep::Acked { by })?;
    }
    Ok(())
}

/// Whether the round of a probe of the member ended with an entry.
fn ends_probe(probe: &Option<RunningProbe>, reply: &Reply) -> bool
    ensures { result ≡ ends_probe probe.now reply.now }
{
    probe.is_some() && ends_round(reply)
}

/// Whether the score is known to have risen.
fn score_rose(known: &Option<Insights<'_>>) -> bool
    ensures { result ≡ score_rose (maybe_insights known.now) }
{
    match known {
        Some(known) => known.before.score < known.after.score,
        None => false,
    }
}

/// Appends that the round of a probe of the member ended.
#[tactic(auto, unfolding(crate::specs::Meaning::Probing::ended_steps))]
pub(crate) fn push_ended(
    name: &Name,
    probe: &Option<RunningProbe>,
    reply: &Reply,
    known: &Option<Insights<'_>>,
    steps: &mut Vec<NoteStep>,
) -> Result<(), NoMemory>
    ensures { OnOk result (steps.new.items
        ≡ steps.old.items ++ ended_steps name.now probe.now reply.now (maybe_insights known.now)) }
{
    if ends_probe(probe, reply) {
        steps.push(NoteStep::RoundEnded {
            is_failed: suspects_member(name, reply) || score_rose(known),
        })?;
    }
    Ok(())
}

/// Appends that the score changed, if that is told.
fn push_score(
    told: bool,
    known: &Option<Insights<'_>>,
    steps: &mut Vec<NoteStep>,
) -> Result<(), NoMemory>
    ensures { OnOk result (steps.new.items ≡ steps.old.items ++ score_told told (maybe_insights known.now)) }
{
    let Some(known) = known else {
        return Ok(());
    };
    let before = known.before.score;
    let after = known.after.score;
    if told && before != after {
        steps.push(NoteStep::Scored { before, after })?;
    }
    Ok(())
}

/// Appends that the score changed with an Ack to the probe of the member, or with the end of its round.
#[tactic(auto, unfolding(crate::specs::Meaning::Probing::scored_steps))]
pub(crate) fn push_scored(
    subject: &NoteSubject,
    probe: &Option<RunningProbe>,
    event: &Event,
    reply: &Reply,
    known: &Option<Insights<'_>>,
    steps: &mut Vec<NoteStep>,
) -> Result<(), NoMemory>
    ensures { OnOk result (steps.new.items ≡ steps.old.items
        ++ scored_steps subject.now probe.now event.now reply.now (maybe_insights known.now)) }
{
    let told = acker_of(subject, probe, event).is_some() || ends_probe(probe, reply);
    push_score(told, known, steps)
}

/// Appends how the rounds of the minute before ended, and for how long the clock stood still in it, if the round of a
/// probe of the member ended with its suspicion.
#[tactic(auto, unfolding(crate::specs::Meaning::Probing::minute_steps))]
pub(crate) fn push_minute(
    name: &Name,
    probe: &Option<RunningProbe>,
    reply: &Reply,
    minute: MinuteBefore,
    steps: &mut Vec<NoteStep>,
) -> Result<(), NoMemory>
    ensures { OnOk result (steps.new.items
        ≡ steps.old.items ++ minute_steps name.now probe.now reply.now minute) }
{
    if ends_probe(probe, reply) && suspects_member(name, reply) {
        steps.push(NoteStep::Minute {
            ended: minute.ended,
            suspected: minute.suspected,
            stood_still_ms: minute.stood_still_ms,
        })?;
    }
    Ok(())
}
