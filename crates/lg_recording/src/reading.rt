//! Reads entries of recordings.
//!
//! Defined in: `specs/Meaning/Scanning.antt`.
//! Tested in: `lg_recording_tests/src/entries.rt`.
ghost use Rattle.std.specs.Prelude.{◌≡◌, ◌≤◌, ℕ, List};
ghost use Rattle.lg_fields.specs.Meaning.Scanned.{label_scan};
ghost use Rattle.lg_fields.specs.Support.Scans.{Scans};
ghost use Rattle.lg_recording.specs.Meaning.Scanning.{answer_scan, ask_scan, each_scan, event_scan};
ghost use Rattle.lg_recording.specs.Meaning.Scanning.{fired_scan, heard_scan, health_scan, id_scan, known_scan};
ghost use Rattle.lg_recording.specs.Meaning.Scanning.{leave_scan, names_scan, open_scan, pull_scan, reply_scan};
ghost use Rattle.lg_recording.specs.Meaning.Scanning.{only_record, seat_scan, send_scan, sends_scan, standing_scan};
ghost use Rattle.lg_recording.specs.Meaning.Scanning.{tick_scan, timer_scan, words_scan};

use crate::writing::MAX_SEAT;
use arrayvec::ArrayVec;
use lg_detector::{
    Answer, Event, MAX_FORGOTTEN, MAX_SENDS, Outgoing, Reply, Sends, Timer, TimerId,
};
use lg_fields::{FieldFault, FieldReader};
use lg_rules::{Name, Record};

/// Reads eight random words.
#[tactic(auto, unfolding(crate::specs::Meaning::Scanning::each_scan))]
fn read_words(reader: &mut FieldReader<'_>) -> Result<[u32; 8], FieldFault>
    ensures { Scans (λ x. (x, reader.new.rest.now)) result (words_scan reader.old.rest.now) }
{
    let a = reader.word()?;
    let b = reader.word()?;
    let c = reader.word()?;
    let d = reader.word()?;
    let e = reader.word()?;
    let f = reader.word()?;
    let g = reader.word()?;
    let h = reader.word()?;
    Ok([a, b, c, d, e, f, g, h])
}

#[tactic(auto, unfolding(crate::specs::Meaning::Scanning::open_scan))]
fn read_open(reader: &mut FieldReader<'_>) -> Result<Event, FieldFault>
    ensures { Scans (λ x. (x, reader.new.rest.now)) result (open_scan reader.old.rest.now) }
{
    let now = reader.moment()?;
    let config = reader.config()?;
    Ok(Event::Open { now, config })
}

#[tactic(auto, unfolding(crate::specs::Meaning::Scanning::tick_scan))]
fn read_tick(reader: &mut FieldReader<'_>) -> Result<Event, FieldFault>
    ensures { Scans (λ x. (x, reader.new.rest.now)) result (tick_scan reader.old.rest.now) }
{
    let now = reader.moment()?;
    let words = read_words(reader)?;
    Ok(Event::Tick { now, words })
}

#[tactic(auto, unfolding(crate::specs::Meaning::Scanning::heard_scan))]
fn read_heard(reader: &mut FieldReader<'_>) -> Result<Event, FieldFault>
    ensures { Scans (λ x. (x, reader.new.rest.now)) result (heard_scan reader.old.rest.now) }
{
    let now = reader.moment()?;
    let source = reader.place()?;
    let packet = reader.told()?;
    Ok(Event::Heard {
        now,
        source,
        packet,
    })
}

#[tactic(auto, unfolding(crate::specs::Meaning::Scanning::ask_scan))]
fn read_ask(reader: &mut FieldReader<'_>) -> Result<Event, FieldFault>
    ensures { Scans (λ x. (x, reader.new.rest.now)) result (ask_scan reader.old.rest.now) }
{
    let now = reader.moment()?;
    let name = reader.label()?;
    Ok(Event::Ask { now, name })
}

#[tactic(auto, unfolding(crate::specs::Meaning::Scanning::health_scan))]
fn read_health(reader: &mut FieldReader<'_>) -> Result<Event, FieldFault>
    ensures { Scans (λ x. (x, reader.new.rest.now)) result (health_scan reader.old.rest.now) }
{
    let now = reader.moment()?;
    Ok(Event::Health { now })
}

#[tactic(auto, unfolding(crate::specs::Meaning::Scanning::pull_scan))]
fn read_pull(reader: &mut FieldReader<'_>) -> Result<Event, FieldFault>
    ensures { Scans (λ x. (x, reader.new.rest.now)) result (pull_scan reader.old.rest.now) }
{
    let now = reader.moment()?;
    let peer = reader.place()?;
    Ok(Event::Pull { now, peer })
}

#[tactic(auto, unfolding(crate::specs::Meaning::Scanning::leave_scan))]
fn read_leave(reader: &mut FieldReader<'_>) -> Result<Event, FieldFault>
    ensures { Scans (λ x. (x, reader.new.rest.now)) result (leave_scan reader.old.rest.now) }
{
    let now = reader.moment()?;
    let words = read_words(reader)?;
    Ok(Event::Leave { now, words })
}

/// Reads an event.
pub(crate) fn read_event(reader: &mut FieldReader<'_>) -> Result<Event, FieldFault>
    ensures { Scans (λ x. (x, reader.new.rest.now)) result (event_scan reader.old.rest.now) }
{
    let [kind, rest @ ..] = reader.rest else {
        return Err(FieldFault::Short);
    };
    reader.rest = rest;
    match *kind {
        1 => read_open(reader),
        2 => read_tick(reader),
        3 => read_heard(reader),
        4 => read_ask(reader),
        5 => read_health(reader),
        6 => read_pull(reader),
        7 => read_leave(reader),
        _ => Err(FieldFault::Kind),
    }
}

/// Reads the id of a timer behind the byte for its kind.
#[tactic(auto, unfolding(crate::specs::Meaning::Scanning::id_scan))]
fn read_id(kind: u8, reader: &mut FieldReader<'_>) -> Result<TimerId, FieldFault>
    ensures { Scans (λ x. (x, reader.new.rest.now)) result (id_scan kind reader.old.rest.now) }
{
    match kind {
        1 => Ok(TimerId::RoundEnd),
        2 => Ok(TimerId::Suspicion(reader.label()?)),
        3 => Ok(TimerId::Direct),
        4 => Ok(TimerId::RelayNack(reader.word()?)),
        5 => Ok(TimerId::RelayEnd(reader.word()?)),
        6 => Ok(TimerId::RoundStart),
        7 => Ok(TimerId::Forget(reader.label()?)),
        8 => Ok(TimerId::Gossip),
        _ => Err(FieldFault::Kind),
    }
}

/// Reads a timer that fired behind the byte for its kind.
#[tactic(auto, unfolding(crate::specs::Meaning::Scanning::timer_scan))]
fn read_timer(kind: u8, reader: &mut FieldReader<'_>) -> Result<Option<Timer>, FieldFault>
    ensures { Scans (λ x. (x, reader.new.rest.now)) result (timer_scan kind reader.old.rest.now) }
{
    let id = read_id(kind, reader)?;
    let deadline = reader.count()?;
    Ok(Some(Timer { deadline, id }))
}

/// Reads the timer that fired, if one did.
fn read_fired(reader: &mut FieldReader<'_>) -> Result<Option<Timer>, FieldFault>
    ensures { Scans (λ x. (x, reader.new.rest.now)) result (fired_scan reader.old.rest.now) }
{
    let [kind, rest @ ..] = reader.rest else {
        return Err(FieldFault::Short);
    };
    reader.rest = rest;
    if *kind == 0 {
        return Ok(None);
    }
    read_timer(*kind, reader)
}

/// Reads a packet that was sent.
#[tactic(auto, unfolding(crate::specs::Meaning::Scanning::send_scan))]
fn read_send(reader: &mut FieldReader<'_>) -> Result<Outgoing, FieldFault>
    ensures { Scans (λ x. (x, reader.new.rest.now)) result (send_scan reader.old.rest.now) }
{
    let to = reader.place()?;
    let packet = reader.told()?;
    Ok(Outgoing { to, packet })
}

/// Reads this many packets that were sent.
fn read_each_send(count: usize, reader: &mut FieldReader<'_>) -> Result<Sends, FieldFault>
    requires { count ≤ MAX_SENDS }
    ensures { Scans (λ x. (x.items, reader.new.rest.now)) result (each_scan send_scan count reader.old.rest.now) }
{
    let mut sends = Sends::new();
    for _ in 0..count {
        let outgoing = read_send(reader)?;
        sends.push(outgoing);
    }
    Ok(sends)
}

/// Reads the packets that were sent.
#[tactic(auto, unfolding(crate::specs::Meaning::Scanning::sends_scan))]
fn read_sends(reader: &mut FieldReader<'_>) -> Result<Sends, FieldFault>
    ensures { Scans (λ x. (x.items, reader.new.rest.now)) result (sends_scan reader.old.rest.now) }
{
    let count = reader.few(MAX_SENDS)?;
    read_each_send(count, reader)
}

/// Reads this many names.
fn read_each_name(
    count: usize,
    reader: &mut FieldReader<'_>,
) -> Result<ArrayVec<Name, MAX_FORGOTTEN>, FieldFault>
    requires { count ≤ MAX_FORGOTTEN }
    ensures { Scans (λ x. (x.items, reader.new.rest.now)) result (each_scan label_scan count reader.old.rest.now) }
{
    let mut names = ArrayVec::new();
    for _ in 0..count {
        let name = reader.label()?;
        names.push(name);
    }
    Ok(names)
}

/// Reads names.
#[tactic(auto, unfolding(crate::specs::Meaning::Scanning::names_scan))]
fn read_names(reader: &mut FieldReader<'_>) -> Result<ArrayVec<Name, MAX_FORGOTTEN>, FieldFault>
    ensures { Scans (λ x. (x.items, reader.new.rest.now)) result (names_scan reader.old.rest.now) }
{
    let count = reader.few(MAX_FORGOTTEN)?;
    read_each_name(count, reader)
}

/// The answer with the record that some bytes had to hold alone.
fn only_record(claims: &[Record]) -> Result<Option<Answer>, FieldFault>
    ensures { (rest : List ℕ) → Scans (λ x. (x, rest)) result (only_record claims.now rest) }
{
    match claims {
        [claim] => Ok(Some(Answer::Status(Some(*claim)))),
        [] | [_, _, ..] => Err(FieldFault::Count),
    }
}

/// Reads the answer that is a record.
#[tactic(auto, unfolding(crate::specs::Meaning::Scanning::known_scan))]
fn read_known(reader: &mut FieldReader<'_>) -> Result<Option<Answer>, FieldFault>
    ensures { Scans (λ x. (x, reader.new.rest.now)) result (known_scan reader.old.rest.now) }
{
    let claims = reader.records()?;
    only_record(claims.as_slice())
}

/// Reads the answer to Health.
#[tactic(auto, unfolding(crate::specs::Meaning::Scanning::standing_scan))]
fn read_standing(reader: &mut FieldReader<'_>) -> Result<Option<Answer>, FieldFault>
    ensures { Scans (λ x. (x, reader.new.rest.now)) result (standing_scan reader.old.rest.now) }
{
    let score = reader.count()?;
    let number = reader.incarnation()?;
    let members = reader.count()?;
    Ok(Some(Answer::Health {
        score,
        number,
        members,
    }))
}

/// Reads the answer, if there is one.
fn read_answer(reader: &mut FieldReader<'_>) -> Result<Option<Answer>, FieldFault>
    ensures { Scans (λ x. (x, reader.new.rest.now)) result (answer_scan reader.old.rest.now) }
{
    let [kind, rest @ ..] = reader.rest else {
        return Err(FieldFault::Short);
    };
    reader.rest = rest;
    match *kind {
        0 => Ok(None),
        1 => Ok(Some(Answer::Status(None))),
        2 => read_known(reader),
        3 => read_standing(reader),
        _ => Err(FieldFault::Kind),
    }
}

/// Reads a reply.
#[tactic(auto, unfolding(crate::specs::Meaning::Scanning::reply_scan))]
pub(crate) fn read_reply(reader: &mut FieldReader<'_>) -> Result<Reply, FieldFault>
    ensures { Scans (λ x. (x, reader.new.rest.now)) result (reply_scan reader.old.rest.now) }
{
    let fired = read_fired(reader)?;
    let sends = read_sends(reader)?;
    let changed = reader.records()?;
    let forgotten = read_names(reader)?;
    let answer = read_answer(reader)?;
    let ousted = reader.flag()?;
    let next = reader.count()?;
    Ok(Reply {
        fired,
        sends,
        changed,
        forgotten,
        answer,
        ousted,
        next,
    })
}

/// Reads the seat of an entry.
pub(crate) fn read_seat(reader: &mut FieldReader<'_>) -> Result<usize, FieldFault>
    ensures { Scans (λ x. (x, reader.new.rest.now)) result (seat_scan reader.old.rest.now) }
{
    let [seat, rest @ ..] = reader.rest else {
        return Err(FieldFault::Short);
    };
    let seat = usize::from(*seat);
    if seat > MAX_SEAT {
        return Err(FieldFault::Number);
    }
    reader.rest = rest;
    Ok(seat)
}
