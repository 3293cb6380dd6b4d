//! Writes the replies of a detector as text.
//!
//! Defined in: `specs/Meaning/Replies.antt`.
//! Tested in: `cases/sim_replies.case`, `lg_command_tests/src/replies.rt`.
ghost use Rattle.std.specs.Prelude.{◌≡◌, ◌+◌, ◌<◌, ◌^◌, ◌++◌, OnErr, OnOk, length};
ghost use Rattle.std.specs.Io.{StartsWith};
ghost use Rattle.lg_lines.specs.Meaning.Replies.{answer_line, fired_text, forgot_line, forgotten_text};
ghost use Rattle.lg_lines.specs.Meaning.Replies.{health_text, kind_text, next_text};
ghost use Rattle.lg_lines.specs.Meaning.Replies.{ousted_text, reply_text, send_line, sends_text};
ghost use Rattle.lg_lines.specs.Meaning.Replies.{subject_text, tick_text, told_text};

use crate::packet::{PacketRow, put_hex};
use crate::records::{put, put_addr, put_named, put_numbered, put_record, put_records};
use lg_detector::{Answer, Event, MAX_SENDS, NoMemory, Outgoing, Reply, Timer, TimerId};
use lg_rules::{Incarnation, Name};

/// The word for the kind of a timer.
fn kind_word(id: &TimerId) -> &'static str
    ensures { result.now ≡ kind_text id.now }
{
    match id {
        TimerId::RoundEnd => "round-end",
        TimerId::Suspicion(_) => "suspicion",
        TimerId::Direct => "direct",
        TimerId::RelayNack(_) => "relay-nack",
        TimerId::RelayEnd(_) => "relay-end",
        TimerId::RoundStart => "round-start",
        TimerId::Forget(_) => "forget",
        TimerId::Gossip => "gossip",
    }
}

/// Appends to a text the member, or the relay's number, that a timer is about, if it is about one.
fn put_subject(id: &TimerId, text: &mut Vec<u8>) -> Result<(), NoMemory>
    ensures put { OnOk result (text.new.items ≡ text.old.items ++ subject_text id.now) }
    ensures front { StartsWith text.new.items text.old.items }
{
    match id {
        TimerId::Suspicion(member) => put_named(" ", member, text)?,
        TimerId::Forget(member) => put_named(" ", member, text)?,
        TimerId::RelayNack(relay) => put_numbered(" ", u64::from(*relay), text)?,
        TimerId::RelayEnd(relay) => put_numbered(" ", u64::from(*relay), text)?,
        TimerId::RoundEnd | TimerId::Direct | TimerId::RoundStart | TimerId::Gossip => {}
    }
    Ok(())
}

/// Appends the line of a tick to a text: the timer that it fired, or that it fired none.
fn put_tick(fired: &Option<Timer>, text: &mut Vec<u8>) -> Result<(), NoMemory>
    ensures put { OnOk result (text.new.items ≡ text.old.items ++ tick_text fired.now) }
    ensures front { StartsWith text.new.items text.old.items }
{
    let Some(timer) = fired else {
        put(b"idle\n", text)?;
        return Ok(());
    };
    put(b"fired ", text)?;
    put(kind_word(&timer.id).as_bytes(), text)?;
    put_subject(&timer.id, text)?;
    put(b"\n", text)?;
    Ok(())
}

/// Appends the line of a tick to a text, if the event is one. Other events have no such line.
fn put_fired(event: &Event, fired: &Option<Timer>, text: &mut Vec<u8>) -> Result<(), NoMemory>
    ensures put { OnOk result (text.new.items ≡ text.old.items ++ fired_text event.now fired.now) }
    ensures front { StartsWith text.new.items text.old.items }
{
    if matches!(event, Event::Tick { .. }) {
        put_tick(fired, text)?;
    }
    Ok(())
}

/// Appends to a text the answer to Health.
fn put_health(
    score: u64,
    number: Incarnation,
    members: u64,
    text: &mut Vec<u8>,
) -> Result<(), NoMemory>
    ensures put { OnOk result (text.new.items ≡ text.old.items ++ health_text score number members) }
    ensures front { StartsWith text.new.items text.old.items }
{
    put_numbered("score ", score, text)?;
    put_numbered(" number ", u64::from(number.number()), text)?;
    put_numbered(" members ", members, text)?;
    Ok(())
}

/// Appends an answer to a text.
fn put_told(answer: &Answer, text: &mut Vec<u8>) -> Result<(), NoMemory>
    ensures put { OnOk result (text.new.items ≡ text.old.items ++ told_text answer.now) }
    ensures front { StartsWith text.new.items text.old.items }
{
    match answer {
        Answer::Status(None) => put(b"none", text)?,
        Answer::Status(Some(claim)) => put_record(claim, text)?,
        Answer::Health {
            score,
            number,
            members,
        } => put_health(*score, *number, *members, text)?,
    }
    Ok(())
}

/// Appends the line of an answer to a text, if there is one.
fn put_answer(answer: &Option<Answer>, text: &mut Vec<u8>) -> Result<(), NoMemory>
    ensures put { OnOk result (text.new.items ≡ text.old.items ++ answer_line answer.now) }
    ensures front { StartsWith text.new.items text.old.items }
{
    if let Some(told) = answer {
        put(b"answer ", text)?;
        put_told(told, text)?;
        put(b"\n", text)?;
    }
    Ok(())
}

/// Appends to a text the line of a packet that is sent.
fn put_send(
    number: u64,
    outgoing: &Outgoing,
    row: &mut PacketRow,
    text: &mut Vec<u8>,
) -> Result<(), NoMemory>
    ensures put { OnOk result (text.new.items ≡ text.old.items ++ send_line number outgoing.now) }
    ensures front { StartsWith text.new.items text.old.items }
{
    put_numbered("send ", number, text)?;
    put(b" ", text)?;
    put_addr(&outgoing.to, text)?;
    put(b" ", text)?;
    put_hex(&outgoing.packet, row, text)?;
    put(b"\n", text)?;
    Ok(())
}

/// Appends to a text the lines of the packets that are sent, numbered from `first` on.
fn put_sends(
    first: u64,
    sends: &[Outgoing],
    row: &mut PacketRow,
    text: &mut Vec<u8>,
) -> Result<(), NoMemory>
    requires { first + length sends.now < 2 ^ 64 }
    ensures put { OnOk result (text.new.items ≡ text.old.items ++ sends_text first sends.now) }
    ensures front { StartsWith text.new.items text.old.items }
{
    let mut number = first;
    for outgoing in sends {
        put_send(number, outgoing, row, text)?;
        number += 1;
    }
    Ok(())
}

/// Appends to a text the line of a name that was forgotten.
fn put_forgot(name: &Name, text: &mut Vec<u8>) -> Result<(), NoMemory>
    ensures put { OnOk result (text.new.items ≡ text.old.items ++ forgot_line name.now) }
    ensures front { StartsWith text.new.items text.old.items }
{
    put_named("forgot ", name, text)?;
    put(b"\n", text)?;
    Ok(())
}

/// Appends to a text the lines of names that were forgotten, in the order in which they are given.
#[tactic(auto, unfolding(crate::specs::Meaning::Replies::forgotten_text))]
fn put_forgotten(names: &[Name], text: &mut Vec<u8>) -> Result<(), NoMemory>
    ensures put { OnOk result (text.new.items ≡ text.old.items ++ forgotten_text names.now) }
    ensures front { StartsWith text.new.items text.old.items }
{
    for name in names {
        put_forgot(name, text)?;
    }
    Ok(())
}

/// Appends the line of the flag `ousted` to a text, if it is set.
fn put_ousted(ousted: bool, text: &mut Vec<u8>) -> Result<(), NoMemory>
    ensures put { OnOk result (text.new.items ≡ text.old.items ++ ousted_text ousted) }
    ensures front { StartsWith text.new.items text.old.items }
{
    if ousted {
        put(b"ousted\n", text)?;
    }
    Ok(())
}

/// Appends the line of the next deadline to a text.
fn put_next(next: u64, text: &mut Vec<u8>) -> Result<(), NoMemory>
    ensures put { OnOk result (text.new.items ≡ text.old.items ++ next_text next) }
    ensures front { StartsWith text.new.items text.old.items }
{
    put_numbered("next ", next, text)?;
    put(b"\n", text)?;
    Ok(())
}

/// Appends to a text the lines of a reply to an event.
#[tactic(auto, unfolding(crate::specs::Meaning::Replies::reply_text))]
fn put_lines(
    event: &Event,
    first: u64,
    reply: &Reply,
    row: &mut PacketRow,
    text: &mut Vec<u8>,
) -> Result<(), NoMemory>
    requires { first + MAX_SENDS < 2 ^ 64 }
    ensures put { OnOk result (text.new.items ≡ text.old.items ++ reply_text event.now first reply.now) }
    ensures front { StartsWith text.new.items text.old.items }
{
    put_fired(event, &reply.fired, text)?;
    put_answer(&reply.answer, text)?;
    put_sends(first, reply.sends.as_slice(), row, text)?;
    put_records(reply.changed.as_slice(), text)?;
    put_forgotten(reply.forgotten.as_slice(), text)?;
    put_ousted(reply.ousted, text)?;
    put_next(reply.next, text)?;
    Ok(())
}

/// Appends to a text what a detector replied to an event, as lines in this order:
///
/// - for a tick `fired KIND` or `fired KIND ID`, which is the timer that fired, or `idle` if none did;
/// - `answer none`, `answer RECORD` or `answer score S number I members N`, if the event was a question;
/// - `send K ADDRESS:PORT HEX` for each packet sent, in order, with the packet in lower-case hex. ADDRESS is `A.B.C.D`,
///   or an IPv6 address in brackets. The numbers K count on from `first`. There are at most [`MAX_SENDS`], and their
///   numbers must fit in 64 bits;
/// - `record RECORD` for each record that changed, as [`put_table`](crate::put_table) writes it;
/// - `forgot NAME` for each name that was forgotten, in order;
/// - `ousted` if the flag is set;
/// - `next MOMENT`, always.
///
/// `row` is a scratch buffer; what it holds before or after doesn't matter. Memory is allocated only if the text has
/// to grow, and for the text of an IPv6 address. The only error is that memory was refused. The text then holds what it
/// held before, though it may have room for more.
pub fn put_reply(
    event: &Event,
    first: u64,
    reply: &Reply,
    row: &mut PacketRow,
    text: &mut Vec<u8>,
) -> Result<(), NoMemory>
    requires { first + MAX_SENDS < 2 ^ 64 }
    ensures put { OnOk result (text.new.items ≡ text.old.items ++ reply_text event.now first reply.now) }
    ensures refused { OnErr result (text.new.items ≡ text.old.items) }
{
    let length = text.len();
    let done = put_lines(event, first, reply, row, text);
    if done.is_err() {
        text.truncate(length);
    }
    done
}
