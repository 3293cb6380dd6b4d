//! Writes entries of recordings.
//!
//! Defined in: `specs/Meaning/Spelling.antt`.
//! Tested in: `lg_recording_tests/src/entries.rt`.
ghost use Rattle.std.specs.Prelude.{◌≡◌, ◌≤◌, ◌∷◌, ◌++◌, [], OnErr, OnOk, length};
ghost use Rattle.std.specs.List.{flat_map};
ghost use Rattle.lg_packet.specs.Meaning.Spelling.{spelled_name};
ghost use Rattle.lg_history.specs.Meaning.History.{entry};
ghost use Rattle.lg_fields.specs.Meaning.Spelled.{chunk, spelled_count};
ghost use Rattle.lg_recording.specs.Meaning.Listing.{entry_chunk};
ghost use Rattle.lg_recording.specs.Meaning.Spelling.{spelled_answer, spelled_entry, spelled_event, spelled_fired};
ghost use Rattle.lg_recording.specs.Meaning.Spelling.{spelled_names, spelled_recorded, spelled_reply, spelled_send};
ghost use Rattle.lg_recording.specs.Meaning.Spelling.{spelled_sends, spelled_subject, spelled_words};
ghost use Rattle.lg_recording.specs.Meaning.Values.{with_standstill};

use arrayvec::ArrayVec;
use lg_detector::{Answer, Event, NoMemory, Outgoing, Reply, Timer, TimerId};
use lg_fields::{
    put_chunk, put_config, put_count, put_flag, put_label, put_place, put_records, put_told,
    put_word,
};
use lg_packet::MAX_PACKET;
use lg_rules::Name;
use lg_timing::Moment;
use std::alloc::Global;

/// The greatest seat of an entry: 32, since an agent has at most so many places.
pub const MAX_SEAT: usize = 32;

/// The bytes of a packet that is being written.
type PacketRow = ArrayVec<u8, MAX_PACKET>;

/// What is needed to write an entry, besides the text that it is appended to. It is kept from one entry to the next,
/// so that its memory grows to that of the greatest body and no further.
#[derive(Drop)]
pub struct EntryBuffers {
    body: Vec<u8>,
    row: PacketRow,
}

impl EntryBuffers {
    /// Empty buffers. Allocates nothing.
    pub fn new(alloc: Global) -> EntryBuffers {
        EntryBuffers {
            body: Vec::new(alloc),
            row: PacketRow::new(),
        }
    }
}

fn put_byte(byte: u8, out: &mut Vec<u8>) -> Result<(), NoMemory>
    ensures { OnOk result (out.new.items ≡ out.old.items ++ byte ∷ []) }
{
    out.push(byte)?;
    Ok(())
}

/// Appends what each event begins with: a byte for its kind, and its moment.
fn put_begun(kind: u8, now: Moment, out: &mut Vec<u8>) -> Result<(), NoMemory>
    ensures { OnOk result (out.new.items ≡ out.old.items ++ kind ∷ spelled_count now) }
{
    put_byte(kind, out)?;
    put_count(now.milliseconds(), out)
}

/// Appends random words.
fn put_words(words: &[u32; 8], out: &mut Vec<u8>) -> Result<(), NoMemory>
    ensures { OnOk result (out.new.items ≡ out.old.items ++ spelled_words words.now) }
{
    for word in words {
        put_word(*word, out)?;
    }
    Ok(())
}

/// Appends an event.
#[tactic(auto, unfolding(crate::specs::Meaning::Spelling::spelled_event))]
fn put_event(event: &Event, row: &mut PacketRow, out: &mut Vec<u8>) -> Result<(), NoMemory>
    ensures { OnOk result (out.new.items ≡ out.old.items ++ spelled_event event.now) }
{
    match event {
        Event::Open { now, config } => {
            put_begun(1, *now, out)?;
            put_config(config, out)
        }
        Event::Tick { now, words } => {
            put_begun(2, *now, out)?;
            put_words(words, out)
        }
        Event::Heard {
            now,
            source,
            packet,
        } => {
            put_begun(3, *now, out)?;
            put_place(source, out)?;
            put_told(packet, row, out)
        }
        Event::Ask { now, name } => {
            put_begun(4, *now, out)?;
            put_label(name, out)
        }
        Event::Health { now } => put_begun(5, *now, out),
        Event::Pull { now, peer } => {
            put_begun(6, *now, out)?;
            put_place(peer, out)
        }
        Event::Leave { now, words } => {
            put_begun(7, *now, out)?;
            put_words(words, out)
        }
    }
}

/// Appends the member, or the number of the relay, that a timer is about, if it is about one.
fn put_subject(id: &TimerId, out: &mut Vec<u8>) -> Result<(), NoMemory>
    ensures { OnOk result (out.new.items ≡ out.old.items ++ spelled_subject id.now) }
{
    match id {
        TimerId::Suspicion(member) => put_label(member, out),
        TimerId::Forget(member) => put_label(member, out),
        TimerId::RelayNack(relay) => put_word(*relay, out),
        TimerId::RelayEnd(relay) => put_word(*relay, out),
        TimerId::RoundEnd | TimerId::Direct | TimerId::RoundStart | TimerId::Gossip => Ok(()),
    }
}

/// Appends the timer that fired, if one did.
#[tactic(auto, unfolding(crate::specs::Meaning::Spelling::spelled_fired))]
fn put_fired(fired: &Option<Timer>, out: &mut Vec<u8>) -> Result<(), NoMemory>
    ensures { OnOk result (out.new.items ≡ out.old.items ++ spelled_fired fired.now) }
{
    match fired {
        None => put_byte(0, out),
        Some(timer) => {
            put_byte(timer.kind(), out)?;
            put_subject(&timer.id, out)?;
            put_count(timer.deadline, out)
        }
    }
}

/// Appends a packet that is sent.
fn put_send(outgoing: &Outgoing, row: &mut PacketRow, out: &mut Vec<u8>) -> Result<(), NoMemory>
    ensures { OnOk result (out.new.items ≡ out.old.items ++ spelled_send outgoing.now) }
{
    put_place(&outgoing.to, out)?;
    put_told(&outgoing.packet, row, out)
}

/// Appends packets that are sent, without their count.
fn put_each_send(sends: &[Outgoing], row: &mut PacketRow, out: &mut Vec<u8>) -> Result<(), NoMemory>
    ensures { OnOk result (out.new.items ≡ out.old.items ++ flat_map spelled_send sends.now) }
{
    for outgoing in sends {
        put_send(outgoing, row, out)?;
    }
    Ok(())
}

/// Appends the packets that are sent: how many, and then those.
#[tactic(auto, unfolding(crate::specs::Meaning::Spelling::spelled_sends))]
fn put_sends(sends: &[Outgoing], row: &mut PacketRow, out: &mut Vec<u8>) -> Result<(), NoMemory>
    ensures { OnOk result (out.new.items ≡ out.old.items ++ spelled_sends sends.now) }
{
    put_count(sends.len() as u64, out)?;
    put_each_send(sends, row, out)
}

/// Appends names, without their count.
fn put_each_name(names: &[Name], out: &mut Vec<u8>) -> Result<(), NoMemory>
    ensures { OnOk result (out.new.items ≡ out.old.items ++ flat_map spelled_name names.now) }
{
    for name in names {
        put_label(name, out)?;
    }
    Ok(())
}

/// Appends names: how many, and then those.
#[tactic(auto, unfolding(crate::specs::Meaning::Spelling::spelled_names))]
fn put_names(names: &[Name], out: &mut Vec<u8>) -> Result<(), NoMemory>
    ensures { OnOk result (out.new.items ≡ out.old.items ++ spelled_names names.now) }
{
    put_count(names.len() as u64, out)?;
    put_each_name(names, out)
}

/// Appends the answer, if there is one.
#[tactic(auto, unfolding(crate::specs::Meaning::Spelling::spelled_answer))]
fn put_answer(answer: &Option<Answer>, out: &mut Vec<u8>) -> Result<(), NoMemory>
    ensures { OnOk result (out.new.items ≡ out.old.items ++ spelled_answer answer.now) }
{
    match answer {
        None => put_byte(0, out),
        Some(Answer::Status(None)) => put_byte(1, out),
        Some(Answer::Status(Some(claim))) => {
            put_byte(2, out)?;
            put_records(&[*claim], out)
        }
        Some(
            Answer::Health {
                score,
                number,
                members,
            },
        ) => {
            put_byte(3, out)?;
            put_count(*score, out)?;
            put_word(number.number(), out)?;
            put_count(*members, out)
        }
    }
}

/// Appends a reply.
#[tactic(auto, unfolding(crate::specs::Meaning::Spelling::spelled_reply))]
fn put_reply(reply: &Reply, row: &mut PacketRow, out: &mut Vec<u8>) -> Result<(), NoMemory>
    ensures { OnOk result (out.new.items ≡ out.old.items ++ spelled_reply reply.now) }
{
    put_fired(&reply.fired, out)?;
    put_sends(reply.sends.as_slice(), row, out)?;
    put_records(reply.changed.as_slice(), out)?;
    put_names(reply.forgotten.as_slice(), out)?;
    put_answer(&reply.answer, out)?;
    put_flag(reply.ousted, out)?;
    put_count(reply.next, out)?;
    Ok(())
}

/// Appends an entry alone.
#[tactic(auto, unfolding(crate::specs::Meaning::Spelling::spelled_entry))]
fn put_alone(
    seat: usize,
    event: &Event,
    reply: &Reply,
    row: &mut PacketRow,
    out: &mut Vec<u8>,
) -> Result<(), NoMemory>
    requires { seat ≤ MAX_SEAT }
    ensures { OnOk result (out.new.items ≡ out.old.items ++ spelled_entry (entry seat event.now reply.now)) }
{
    put_byte(seat as u8, out)?;
    put_event(event, row, out)?;
    put_reply(reply, row, out)
}

/// Appends the body of an entry.
#[tactic(auto, unfolding(crate::specs::Meaning::Spelling::spelled_recorded))]
fn put_body(
    seat: usize,
    event: &Event,
    reply: &Reply,
    stood_still_ms: u64,
    row: &mut PacketRow,
    out: &mut Vec<u8>,
) -> Result<(), NoMemory>
    requires { seat ≤ MAX_SEAT }
    ensures { OnOk result (out.new.items
        ≡ out.old.items ++ spelled_recorded (with_standstill (entry seat event.now reply.now) stood_still_ms)) }
{
    put_alone(seat, event, reply, row, out)?;
    put_count(stood_still_ms, out)
}

/// Appends the chunk of a body.
pub(crate) fn put_whole(body: &[u8], out: &mut Vec<u8>) -> Result<(), NoMemory>
    ensures put { OnOk result (out.new.items ≡ out.old.items ++ chunk body.now) }
    ensures refused { OnErr result (out.new.items ≡ out.old.items) }
{
    let length = out.len();
    let done = put_chunk(body, out);
    if done.is_err() {
        out.truncate(length);
    }
    done
}

/// Appends an entry: the chunk whose body spells its seat, 0 to [`MAX_SEAT`], its event and its reply, and for how many
/// milliseconds the node's clock stood still since the entries that were taken before it. Each packet is written as
/// what its version can tell.
///
/// What the buffers hold before or after doesn't matter. Memory is allocated only if they or the text have to grow. The
/// only error is that memory was refused. The text then holds what it held before, though it may have room for more.
pub fn put_entry(
    seat: usize,
    event: &Event,
    reply: &Reply,
    stood_still_ms: u64,
    buffers: &mut EntryBuffers,
    out: &mut Vec<u8>,
) -> Result<(), NoMemory>
    requires { seat ≤ MAX_SEAT }
    ensures put { OnOk result (out.new.items
        ≡ out.old.items ++ entry_chunk (with_standstill (entry seat event.now reply.now) stood_still_ms)) }
    ensures refused { OnErr result (out.new.items ≡ out.old.items) }
{
    buffers.body.clear();
    put_body(
        seat,
        event,
        reply,
        stood_still_ms,
        &mut buffers.row,
        &mut buffers.body,
    )?;
    put_whole(buffers.body.as_slice(), out)
}
