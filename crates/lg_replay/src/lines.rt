//! The lines of a recording that is told.
//!
//! Defined in: `specs/Meaning/Words.antt`.
//! Tested in: `lg_replay_tests/src/lives.rt`.
ghost use Rattle.std.specs.Prelude.{◌≡◌, ◌++◌, OnOk, codes, decimal};
ghost use Rattle.lg_text.specs.Meaning.Addresses.{addr_text};
ghost use Rattle.lg_lines.specs.Meaning.Replies.{packet_text};
ghost use Rattle.lg_replay.specs.Meaning.Words.{event_line, event_words, recorded_line, recorded_text, unchecked_line};

use crate::window::moment_of_event;
use itoa::Buffer;
use lg_detector::{Event, NoMemory};
use lg_lines::{PacketRow, put_hex};
use lg_packet::Packet;
use lg_rules::{Addr, Name};
use lg_text::cut_line;

/// The most bytes of an IPv6 address in brackets with its port, as in
/// `[2001:db8:1111:2222:3333:4444:5555:6666]:65535`.
const MAX_ADDR_TEXT: usize = 47;

/// Appends a word and a number in decimal to a text.
pub(crate) fn put_counted(word: &str, number: u64, text: &mut Vec<u8>) -> Result<(), NoMemory>
    ensures { OnOk result (text.new.items ≡ text.old.items ++ (word.now ++ decimal number)) }
{
    let mut digits = Buffer::new();
    text.extend_from_slice(word.as_bytes())?;
    text.extend_from_slice(digits.format(number).as_bytes())?;
    Ok(())
}

/// Appends a word and an address with its port to a text. Memory is allocated for the address.
fn put_placed(word: &str, addr: &Addr, text: &mut Vec<u8>) -> Result<(), NoMemory>
    ensures { OnOk result (text.new.items ≡ text.old.items ++ (word.now ++ addr_text addr.now)) }
{
    let mut written = String::with_capacity(*text.allocator(), MAX_ADDR_TEXT)?;
    lg_text::put_addr(addr, &mut written)?;
    text.extend_from_slice(word.as_bytes())?;
    text.extend_from_slice(written.as_bytes())?;
    Ok(())
}

/// Appends to a text whom an opening opens, and at which address.
fn put_opened(name: &Name, addr: &Addr, text: &mut Vec<u8>) -> Result<(), NoMemory>
    ensures { OnOk result (text.new.items
        ≡ text.old.items ++ (codes "open " ++ name.now ++ codes " " ++ addr_text addr.now)) }
{
    text.extend_from_slice(b"open ")?;
    text.extend_from_slice(name.as_bytes())?;
    put_placed(" ", addr, text)
}

/// Appends to a text a packet that is heard, and where it came from.
fn put_heard(
    source: &Addr,
    packet: &Packet,
    row: &mut PacketRow,
    text: &mut Vec<u8>,
) -> Result<(), NoMemory>
    ensures { OnOk result (text.new.items
        ≡ text.old.items ++ (codes "heard " ++ addr_text source.now ++ codes " " ++ packet_text packet.now)) }
{
    put_placed("heard ", source, text)?;
    text.extend_from_slice(b" ")?;
    put_hex(packet, row, text)
}

/// Appends the words of an event to a text.
fn put_event(event: &Event, row: &mut PacketRow, text: &mut Vec<u8>) -> Result<(), NoMemory>
    ensures { OnOk result (text.new.items ≡ text.old.items ++ event_words event.now) }
{
    match event {
        Event::Open { config, .. } => put_opened(&config.name, &config.addr, text),
        Event::Tick { .. } => text.extend_from_slice(b"tick"),
        Event::Heard { source, packet, .. } => put_heard(source, packet, row, text),
        Event::Ask { name, .. } => {
            text.extend_from_slice(b"ask ")?;
            text.extend_from_slice(name.as_bytes())
        }
        Event::Health { .. } => text.extend_from_slice(b"health"),
        Event::Pull { peer, .. } => put_placed("pull ", peer, text),
        Event::Leave { .. } => text.extend_from_slice(b"leave"),
    }
}

/// Appends the line of an event to a text. `row` is a scratch buffer.
#[tactic(auto, unfolding(crate::specs::Meaning::Words::event_line))]
pub(crate) fn put_event_line(
    event: &Event,
    row: &mut PacketRow,
    text: &mut Vec<u8>,
) -> Result<(), NoMemory>
    ensures { OnOk result (text.new.items ≡ text.old.items ++ event_line event.now) }
{
    put_counted("at ", moment_of_event(event).milliseconds(), text)?;
    text.extend_from_slice(b" ")?;
    put_event(event, row, text)?;
    text.extend_from_slice(b"\n")?;
    Ok(())
}

/// Appends to a text the line that says from which entry on no reply can be checked.
pub(crate) fn put_unchecked(number: u64, text: &mut Vec<u8>) -> Result<(), NoMemory>
    ensures { OnOk result (text.new.items ≡ text.old.items ++ unchecked_line number) }
{
    put_counted("unchecked from entry ", number, text)?;
    text.extend_from_slice(b"\n")?;
    Ok(())
}

/// Appends a line to a text, as one of what was recorded.
fn put_recorded_line(line: &[u8], text: &mut Vec<u8>) -> Result<(), NoMemory>
    ensures { OnOk result (text.new.items ≡ text.old.items ++ recorded_line line.now) }
{
    text.extend_from_slice(b"recorded ")?;
    text.extend_from_slice(line)?;
    text.extend_from_slice(b"\n")?;
    Ok(())
}

/// Appends lines to a text, as those of what was recorded.
pub(crate) fn put_recorded(lines: &[u8], text: &mut Vec<u8>) -> Result<(), NoMemory>
    ensures { OnOk result (text.new.items ≡ text.old.items ++ recorded_text lines.now) }
{
    let mut rest = lines;
    'lines: while !rest.is_empty() {
        let (line, after) = cut_line(rest);
        put_recorded_line(line, text)?;
        rest = after;
    }
    Ok(())
}
