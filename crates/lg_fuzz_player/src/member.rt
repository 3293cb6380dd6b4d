//! A member of a group: its detector, the events that it heard, and the lines that each gave.

use lg_detector::{Detector, Event, NoMemory, Outgoing, Reply};
use lg_lines::{PacketRow, put_reply};
use lg_rules::{Addr, Name};
use lg_script::ScriptFault;
use lg_timing::Moment;
use std::alloc::{AllocError, Global};

/// A number that no packet has, since no script is long enough. The check sees by it that numbers don't overflow.
const MOST_PACKETS: u64 = 1_000_000_000_000;

/// Why a line of a script isn't carried out.
#[derive(Clone, Copy, Debug, PartialEq, Eq)]
pub enum Stop {
    /// Memory was refused.
    NoMemory,
    /// The line is faulty.
    Faulty(ScriptFault),
}

impl From<AllocError> for Stop {
    fn from(_refused: AllocError) -> Stop {
        Stop::NoMemory
    }
}

/// A packet that a member sent.
#[derive(Debug, Drop)]
pub struct SentPacket {
    /// The address of the member that sent it.
    pub from: Addr,
    /// The packet, and where it goes.
    pub outgoing: Outgoing,
}

impl SentPacket {
    /// The event that the packet is heard: as its bytes tell it, and from the address of its sender.
    pub fn arrival(&self, now: Moment, row: &mut PacketRow) -> Event {
        lg_packet::encode(&self.outgoing.packet, row);
        let packet = lg_packet::decode(row.as_slice()).unwrap();
        Event::Heard {
            now,
            source: self.from,
            packet,
        }
    }
}

/// What is written while a script is played, and the scratch buffers for it.
#[derive(Drop)]
pub struct Output {
    /// The text so far.
    pub text: Vec<u8>,
    /// The packets that were sent so far.
    pub sent: Vec<SentPacket>,
    /// The reply to the event that came last.
    pub reply: Reply,
    /// A buffer for the bytes of a packet.
    pub row: PacketRow,
}

/// An event that a member heard.
#[derive(Drop)]
struct Entry {
    /// The event.
    event: Event,
    /// The number of the first packet that it sent, if it sent any.
    first: u64,
    /// Where its lines begin in the text, and where they end.
    start: usize,
    end: usize,
}

/// A member with its detector.
#[derive(Drop)]
pub struct Member {
    /// Its name. No other member has it.
    pub name: Name,
    /// Its address. No other member is there.
    pub addr: Addr,
    detector: Detector,
    entries: Vec<Entry>,
}

impl Member {
    /// A member that has heard nothing yet. Allocates its detector.
    pub fn new(alloc: Global, name: Name, addr: Addr) -> Result<Member, NoMemory> {
        Ok(Member {
            name,
            addr,
            detector: Detector::blank(alloc)?,
            entries: Vec::new(alloc),
        })
    }

    /// Hands it an event, and writes the lines of the reply. An event that it doesn't accept is a fault.
    pub fn take(&mut self, event: &Event, output: &mut Output) -> Result<(), Stop> {
        if !self.detector.accepts(event) {
            return Err(Stop::Faulty(ScriptFault::Value));
        }
        self.detector.step(event, &mut output.reply);
        self.keep(event, output)?;
        Ok(())
    }

    /// Writes the lines of the reply to an event, and keeps its packets and the event itself.
    fn keep(&mut self, event: &Event, output: &mut Output) -> Result<(), NoMemory> {
        let first = output.sent.len() as u64 + 1;
        let start = output.text.len();
        put_reply(
            event,
            first,
            &output.reply,
            &mut output.row,
            &mut output.text,
        )?;
        let from = self.addr;
        for outgoing in output.reply.sends.as_slice() {
            let outgoing = outgoing.copy();
            output.sent.push(SentPacket { from, outgoing })?;
        }
        let end = output.text.len();
        let event = event.copy();
        self.entries.push(Entry {
            event,
            first,
            start,
            end,
        })?;
        Ok(())
    }

    /// Writes its table.
    pub fn put_table(&self, alloc: Global, text: &mut Vec<u8>) -> Result<(), NoMemory> {
        let records = self.detector.table(alloc)?;
        lg_lines::put_table(records.as_slice(), text)
    }

    /// Replays all its events by a new detector. Gives how many gave the lines that they gave before: fewer than all if
    /// one of them didn't.
    pub fn replay(&self, alloc: Global, output: &mut Output) -> Result<usize, NoMemory> {
        let mut detector = Detector::blank(alloc)?;
        let mut lines = Vec::new(alloc);
        for (count, entry) in self.entries.iter().enumerate() {
            if !detector.accepts(&entry.event) || entry.first > MOST_PACKETS {
                return Ok(count);
            }
            detector.step(&entry.event, &mut output.reply);
            lines.clear();
            put_reply(
                &entry.event,
                entry.first,
                &output.reply,
                &mut output.row,
                &mut lines,
            )?;
            if output.text.get(entry.start..entry.end) != Some(lines.as_slice()) {
                return Ok(count);
            }
        }
        Ok(self.entries.len())
    }

    /// How many events it heard.
    pub fn heard(&self) -> usize {
        self.entries.len()
    }
}
