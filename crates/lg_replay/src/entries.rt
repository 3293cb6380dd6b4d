//! What is told of an entry of a recording, and the verdict on it.
//!
//! Defined in: `specs/Meaning/Entries.antt`, `specs/Meaning/Verdicts.antt`.
//! Tested in: `lg_replay_tests/src/lives.rt`.
ghost use Rattle.std.specs.Prelude.{◌≡◌, ◌+◌, ◌<◌, ◌++◌, ◌^◌, IfOk, OnOk, Option, Some, unwrap_or};
ghost use Rattle.lg_history.specs.Meaning.History.{entry};
ghost use Rattle.lg_replay.specs.Meaning.Entries.{differing_text, entry_lines, event_lines, fault_end_text};
ghost use Rattle.lg_detector.specs.declared.reply.Reply.{Reply as Replied};
ghost use Rattle.lg_replay.specs.Support.Known.{IsDue, lost_text};
ghost use Rattle.lg_replay.specs.Meaning.Verdicts.{verdict_by};
ghost use Rattle.lg_replay.specs.Meaning.Words.{fault_word_of};

use crate::lines::{put_counted, put_event_line, put_recorded, put_unchecked};
use crate::verdict::Verdict;
use crate::window::Window;
use arrayvec::ArrayVec;
use lg_detector::{Event, MAX_SENDS, NoMemory, Reply};
use lg_fields::FieldFault;
use lg_lines::{PacketRow, put_reply};
use lg_recording::{EntryBuffers, MAX_SEAT, put_entry};
use std::alloc::{AllocError, Global};

/// The most packets of a life that are numbered before those of an entry: 10^18 (this project's choice). No run reaches
/// it.
const MAX_SENT: u64 = 1_000_000_000_000_000_000;

/// Buffers that are used again for each entry. What they hold before or after a call doesn't matter.
#[derive(Drop)]
pub(crate) struct Buffers {
    /// The bytes of a packet.
    pub(crate) row: PacketRow,
    /// What is used to write an entry.
    spelling: EntryBuffers,
    /// The bytes of an entry as it was recorded.
    recorded: Vec<u8>,
    /// Those of it with the due reply.
    due: Vec<u8>,
    /// The lines of a recorded reply.
    lines: Vec<u8>,
}

impl Buffers {
    /// Empty buffers. No memory is allocated.
    pub(crate) fn new(alloc: Global) -> Buffers {
        Buffers {
            row: ArrayVec::new(),
            spelling: EntryBuffers::new(alloc),
            recorded: Vec::new(alloc),
            due: Vec::new(alloc),
            lines: Vec::new(alloc),
        }
    }

    /// The verdict on an entry, by the reply that is due. Both are written as if the clock didn't stand still. The
    /// error, which is that of refused memory, comes too if the seat is above [`MAX_SEAT`], which that of no entry is
    /// that was read.
    #[tactic(auto, unfolding(crate::specs::Meaning::Verdicts::verdict_by))]
    fn judge(
        &mut self,
        seat: usize,
        event: &Event,
        recorded: &Reply,
        due: &Reply,
    ) -> Result<Verdict, NoMemory>
        ensures { IfOk result (λ verdict. verdict ≡ verdict_by (Some due.now) (entry seat event.now recorded.now)) }
    {
        if seat > MAX_SEAT {
            return Err(AllocError);
        }
        self.recorded.clear();
        put_entry(
            seat,
            event,
            recorded,
            0,
            &mut self.spelling,
            &mut self.recorded,
        )?;
        self.due.clear();
        put_entry(seat, event, due, 0, &mut self.spelling, &mut self.due)?;
        if self.recorded.as_slice() == self.due.as_slice() {
            Ok(Verdict::Same)
        } else {
            Ok(Verdict::Differs)
        }
    }

    /// The verdict on an entry, by the reply that is due, if one is.
    pub(crate) fn judge_due(
        &mut self,
        seat: usize,
        event: &Event,
        recorded: &Reply,
        due: &Reply,
        is_due: bool,
    ) -> Result<Verdict, NoMemory>
        ensures { IfOk result (λ verdict. (due_reply : Option Replied) → IsDue is_due due.now due_reply
            → verdict ≡ verdict_by due_reply (entry seat event.now recorded.now)) }
    {
        if is_due {
            self.judge(seat, event, recorded, due)
        } else {
            Ok(Verdict::Unchecked)
        }
    }

    /// Appends to a text the lines of a recorded reply that isn't the due one. Its first packet has the number `first`.
    fn put_recorded_reply(
        &mut self,
        event: &Event,
        first: u64,
        recorded: &Reply,
        text: &mut Vec<u8>,
    ) -> Result<(), NoMemory>
        requires { first + MAX_SENDS < 2 ^ 64 }
        ensures { OnOk result (text.new.items
            ≡ text.old.items ++ differing_text first event.now recorded.now Verdict.Differs) }
    {
        text.extend_from_slice(b"differs\n")?;
        self.lines.clear();
        put_reply(event, first, recorded, &mut self.row, &mut self.lines)?;
        put_recorded(self.lines.as_slice(), text)
    }

    /// Appends to a text the lines of an entry.
    fn put_lines(
        &mut self,
        event: &Event,
        first: u64,
        told: &Reply,
        recorded: &Reply,
        verdict: Verdict,
        text: &mut Vec<u8>,
    ) -> Result<(), NoMemory>
        requires { first + MAX_SENDS < 2 ^ 64 }
        ensures { OnOk result (text.new.items
            ≡ text.old.items ++ event_lines first event.now told.now recorded.now verdict) }
    {
        put_event_line(event, &mut self.row, text)?;
        put_reply(event, first, told, &mut self.row, text)?;
        match verdict {
            Verdict::Differs => self.put_recorded_reply(event, first, recorded, text),
            Verdict::Same | Verdict::Unchecked => Ok(()),
        }
    }

    /// Appends to a text the lines of an entry, if it is told.
    #[tactic(auto, unfolding(crate::specs::Meaning::Entries::entry_lines))]
    pub(crate) fn put_entry_lines(
        &mut self,
        window: &Window,
        event: &Event,
        first: u64,
        told: &Reply,
        recorded: &Reply,
        verdict: Verdict,
        text: &mut Vec<u8>,
    ) -> Result<(), NoMemory>
        requires { first + MAX_SENDS < 2 ^ 64 }
        ensures { OnOk result (text.new.items
            ≡ text.old.items ++ entry_lines window.now first event.now told.now recorded.now verdict) }
    {
        if window.is_told(event, told, recorded) {
            self.put_lines(event, first, told, recorded, verdict, text)
        } else {
            Ok(())
        }
    }
}

/// The reply that is told of an entry: the due one, or the recorded one if none is due.
pub(crate) fn told_reply<'a>(is_due: bool, due: &'a Reply, recorded: &'a Reply) -> &'a Reply
    ensures { (due_reply : Option Replied) → IsDue is_due due.now due_reply
        → result.now ≡ unwrap_or due_reply recorded.now }
{
    if is_due { due } else { recorded }
}

/// Appends to a text the line before an entry from which on nothing can be checked, if it is one: the past was known,
/// and no reply is due.
#[tactic(auto, unfolding(crate::specs::Meaning::Entries::loss_text))]
pub(crate) fn put_loss(
    number: u64,
    was_known: bool,
    is_due: bool,
    text: &mut Vec<u8>,
) -> Result<(), NoMemory>
    ensures { OnOk result (text.new.items ≡ text.old.items ++ lost_text number was_known is_due) }
{
    if was_known && !is_due {
        put_unchecked(number, text)
    } else {
        Ok(())
    }
}

/// The number of the first packet of a reply, by how many were sent before. The error, which is that of refused memory,
/// comes if there are more than [`MAX_SENT`].
pub(crate) fn first_packet(sent: u64) -> Result<u64, NoMemory>
    ensures number { IfOk result (λ first. first ≡ sent + 1) }
    ensures room { IfOk result (λ first. first + MAX_SENDS < 2 ^ 64) }
{
    if sent > MAX_SENT {
        return Err(AllocError);
    }
    Ok(sent + 1)
}

/// The word for a fault.
pub(crate) fn fault_word_of(fault: FieldFault) -> &'static str
    ensures { result.now ≡ fault_word_of fault }
{
    match fault {
        FieldFault::Short => "short",
        FieldFault::Magic => "magic",
        FieldFault::Version => "version",
        FieldFault::Check => "check",
        FieldFault::Number => "number",
        FieldFault::Name => "name",
        FieldFault::Family => "family",
        FieldFault::Kind => "kind",
        FieldFault::Count => "count",
        FieldFault::Packet => "packet",
        FieldFault::Incarnation => "incarnation",
        FieldFault::Trailing => "trailing",
    }
}

/// Appends to a text the line of a fault in place of the entry of a number.
pub(crate) fn put_fault(number: u64, fault: FieldFault, text: &mut Vec<u8>) -> Result<(), NoMemory>
    ensures { OnOk result (text.new.items ≡ text.old.items ++ fault_end_text number (Some fault)) }
{
    text.extend_from_slice(b"fault ")?;
    text.extend_from_slice(fault_word_of(fault).as_bytes())?;
    put_counted(" at entry ", number, text)?;
    text.extend_from_slice(b"\n")?;
    Ok(())
}
