//! Replays the files of recordings, one after another.
//!
//! Defined in: `specs/Meaning/Files.antt`, `specs/Meaning/Replays.antt`, `specs/Support/Replayed.antt`.
//! Tested in: `lg_replay_tests/src/lives.rt`.
ghost use Rattle.std.specs.Prelude.{◌≡◌, ◌++◌, ◌∷◌, ◌==◌, ◌||◌, ◌&&◌, not, [], IfOk, List, OnOk, Option};
ghost use Rattle.lg_heads.specs.Meaning.Heads.{head_value};
ghost use Rattle.lg_recording.specs.Meaning.Next.{entry_in};
ghost use Rattle.lg_recording.specs.Meaning.Listing.{entries_scan};
ghost use Rattle.lg_replay.specs.Meaning.Files.{RecordingFile, file_text, headless_line};
ghost use Rattle.lg_replay.specs.Meaning.Lives.{Life, unknown_life};
ghost use Rattle.lg_replay.specs.Meaning.Replays.{all_verdicts, breaks_off, is_broken, lives_over, replay_end};
ghost use Rattle.lg_replay.specs.Meaning.Verdicts.{counts_line, counts_of};
ghost use Rattle.lg_replay.specs.Support.Replayed.{HasCome, IsReplayed, KeepsNotes, Noted, RanEntries, RanEntry};
ghost use Rattle.lg_replay.specs.Support.Replayed.{RanFile, RanRead, ReadsNext};
ghost use Rattle.lg_replay.specs.declared.verdict.Verdict.{Verdict as Judged};

use crate::counts::{ReplayCounts, one_more};
use crate::end::ReplayEnd;
use crate::entries::{Buffers, first_packet, put_fault, put_loss, told_reply};
use crate::files::{put_gap, put_head_line, put_headless_line};
use crate::head::read_file_head;
use crate::known::Known;
use crate::window::Window;
use lg_detector::{NoMemory, Reply};
use lg_fields::{FieldFault, FieldReader};
use lg_heads::{Head, HeadFault};
use lg_recording::{Entries, Recorded};
use std::alloc::{AllocError, Global};

/// What a replay of recordings knows behind some files.
#[derive(Drop)]
pub struct Replayer {
    /// What is known of the life.
    pub(crate) known: Known,
    /// How many entries there were, and the verdicts on them.
    pub(crate) counts: ReplayCounts,
    /// Whether something is wrong with a file.
    pub(crate) is_amiss: bool,
    /// Whether the last file breaks off.
    pub(crate) is_torn: bool,
    /// The due reply, if there is one.
    reply: Reply,
    /// What is used again for each entry.
    buffers: Buffers,
}

/// Whether a file breaks off at a fault: the last chunk isn't there whole.
fn breaks_off(fault: Option<FieldFault>) -> bool
    ensures { result ≡ breaks_off fault }
{
    matches!(fault, Some(FieldFault::Short))
}

/// Whether something else is wrong with a file.
fn is_broken(fault: Option<FieldFault>) -> bool
    ensures { result ≡ is_broken fault }
{
    match fault {
        None | Some(FieldFault::Short) => false,
        Some(_) => true,
    }
}

/// Reads the next entry, if one is left. The error is the fault at which the entries end. `bytes` are those that are
/// left: so the proof knows that they are bytes.
pub fn next_of(entries: &mut Entries<'_>, bytes: &[u8]) -> Result<Option<Recorded>, FieldFault>
    requires { bytes.now ≡ entries.old.rest.now }
    ensures { ReadsNext entries.old.rest.now entries.new.rest.now result }
{
    let _ = bytes;
    match entries.next_entry() {
        None => Ok(None),
        Some(Ok(recorded)) => Ok(Some(recorded)),
        Some(Err(fault)) => Err(fault),
    }
}

impl Replayer {
    /// A replayer that has seen no file. It allocates a detector; the only error is that memory was refused.
    pub fn new(alloc: Global) -> Result<Replayer, NoMemory>
        ensures { IfOk result (λ replayer. IsReplayed replayer []) }
    {
        let known = Known::new(alloc)?;
        Ok(Replayer {
            known,
            counts: ReplayCounts::new(),
            is_amiss: false,
            is_torn: false,
            reply: Reply::default(),
            buffers: Buffers::new(alloc),
        })
    }

    /// Goes through an entry, and appends to a text what is told of it.
    fn replay_entry(
        &mut self,
        recorded: &Recorded,
        number: u64,
        window: &Window,
        text: &mut Vec<u8>,
    ) -> Result<(), NoMemory>
        ensures ran { OnOk result ((life : Life) (verdicts : List Judged) → HasCome self.old life verdicts
            → RanEntry self.new text.old.items text.new.items window.now number
            (entry_in recorded.now) life verdicts) }
        ensures notes { OnOk result (KeepsNotes self.old self.new) }
    {
        let was_known = self.known.is_known;
        let is_due = self.known.follow(&recorded.event, &mut self.reply);
        put_loss(number, was_known, is_due, text)?;
        let verdict = self.buffers.judge_due(
            recorded.seat,
            &recorded.event,
            &recorded.reply,
            &self.reply,
            is_due,
        )?;
        let first = first_packet(self.known.sent)?;
        let told = told_reply(is_due, &self.reply, &recorded.reply);
        self.buffers.put_entry_lines(
            window,
            &recorded.event,
            first,
            told,
            &recorded.reply,
            verdict,
            text,
        )?;
        self.known.count_sent(told)?;
        self.counts.add(verdict)?;
        Ok(())
    }

    /// Goes through the entries of a file, of which the first has the number `first`, and appends to a text what is
    /// told of them. Gives the fault at which they end, if there is one.
    fn replay_entries(
        &mut self,
        first: u64,
        reader: &mut Entries<'_>,
        window: &Window,
        text: &mut Vec<u8>,
    ) -> Result<Option<FieldFault>, NoMemory>
        ensures ran { OnOk result ((life : Life) (verdicts : List Judged) → HasCome self.old life verdicts
            → RanEntries self.new text.old.items text.new.items window.now first reader.old.rest.now life
            verdicts) }
        ensures fault { IfOk result (λ fault. fault ≡ (entries_scan reader.old.rest.now).fault) }
        ensures notes { OnOk result (KeepsNotes self.old self.new) }
    {
        let mut number = first;
        'entries: loop {
            let bytes = reader.rest;
            match next_of(reader, bytes) {
                Ok(None) => return Ok(None),
                Ok(Some(recorded)) => self.replay_entry(&recorded, number, window, text)?,
                Err(fault) => {
                    put_fault(number, fault, text)?;
                    return Ok(Some(fault));
                }
            }
            number = one_more(number)?;
        }
    }

    /// Notes a file by the fault at which it ends, if there is one, and by whether a life begins with it.
    fn note(&mut self, begins: bool, fault: Option<FieldFault>)
        ensures noted { Noted self.old self.new begins fault }
        ensures come { (life : Life) (verdicts : List Judged) → HasCome self.old life verdicts
            → HasCome self.new life verdicts }
    {
        self.is_amiss = self.is_amiss || (self.is_torn && !begins) || is_broken(fault);
        self.is_torn = breaks_off(fault);
    }

    /// Goes through a file whose head was read, by its number, and appends to a text what is told of it.
    fn replay_read(
        &mut self,
        alloc: Global,
        number: u64,
        head: &Head<'_>,
        rest: &[u8],
        window: &Window,
        text: &mut Vec<u8>,
    ) -> Result<(), NoMemory>
        ensures { OnOk result (RanRead self.old self.new text.old.items text.new.items window.now number (record {
          head = head_value head.entry.now;
          entries = (entries_scan rest.now).entries;
          fault = (entries_scan rest.now).fault;
        })) }
    {
        put_head_line(number, head, text)?;
        self.known.enter(alloc, head.first)?;
        put_gap(head.first, self.known.is_known, text)?;
        let mut entries = Entries { rest };
        let fault = self.replay_entries(head.first, &mut entries, window, text)?;
        self.note(head.first == 0, fault);
        Ok(())
    }

    /// Replays a file of a recording behind those before it, and appends to a text what is told of it: by its number
    /// and its bytes. The numbers only stand in the text: the files have to be given in their order.
    ///
    /// If a life begins with the file, a detector is allocated, and else the table of its head, for this moment. Beside
    /// these only the text and some buffers may grow. Time is in proportion to the bytes, and to what the detector
    /// needs for their events.
    ///
    /// The error is that memory was refused. It comes too if a number doesn't fit 64 bits, which no recording of a node
    /// reaches: that of an entry, or that of a packet, of which at most 10^18 are numbered. The text may have grown
    /// then, and the replayer is of no use any more.
    pub fn replay_file(
        &mut self,
        alloc: Global,
        number: u64,
        bytes: &[u8],
        window: &Window,
        text: &mut Vec<u8>,
    ) -> Result<(), NoMemory>
        ensures { OnOk result ((files : List RecordingFile) → IsReplayed self.old files
            → RanFile self.new text.old.items text.new.items window.now files
            (record { number = number; bytes = bytes.now })) }
    {
        let mut reader = FieldReader { rest: bytes };
        match read_file_head(alloc, &mut reader) {
            Ok(head) => self.replay_read(alloc, number, &head, reader.rest, window, text),
            Err(HeadFault::NoMemory) => Err(AllocError),
            Err(HeadFault::Field(fault)) => {
                put_headless_line(number, fault, text)?;
                self.note(false, Some(fault));
                Ok(())
            }
        }
    }

    /// How many entries there were, and the verdicts on them.
    pub fn counts(&self) -> ReplayCounts
        ensures { (files : List RecordingFile) → IsReplayed self.now files
            → result ≡ counts_of (all_verdicts unknown_life files) }
    {
        self.counts
    }

    /// Appends the last line to a text, and says how the replay ends. The only error is that memory was refused.
    pub fn finish(&self, text: &mut Vec<u8>) -> Result<ReplayEnd, NoMemory>
        ensures text { OnOk result ((files : List RecordingFile) → IsReplayed self.now files
            → text.new.items ≡ text.old.items ++ counts_line (all_verdicts unknown_life files)) }
        ensures end { IfOk result (λ end. (files : List RecordingFile) → IsReplayed self.now files
            → end ≡ replay_end files) }
    {
        self.counts.put_line(text)?;
        if self.counts.differing > 0 || self.is_amiss {
            return Ok(ReplayEnd::Faulty);
        }
        if self.counts.unchecked > 0 {
            return Ok(ReplayEnd::Unchecked);
        }
        Ok(ReplayEnd::Done)
    }
}
