//! What is kept where the next entry of a recording stands.
//!
//! Defined in: `specs/Meaning/Places.antt`, `specs/Meaning/Tellings.antt`, `specs/Support/Positions.antt`.
//! Tested in: `lg_explain_tests/src/explaining.rt`.
ghost use Rattle.std.specs.Prelude.{◌≡◌, ◌+◌, ◌||◌, ◌∷◌, IfOk, OnOk, max};
ghost use Rattle.lg_heads.specs.Meaning.Heads.{head_value};
ghost use Rattle.lg_notes.specs.Meaning.Watching.{is_calm};
ghost use Rattle.lg_recording.specs.Meaning.Next.{recorded_in};
ghost use Rattle.lg_explain.specs.Meaning.Places.{FilesRead, begun_from, head_read, nothing_read};
ghost use Rattle.lg_explain.specs.Meaning.Rounds.{recent_rounds};
ghost use Rattle.lg_explain.specs.Meaning.Standstills.{minute_of, stood_at, stood_in_minute};
ghost use Rattle.lg_explain.specs.Support.Positions.{HasFollowed, IsAt, IsBegun, IsHere, KeepsKnown};
ghost use Rattle.lg_explain.specs.Support.Positions.{KeepsRest, HasNoted, HasPassed};

use crate::gathered::Told;
use crate::insights::{insights_at, with_table};
use crate::rounds::{RoundEnd, add_end, recent_rounds};
use crate::standstills::{StoodStill, add_stood, stood_in_minute};
use crate::subject::{CALM, note_subject, wall_of, watch_of_head};
use arrayvec::ArrayVec;
use lg_accounts::Note;
use lg_detector::NoMemory;
use lg_heads::Head;
use lg_notes::{MinuteBefore, NoteSubject, Watch, changes_verdict, steps_of, teller_of};
use lg_recording::Recorded;
use lg_replay::{Known, moment_of_event};
use lg_rules::Name;
use lg_timing::Moment;
use std::alloc::{AllocError, Global};

/// What is kept where the next entry of a recording stands.
#[derive(Drop)]
pub(crate) struct Position {
    /// The detector behind the events before it, if all of them since the opening are known.
    pub(crate) known: Known,
    /// The number of the entry in its life.
    pub(crate) number: u64,
    /// Whether it doesn't go on with the entry before it.
    pub(crate) begins: bool,
    /// The watch of the member before it.
    pub(crate) watch: Watch,
    /// The greatest moment before it, as far back as the entries go on with each other.
    pub(crate) greatest: Moment,
    /// The ends of rounds before it, as far back as they may count, the earliest first.
    pub(crate) ends: Vec<RoundEnd>,
    /// For how long the clock stood still, as entries before it say, as far back as they may count.
    pub(crate) stood: Vec<StoodStill>,
}

/// The next number. The error, which is that of refused memory, comes if it doesn't fit 64 bits, which no recording of
/// a node reaches.
fn one_more(number: u64) -> Result<u64, NoMemory>
    ensures { IfOk result (λ more. more ≡ number + 1) }
{
    number.checked_add(1).ok_or(AllocError)
}

impl Position {
    /// Nothing is known before the first file. Allocates a detector; the only error is that memory was refused.
    pub(crate) fn new(alloc: Global) -> Result<Position, NoMemory>
        ensures { IfOk result (λ position. IsAt position nothing_read) }
    {
        let known = Known::new(alloc)?;
        Ok(Position {
            known,
            number: 0,
            begins: false,
            watch: CALM,
            greatest: Moment::default(),
            ends: Vec::new(alloc),
            stood: Vec::new(alloc),
        })
    }

    /// The next entry doesn't go on with the one before it: the member has this watch then.
    fn begin(&mut self, watch: Watch)
        ensures known { KeepsKnown self.old self.new }
        ensures begun { IsBegun self.new watch }
    {
        self.begins = true;
        self.watch = watch;
        self.greatest = Moment::default();
        self.ends.clear();
        self.stood.clear();
    }

    /// A file follows: the next entry doesn't go on with the one before it, if a life begins with the file, or if some
    /// entries before it are missing.
    fn turn(&mut self, name: &Name, head: &Head<'_>)
        ensures known { KeepsKnown self.old self.new }
        ensures here { (r : FilesRead) → IsAt self.old r
            → IsHere self.new (begun_from name.now (head_value head.entry.now) r) r.entries }
    {
        if head.first == 0 {
            return self.begin(CALM);
        }
        if head.first == self.number {
            return;
        }
        self.begin(watch_of_head(name, &head.before));
    }

    /// Goes on with a file. If a life begins with it, a detector is allocated; the only error is that memory was
    /// refused.
    pub(crate) fn enter(
        &mut self,
        alloc: Global,
        name: &Name,
        head: &Head<'_>,
    ) -> Result<(), NoMemory>
        ensures { OnOk result ((r : FilesRead) → IsAt self.old r
            → IsAt self.new (head_read name.now (head_value head.entry.now) r)) }
    {
        self.turn(name, head);
        self.known.enter(alloc, head.first)?;
        self.number = head.first;
        Ok(())
    }

    /// What was in the minute before an entry, by what is kept and by what the entry says of the clock.
    fn minute_before(&self, moment: Moment, stood_still_ms: u64) -> MinuteBefore
        ensures { result ≡ minute_of (recent_rounds (max self.now.greatest moment) self.now.ends.items)
            (stood_in_minute (max self.now.greatest moment)
            (stood_at (max self.now.greatest moment) stood_still_ms ∷ self.now.stood.items)) }
    {
        let now = self.greatest.later(moment);
        let rounds = recent_rounds(now, self.ends.as_slice());
        MinuteBefore {
            ended: rounds.ended,
            suspected: rounds.suspected,
            stood_still_ms: stood_in_minute(now, stood_still_ms, self.stood.as_slice()),
        }
    }

    /// What an entry tells. Its event happens to the detector.
    fn note(
        &mut self,
        alloc: Global,
        subject: &NoteSubject,
        head: &Head<'_>,
        recorded: &Recorded,
    ) -> Result<Note, NoMemory>
        ensures noted { IfOk result (HasNoted self.old self.new subject.now (head_value head.entry.now)
            (recorded_in recorded.now)) }
        ensures same { KeepsRest self.old self.new }
    {
        let moment = moment_of_event(&recorded.event);
        let minute = self.minute_before(moment, recorded.stood_still_ms);
        let mut table = ArrayVec::new();
        let both = insights_at(&mut self.known, &subject.name, &recorded.event, &mut table);
        let insights = with_table(both, table.as_slice());
        let steps = steps_of(
            alloc,
            subject,
            &self.watch,
            &recorded.event,
            &recorded.reply,
            &insights,
            minute,
        )?;
        Ok(Note {
            entry: self.number,
            moment,
            wall_ms: wall_of(head, moment),
            teller: teller_of(subject, &recorded.event),
            steps,
        })
    }

    /// Whether an episode begins with the next entry.
    fn begins_episode(&self) -> bool
        ensures { result ≡ (self.now.begins || is_calm self.now.watch) }
    {
        self.begins || self.watch.is_calm()
    }

    /// Goes on behind an entry whose event happened to the detector.
    fn pass(&mut self, subject: &NoteSubject, recorded: &Recorded) -> Result<(), NoMemory>
        ensures { OnOk result (HasPassed self.old self.new subject.now (recorded_in recorded.now)) }
    {
        self.greatest = self.greatest.later(moment_of_event(&recorded.event));
        self.watch = self
            .watch
            .behind(subject, self.greatest, &recorded.event, &recorded.reply);
        add_end(&mut self.ends, self.greatest, &recorded.reply)?;
        add_stood(&mut self.stood, self.greatest, recorded.stood_still_ms)?;
        self.number = one_more(self.number)?;
        self.begins = false;
        Ok(())
    }

    /// Goes on behind an entry, and says what it tells. The error, which is that of refused memory, comes too if the
    /// next number doesn't fit 64 bits, which no recording of a node reaches.
    pub(crate) fn follow(
        &mut self,
        alloc: Global,
        name: &Name,
        head: &Head<'_>,
        recorded: &Recorded,
    ) -> Result<Told, NoMemory>
        ensures { IfOk result (HasFollowed self.old self.new name.now (head_value head.entry.now)
            (recorded_in recorded.now)) }
    {
        let subject = note_subject(name, head);
        let begins = self.begins_episode();
        let note = self.note(alloc, &subject, head, recorded)?;
        self.pass(&subject, recorded)?;
        Ok(Told {
            begins,
            is_verdict: changes_verdict(name, &recorded.reply),
            is_known: self.known.is_known,
            note,
        })
    }
}
