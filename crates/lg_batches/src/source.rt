//! The entries of a node, as a recorder writes them.
//!
//! Defined in: `specs/Meaning/Sources.antt`, `specs/Meaning/Standstills.antt`.
//! Tested in: `lg_batches_tests/src/taken.rt`.
ghost use Rattle.std.specs.Prelude.{◌≡◌, IfOk};
ghost use Rattle.lg_agent.specs.Meaning.Values.{nothing_cut_off};
ghost use Rattle.lg_heads.specs.Meaning.Heads.{maybe_before, head_value};
ghost use Rattle.lg_batches.specs.Meaning.Sources.{head_of_cut, known_before};

use crate::standstill::Standstill;
use lg_agent::{AgentName, CutOff, Pass};
use lg_clock::Clock;
use lg_detector::{Detector, Reply};
use lg_heads::{Before, Head, put_head};
use lg_recorder::{Batch, BatchSource};
use lg_recording::{EntryBuffers, MAX_SEAT, put_entry};
use lg_timing::{Config, Moment};
use std::alloc::{AllocError, Global};
use std::rt;
use std::sync::Wait;
use std::time::{SystemTime, UNIX_EPOCH};

/// Whose node is recorded.
#[derive(Clone, Copy, Debug)]
pub struct Subject<'n> {
    /// The configuration with which its detector was opened.
    pub config: &'n Config,
    /// The bytes of its configuration file. There are none if it had no file.
    pub text: &'n [u8],
    /// The version of its program, such as `0.9.0`.
    pub program: &'n [u8],
}

/// The entries that were taken last from the pass of a node, and what a file says before them.
#[derive(Drop)]
pub struct EntrySource<'n, R, C> {
    rt: &'n R,
    alloc: Global,
    clock: &'n C,
    subject: Subject<'n>,
    cut: CutOff,
    /// The moment of the node's clock at which they were taken.
    moment: Moment,
    /// The wall time then, in milliseconds since the beginning of 1970 in UTC.
    wall_ms: u64,
    /// For how long the clock stood still by then.
    standstill: Standstill,
}

/// What an entry is written with: its reply, which has room for any, and the buffers of its bytes. They are kept from
/// one entry to the next, since a reply takes some 12 KB.
#[derive(Drop)]
pub struct EntryParts {
    buffers: EntryBuffers,
    reply: Reply,
}

/// The wall time in milliseconds since the beginning of 1970 in UTC, or 0 if it can't be read. No contract says what a
/// clock shows.
fn wall_time<R: rt::Clock>(rt: &R) -> u64 {
    let Ok(now) = SystemTime::now(rt) else {
        return 0;
    };
    match now.duration_since(UNIX_EPOCH) {
        Ok(passed) => u64::try_from(passed.as_millis()).unwrap_or(0),
        Err(_) => 0,
    }
}

/// What was known before entries that were cut off, if others were cut off before them. It allocates a detector for
/// this moment, and the list of the records. The error is that memory was refused.
fn known_before(alloc: Global, cut: &CutOff) -> Result<Option<Before>, AllocError>
    ensures { IfOk result (λ before. maybe_before before ≡ known_before cut.now.before) }
{
    let Some(summary) = cut.before() else {
        return Ok(None);
    };
    let detector = Detector::resume(alloc, summary)?;
    Ok(Some(Before {
        standing: detector.standing(),
        table: detector.table(alloc)?,
    }))
}

impl<'n, R: rt::Clock, C: Clock> EntrySource<'n, R, C> {
    /// A source for the node of this subject. It has taken nothing yet. Allocates nothing.
    pub fn new(
        rt: &'n R,
        alloc: Global,
        clock: &'n C,
        subject: Subject<'n>,
    ) -> EntrySource<'n, R, C>
        ensures cut { result.cut ≡ nothing_cut_off }
        ensures subject { result.subject ≡ subject.entry }
    {
        EntrySource {
            rt,
            alloc,
            clock,
            subject,
            cut: CutOff::new(alloc),
            moment: clock.now(),
            wall_ms: wall_time(rt),
            standstill: Standstill::new(),
        }
    }

    /// What the head says of a file that begins with the entries that were taken last. The error is that memory was
    /// refused.
    fn head(&self) -> Result<Head<'n>, AllocError>
        ensures { IfOk result (λ head. head_value head ≡ head_of_cut (record {
          config = self.now.subject.config.now;
          text = self.now.subject.text.now;
          program = self.now.subject.program.now;
        }) self.now.wall_ms self.now.moment self.now.cut) }
    {
        let config = self.subject.config;
        Ok(Head {
            name: config.name,
            config: config.copy(),
            text: self.subject.text,
            program: self.subject.program,
            wall_ms: self.wall_ms,
            now: self.moment,
            first: self.cut.base(),
            before: known_before(self.alloc, &self.cut)?,
        })
    }
}

impl<'n, R: rt::Clock, C: Clock> Batch for EntrySource<'n, R, C> {
    ghost use Rattle.lg_batches.specs.Meaning.Sources.{batch_of};

    ghost batch = { λ s. batch_of (record {
      config = s.subject.config.now;
      text = s.subject.text.now;
      program = s.subject.program.now;
    }) s.wall_ms s.moment s.standstill.since_ms s.cut };

    type Buffers = EntryParts;

    fn first(&self) -> u64 {
        self.cut.base()
    }

    fn len(&self) -> usize {
        self.cut.entries().len()
    }

    /// It allocates a detector and a list of records for this moment, if entries were cut off before.
    fn put_head(&self, text: &mut Vec<u8>) -> Result<(), AllocError> {
        let head = self.head()?;
        let mut body = Vec::new(self.alloc);
        put_head(&head, &mut body, text)
    }

    fn buffers(&self) -> EntryParts {
        EntryParts {
            buffers: EntryBuffers::new(self.alloc),
            reply: Reply::default(),
        }
    }

    fn put_entry(
        &self,
        index: usize,
        parts: &mut EntryParts,
        text: &mut Vec<u8>,
    ) -> Result<(), AllocError> {
        let entry = &self.cut.entries()[index];
        let seat = entry.seat().min(MAX_SEAT);
        let stood_still_ms = if index == 0 {
            self.standstill.since_ms
        } else {
            0
        };
        entry.reply_into(&mut parts.reply);
        put_entry(
            seat,
            &entry.event(),
            &parts.reply,
            stood_still_ms,
            &mut parts.buffers,
            text,
        )
    }
}

impl<'n, 'p, A: AgentName, R: Wait + rt::Clock, C: Clock> BatchSource<Pass<'p, A>>
    for EntrySource<'n, R, C> {
    ghost use Rattle.lg_turns.specs.Meaning.Recorders.{OnlyRotated};
    ghost use Rattle.lg_batches.specs.Meaning.Sources.{IsTaking};
    ghost use Rattle.lg_batches.specs.Support.SourceLaws.{rotated_none, rotated_twice};

    ghost took = { OnlyRotated };

    ghost taking = { IsTaking A.places };

    /// It takes them by a rotation, and notes when, and for how long the clock stood still. The only reason that it
    /// can't is refused memory.
    fn take(&mut self, pass: &mut Pass<'p, A>) -> bool {
        if pass
            .rotate_into(self.rt, self.alloc, &mut self.cut)
            .is_err()
        {
            return false;
        }
        self.moment = self.clock.now();
        self.wall_ms = wall_time(self.rt);
        let entries = self.cut.entries().len();
        self.standstill = self.standstill.behind(self.clock.stood_still(), entries);
        true
    }

    ghost took_nothing = { rotated_none };

    ghost took_twice = { rotated_twice };
}
