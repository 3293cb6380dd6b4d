//! What is known of the life of a node while its recordings are read.
//!
//! Defined in: `specs/Meaning/Lives.antt`, `specs/Support/Known.antt`.
//! Tested in: `lg_replay_tests/src/lives.rt`.
ghost use Rattle.std.specs.Prelude.{◌≡◌, ◌+◌, IfOk, List, OnOk, Option, length};
ghost use Rattle.lg_detector.specs.declared.event.Event.{Event as Happened};
ghost use Rattle.lg_replay.specs.Meaning.Lives.{Life, due_reply, life_from, past_with, past_to, unknown_life};
ghost use Rattle.lg_replay.specs.Support.Known.{HoldsPast, IsDue, IsKnown};

use lg_detector::{Detector, Event, NoMemory, Reply};
use std::alloc::{AllocError, Global};

/// What is known of a life: the detector behind all that happened, unless some of it is missing, and how many packets
/// were sent.
#[derive(Drop)]
pub struct Known {
    /// The detector behind the events that are known.
    pub detector: Detector,
    /// Whether these are all events since the opening. If they aren't, the detector counts for nothing.
    pub is_known: bool,
    /// How many packets were sent since the life began, as far as they were counted.
    pub(crate) sent: u64,
}

impl Known {
    /// Nothing is known. Allocates a detector; the only error is that memory was refused.
    pub fn new(alloc: Global) -> Result<Known, NoMemory>
        ensures { IfOk result (λ known. IsKnown known unknown_life) }
    {
        let detector = Detector::blank(alloc)?;
        Ok(Known {
            detector,
            is_known: false,
            sent: 0,
        })
    }

    /// Begins a life, of which all is known. Allocates a detector; the only error is that memory was refused.
    fn begin(&mut self, alloc: Global) -> Result<(), NoMemory>
        ensures { OnOk result ((life : Life) → IsKnown self.new (life_from 0 life)) }
    {
        self.detector = Detector::blank(alloc)?;
        self.is_known = true;
        self.sent = 0;
        Ok(())
    }

    /// Goes on with a file whose first entry has this number. With the number 0 a life begins, and a detector is
    /// allocated; the only error is that memory was refused.
    pub fn enter(&mut self, alloc: Global, first: u64) -> Result<(), NoMemory>
        ensures { OnOk result ((life : Life) → IsKnown self.old life → IsKnown self.new (life_from first life)) }
    {
        if first == 0 {
            return self.begin(alloc);
        }
        if self.is_known {
            self.is_known = self.detector.events() == first;
        }
        Ok(())
    }

    /// Lets an event happen, and writes the reply that is due, if one is. If the event isn't accepted behind what is
    /// known, or if nothing is, then nothing is known behind it. Says whether a reply is due.
    pub fn follow(&mut self, event: &Event, reply: &mut Reply) -> bool
        ensures past { (past : Option (List Happened)) → HoldsPast self.old past
            → HoldsPast self.new (past_with past event.now) }
        ensures due { (past : Option (List Happened)) → HoldsPast self.old past
            → IsDue result reply.new (due_reply past event.now) }
        ensures known { result ≡ self.new.is_known }
        ensures sent { self.new.sent ≡ self.old.sent }
    {
        if !self.is_known {
            return false;
        }
        if !self.detector.accepts(event) {
            self.is_known = false;
            return false;
        }
        self.detector.step(event, reply);
        true
    }

    /// Counts the packets of a reply. The error, which is that of refused memory, comes if they are too many for 64
    /// bits, which no run reaches.
    pub(crate) fn count_sent(&mut self, reply: &Reply) -> Result<(), NoMemory>
        ensures count { OnOk result (self.new.sent ≡ self.old.sent + length reply.now.sends.items) }
        ensures past { (past : Option (List Happened)) → HoldsPast self.old past → HoldsPast self.new past }
    {
        let Some(sent) = self.sent.checked_add(reply.sends.len() as u64) else {
            return Err(AllocError);
        };
        self.sent = sent;
        Ok(())
    }
}
