//! What a rotation hands out: the entries that it cut off, and what is known of those before them.
//!
//! Defined in: `specs/Meaning/Values.antt`, `specs/Meaning/Calls.antt`.
//! Tested in: `lg_agent_tests/src/agent/cutting.rt`.
ghost use Rattle.std.specs.Prelude.{◌≡◌, [], None, Some, IfOk, MatchOption};
ghost use Rattle.lg_agent.specs.Meaning.Values.{nothing_cut_off};

use lg_detector::{Detector, NoMemory, Summary};
use lg_history::{Entry, History};
use std::alloc::Global;
use std::marker::Model;

/// What a rotation hands out by [`Pass::rotate_into`](crate::Pass::rotate_into): the entries that it cut off, a summary
/// of those that were cut off before, if any were, and how many these are. A contract sees it as the record of the
/// three.
///
/// One of them can be handed in again and again. Its list and that of the history are exchanged each time. So behind
/// the first rotation the history's list grows anew, and then no more, as long as no rotation cuts off more entries
/// than those before it. The summary that it was handed is overwritten by the one that the next rotation keeps. So at
/// most its first two rotations allocate one.
#[derive(Drop)]
pub struct CutOff {
    entries: Vec<Entry>,
    before: Option<Summary>,
    base: u64,
    // A summary that counts no more, of which only the memory is kept. A contract doesn't see it.
    spare: Option<Summary>,
}

impl Model for CutOff {
    ghost use Rattle.lg_agent.specs.Meaning.Values.{CutOffValue};

    ghost Value = { CutOffValue };

    ghost view = { λ c. record { entries = c.entries.items; before = c.before; base = c.base } };
}

impl CutOff {
    /// One without entries and without a summary. Allocates nothing.
    pub fn new(alloc: Global) -> CutOff
        ensures { result ≡ nothing_cut_off }
    {
        CutOff {
            entries: Vec::new(alloc),
            before: None,
            base: 0,
            spare: None,
        }
    }

    /// The entries that were cut off, the earliest first.
    pub fn entries(&self) -> &[Entry]
        ensures { result.now ≡ self.now.entries }
    {
        self.entries.as_slice()
    }

    /// The summary of the entries that were cut off before these, if there were any.
    pub fn before(&self) -> Option<&Summary>
        ensures { MatchOption result (self.now.before ≡ None) (λ s. self.now.before ≡ Some s.now) }
    {
        self.before.as_ref()
    }

    /// The position of the first entry in the history: how many entries were cut off before it.
    pub fn base(&self) -> u64
        ensures { result ≡ self.now.base }
    {
        self.base
    }

    /// Drops the entries, and has no summary from then on. Keeps the memory of the list and that of the summary.
    pub fn clear(&mut self)
        ensures { self.new ≡ nothing_cut_off }
    {
        self.entries.clear();
        if let Some(before) = self.before.take() {
            self.spare = Some(before);
        }
        self.base = 0;
    }

    /// A summary of all that happened to a detector, in the memory that is kept for one, or in a new box if none is
    /// kept. The only error is that memory was refused for the box.
    pub(crate) fn summary_of(
        &mut self,
        alloc: Global,
        detector: &Detector,
    ) -> Result<Summary, NoMemory>
        ensures summary { IfOk result (λ s. s ≡ detector.now) }
        ensures same { self.new ≡ self.old }
    {
        match self.spare.take() {
            Some(spare) => {
                let mut summary = spare;
                detector.summary_into(&mut summary);
                Ok(summary)
            }
            None => detector.summary(alloc),
        }
    }

    /// Takes all entries of a history, with the summary and the number of those before them. Drops nothing but what is
    /// prepared, since nothing may be here yet.
    pub(crate) fn fill(&mut self, history: &mut History, before: Option<Summary>, base: u64)
        requires { self.old ≡ nothing_cut_off }
        ensures filled { self.new ≡ record { entries = history.old.entries; before = before; base = base } }
        ensures left { history.new ≡ record { entries = []; prepared = None } }
    {
        history.take_into(&mut self.entries);
        self.before = before;
        self.base = base;
    }
}
