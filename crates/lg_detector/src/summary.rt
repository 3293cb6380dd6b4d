//! A summary: what a detector leaves of its past. A detector that is resumed from it goes on as the first one would.
//!
//! Defined in: `specs/Meaning/Step.antt`, `specs/Support/Summary.antt`.
//! Tested in: `lg_detector_tests/src/detector/resuming.rt`.
ghost use Rattle.std.specs.Prelude.{◌≡◌, ◌++◌, List, true, IfOk};
ghost use Rattle.lg_detector.specs.declared.event.Event.{Event as Happened};
ghost use Rattle.lg_detector.specs.Meaning.Step.{is_accepted, reply_after};
ghost use Rattle.lg_detector.specs.Support.State.{State};
ghost use Rattle.lg_detector.specs.Support.Step.{state_after};
ghost use Rattle.lg_detector.specs.Support.Summary.{IsSummary, led_on, answer_from};

use crate::detector::{Detector, NoMemory};
use std::alloc::Global;
use std::marker::Model;

/// A summary of all that happened to a detector. It holds what the definitions read off the list of events, and not the
/// list itself.
///
/// A contract sees it as the state that the events leave.
#[derive(Drop)]
pub struct Summary {
    detector: Detector,
}

impl Model for Summary {
    ghost use Rattle.lg_detector.specs.Support.State.{State};

    ghost Value = { State };

    ghost view = { λ s. s.detector };
}

impl Detector {
    /// A summary of all the events that have come. Allocates one box for it; the only error is that memory was refused.
    pub fn summary(&self, alloc: Global) -> Result<Summary, NoMemory>
        ensures state { IfOk result (λ s. s ≡ self.now) }
        // After a list of events, it is a summary of that list.
        ensures list { (f : List Happened) → self.now ≡ state_after f → IfOk result (λ s. IsSummary s f) }
    {
        Ok(Summary {
            detector: self.copy(alloc)?,
        })
    }

    /// Overwrites a summary by one of all the events that have come to this detector. Allocates nothing, and always
    /// succeeds.
    pub fn summary_into(&self, summary: &mut Summary)
        ensures state { summary.new ≡ self.now }
        // After a list of events, it is a summary of that list.
        ensures list { (f : List Happened) → self.now ≡ state_after f → IsSummary summary.new f }
    {
        self.copy_into(&mut summary.detector);
    }

    /// A detector in the state that the summary has. If the summary is of a list of events, that is the state after the
    /// list. Allocates one box for it; the only error is that memory was refused.
    pub fn resume(alloc: Global, summary: &Summary) -> Result<Detector, NoMemory>
        ensures state { IfOk result (λ d. d ≡ summary.now) }
        ensures list { (f : List Happened) → IsSummary summary.now f → IfOk result (λ d. d ≡ state_after f) }
    {
        summary.detector.copy(alloc)
    }
}

/// The law by itself: a summary of a list of events advances as the list does, and gives the replies that the
/// definitions give after the whole list.
pub fn summaries_lead_on()
    ensures state { (s : State) (f g : List Happened) → IsSummary s f → is_accepted (f ++ g) ≡ true
        → led_on s g ≡ state_after (f ++ g) }
    ensures reply { (s : State) (f g : List Happened) (e : Happened) → IsSummary s f → is_accepted (f ++ g) ≡ true
        → answer_from s g e ≡ reply_after (f ++ g) e }
{}
