//! A detector that hears what rotations handed out, one after the other, and has to give the same replies.
use lg_agent::CutOff;
use lg_detector::{Detector, Reply};
use lg_detector_testing::is_same_reply;
use lg_history::Entry;
use std::alloc::Global;

/// A detector, with how many entries it has heard, and whether one of them has another reply than the detector gave.
#[derive(Drop)]
pub struct Replayed {
    detector: Detector,
    reply: Reply,
    count: u64,
    differs: bool,
}

impl Replayed {
    /// A fresh detector. None if memory was refused.
    pub fn fresh(alloc: Global) -> Option<Replayed> {
        let detector = Detector::blank(alloc).ok()?;
        Some(Replayed::by(detector, 0))
    }

    /// A detector that has heard this many entries.
    fn by(detector: Detector, count: u64) -> Replayed {
        Replayed {
            detector,
            reply: Reply::default(),
            count,
            differs: false,
        }
    }

    /// How many entries it has heard. None if one of them has another reply than the detector gave.
    pub fn count(&self) -> Option<u64> {
        if self.differs { None } else { Some(self.count) }
    }

    /// Hears the entries that come next.
    pub fn hear(&mut self, entries: &[Entry]) {
        for entry in entries {
            let event = entry.event();
            if !self.detector.accepts(&event) {
                self.differs = true;
                break;
            }
            self.detector.step(&event, &mut self.reply);
            if !is_same_reply(&self.reply, &entry.reply()) {
                self.differs = true;
            }
            self.count = self.count.wrapping_add(1);
        }
    }

    /// Hears what was handed out. That has to begin behind what was heard, and has to have a summary if anything was. A
    /// detector that is resumed from the summary has to give the same replies.
    pub fn hear_next(&mut self, alloc: Global, cut: &CutOff) {
        let follows = cut.base() == self.count && cut.before().is_some() == (self.count > 0);
        if !follows || !leads_on(alloc, cut) {
            self.differs = true;
        }
        self.hear(cut.entries());
    }
}

/// Whether a detector that is resumed from the summary, if there is one, gives the replies that were handed out.
fn leads_on(alloc: Global, cut: &CutOff) -> bool {
    let Some(summary) = cut.before() else {
        return true;
    };
    let Ok(detector) = Detector::resume(alloc, summary) else {
        return false;
    };
    let mut resumed = Replayed::by(detector, cut.base());
    resumed.hear(cut.entries());
    resumed.count().is_some()
}
