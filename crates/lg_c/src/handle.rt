//! What C holds of a detector.
//!
//! Defined in: this file.
ghost use Rattle.std.specs.Prelude.{◌≡◌, Some, None, MatchOption, is_some};

use crate::kept::Kept;
use crate::loose::Loose;
use lg_detector::Detector;
use std::alloc::Global;

/// A detector as C holds it: open, or closed. C makes it of zeros, which is closed, and hands its address to each call.
/// It neither reads nor copies it. A contract sees of it the state of its detector, if it is open.
#[repr(C)]
pub struct LgDetector {
    /// Where the detector lies.
    pub(crate) kept: Kept,
    /// Whether it is open.
    pub(crate) is_open: bool,
    ghost told: { is_open ≡ is_some kept.value },
}

/// Nothing is freed: a call closes what it lets go.
impl Drop for LgDetector {
    fn drop(self) {
        let LgDetector { kept, is_open: _ } = self;
        drop(kept);
    }
}

impl LgDetector {
    /// A closed one.
    pub(crate) fn closed() -> LgDetector
        ensures { result.kept.value ≡ None }
    {
        LgDetector {
            kept: Kept::nothing(),
            is_open: false,
        }
    }

    /// An open one, with a detector on the heap.
    pub(crate) fn of(detector: Box<Detector>) -> LgDetector
        ensures { result.kept.value ≡ Some detector.value }
    {
        LgDetector {
            kept: Kept::of(Loose::of(detector)),
            is_open: true,
        }
    }

    /// The detector that it holds, if it is open.
    pub(crate) fn take(self, alloc: Global) -> Option<Box<Detector>>
        ensures { MatchOption self.kept.value (result ≡ None) (λ s. MatchOption result ⊥ (λ b. b.value ≡ s)) }
    {
        let LgDetector { kept, is_open } = self;
        if is_open {
            Some(kept.into_loose(alloc).into_box())
        } else {
            None
        }
    }
}
