//! What a member knows of itself.
//!
//! Defined in: `specs/Meaning/Ask.antt`.
//! Tested in: `lg_detector_tests/src/detector/ask.rt`.

use lg_rules::Incarnation;

/// What a member knows of itself after some events.
#[derive(Clone, Copy, Debug, PartialEq, Eq)]
pub struct Standing {
    /// The health score, 0 to the configuration's greatest score (Lifeguard, local health aware probe).
    pub score: u64,
    /// This member's incarnation.
    pub number: Incarnation,
    /// Whether a claim about this member has come, since the opening, that nothing can refute.
    pub ousted: bool,
}
