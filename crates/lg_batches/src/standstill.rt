//! For how long a clock stood still between takings of entries.
//!
//! Defined in: `specs/Meaning/Standstills.antt`.
//! Tested in: `lg_batches_tests/src/taken.rt`.
ghost use Rattle.std.specs.Prelude.{◌≡◌};
ghost use Rattle.lg_batches.specs.Meaning.Standstills.{never_taken, standstill_behind};

/// For how long a clock stood still between takings of entries. It is noted at each taking, also if there were none.
#[derive(Clone, Copy, Debug)]
pub(crate) struct Standstill {
    /// What the clock had left out when entries were taken last, in milliseconds.
    left_out_ms: u64,
    /// How much of that it left out since entries were taken before those.
    pub(crate) since_ms: u64,
}

impl Standstill {
    /// No entries were taken yet.
    pub(crate) fn new() -> Standstill
        ensures { result ≡ never_taken }
    {
        Standstill {
            left_out_ms: 0,
            since_ms: 0,
        }
    }

    /// What is known once so many entries were taken, when the clock had left out so much.
    pub(crate) fn behind(self, left_out_ms: u64, entries: usize) -> Standstill
        ensures { result ≡ standstill_behind left_out_ms entries self }
    {
        if entries == 0 {
            return self;
        }
        Standstill {
            left_out_ms,
            since_ms: left_out_ms.saturating_sub(self.left_out_ms),
        }
    }
}
