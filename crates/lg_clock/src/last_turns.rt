//! The last turns of a node's loops.
//!
//! Defined in: `specs/Meaning/Steady.antt`, `specs/Support/Steady.antt`.
//! Tested in: `lg_node_tests/src/clock.rt`.
ghost use Rattle.std.specs.Prelude.{◌≡◌};
ghost use Rattle.lg_clock.specs.Meaning.Steady.{older_turn, pause_end};
ghost use Rattle.lg_clock.specs.Support.Steady.{turns_with};

use crate::clock::Loop;
use lg_timing::Moment;

/// The longest time for which a pause counts, in milliseconds: an hour (this project's choice).
const LONGEST_PAUSE_MS: u64 = 3_600_000;

/// When a pause ends that begins at a moment and lasts so many milliseconds. One that lasts longer than an hour counts
/// as an hour.
pub(crate) fn pause_end(now: Moment, ms: u64) -> u64
    ensures { result ≡ pause_end now ms }
{
    now.milliseconds() + ms.min(LONGEST_PAUSE_MS)
}

/// The last turn of each loop of a node, in milliseconds: when it last began one, by a steady clock. If it has begun a
/// pause since, it is when that ends.
#[derive(Clone, Copy, Debug)]
pub(crate) struct LastTurns {
    receiving: u64,
    ticking: u64,
}

impl LastTurns {
    /// The last turns once this is the last turn of a loop. The first one of either loop is taken as that of both.
    pub(crate) fn after(turns: Option<LastTurns>, of: Loop, last: u64) -> LastTurns
        ensures { result ≡ turns_with last of turns }
    {
        match (turns, of) {
            (None, _) => LastTurns {
                receiving: last,
                ticking: last,
            },
            (Some(turns), Loop::Receiving) => LastTurns {
                receiving: last,
                ..turns
            },
            (Some(turns), Loop::Ticking) => LastTurns {
                ticking: last,
                ..turns
            },
        }
    }

    /// The older of the two, in milliseconds.
    pub(crate) fn older(&self) -> u64
        ensures { result ≡ older_turn self.now }
    {
        self.receiving.min(self.ticking)
    }
}
