//! What a node wants of a clock.
//!
//! Defined in: this file.
//! Tested in: `lg_node_tests/src/node/clocks.rt`, `lg_node_tests/src/clock.rt`.

use crate::deadline_signal::DeadlineSignal;
use lg_timing::Moment;

/// The two loops of a node.
#[derive(Clone, Copy, Debug, PartialEq, Eq)]
pub enum Loop {
    /// The one that receives datagrams.
    Receiving,
    /// The one that ticks.
    Ticking,
}

/// Gives the moment, and waits.
pub trait Clock {
    /// The current moment.
    fn now(&self) -> Moment;

    /// Waits this many milliseconds.
    fn pause(&self, ms: u64);

    /// Waits this many milliseconds, or less if a clock can: until the signal is told an earlier deadline than this
    /// one.
    fn pause_before(&self, ms: u64, _deadline: u64, _signal: &DeadlineSignal) {
        self.pause(ms);
    }

    /// A loop begins a turn. A clock that leaves out the time in which a loop stands still notes when.
    fn begin_turn(&self, _of: Loop) {}

    /// A loop begins a pause of this many milliseconds. A clock that leaves out the time in which a loop stands still
    /// doesn't take the pause for that.
    fn begin_pause(&self, _of: Loop, _ms: u64) {}

    /// How many milliseconds the clock has left out so far.
    fn stood_still(&self) -> u64 {
        0
    }
}
