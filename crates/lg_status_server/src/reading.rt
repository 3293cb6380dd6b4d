//! What is read of a node's clock and of its counters, and how a snapshot shows it.
//!
//! Defined in: `specs/Meaning/Readings.antt`, `specs/Support/Showing.antt`.
//! Tested in: `lg_answers_tests/src/showing.rt`.
ghost use Rattle.std.specs.Prelude.{◌≡◌, length};
ghost use Rattle.lg_counters.specs.Meaning.Faults.{AreOfFaults};
ghost use Rattle.lg_status_server.specs.Meaning.Readings.{HasRead, uptime_of};
ghost use Rattle.lg_status_server.specs.Support.Showing.{SameLook};

use lg_answers::Snapshot;
use lg_clock::Clock;
use lg_counters::{Counters, Counts, Drops};
use lg_timing::Moment;

/// What was read of a node's clock and of its counters, one behind the other.
#[derive(Clone, Copy, Debug)]
pub(crate) struct Reading {
    /// The moment.
    pub(crate) moment: Moment,
    /// How long the node stood still, in milliseconds.
    pub(crate) stood_still_ms: u64,
    /// The moment of the last event, in milliseconds.
    pub(crate) last_event_ms: u64,
    /// What the node counted.
    pub(crate) counts: Counts,
}

impl Reading {
    /// Reads the clock and the counters. No contract says what they show: other threads write them meanwhile.
    pub(crate) fn of<C: Clock>(clock: &C, counters: &Counters) -> Reading {
        Reading {
            moment: clock.now(),
            stood_still_ms: clock.stood_still(),
            last_event_ms: counters.last_event(),
            counts: counters.counts(),
        }
    }

    /// How long the node has run, in milliseconds, the time in which it stood still too.
    pub(crate) fn uptime_ms(&self) -> u64
        ensures { result ≡ uptime_of self.now }
    {
        self.moment
            .milliseconds()
            .saturating_add(self.stood_still_ms)
    }

    /// Puts what was read into a snapshot, with how many datagrams were dropped for each fault.
    pub(crate) fn put(&self, drops: &[Drops], snapshot: &mut Snapshot)
        requires faults { AreOfFaults drops.now }
        requires rows { length drops.now ≡ length snapshot.old.dropped.items }
        ensures same { SameLook snapshot.old snapshot.new }
        ensures read { HasRead snapshot.new self.now }
        ensures dropped { snapshot.new.dropped.items ≡ drops.now }
    {
        snapshot.moment = self.moment;
        snapshot.stood_still_ms = self.stood_still_ms;
        snapshot.uptime_ms = self.uptime_ms();
        snapshot.last_event_ms = self.last_event_ms;
        snapshot.counts = self.counts;
        snapshot.dropped.copy_from_slice(drops);
    }
}
