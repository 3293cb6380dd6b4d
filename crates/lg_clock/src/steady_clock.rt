//! The steady clock over the machine's own.
//!
//! Defined in: `specs/Meaning/Steady.antt`.
//! Tested in: `lg_node_tests/src/clock.rt`.

use crate::clock::{Clock, Loop};
use crate::deadline_signal::DeadlineSignal;
use crate::machine::MachineClock;
use crate::steady::Steady;
use lg_timing::Moment;
use std::sync::{Mutex, MutexGuard, Wait};
use std::{io, rt};

/// The machine's clock, which leaves out the time in which one of a node's two loops began no turn, as [`Steady`]
/// says. The loops share it. Each call takes a lock, which is held as long as reading the machine's clock takes. If
/// the machine's clock can't be read, no time has passed.
#[derive(Drop)]
pub struct SteadyClock<'a, R> {
    rt: &'a R,
    machine: MachineClock<'a, R>,
    steady: Mutex<Steady>,
}

impl<'a, R: rt::Clock + Wait> SteadyClock<'a, R> {
    /// A clock that begins at 0, and passes the older of the loops' last turns by at most `stall` milliseconds. A stall
    /// of 0 makes it the machine's clock. The error is that the machine's clock can't be read.
    pub fn new(rt: &'a R, stall: u64) -> io::Result<SteadyClock<'a, R>> {
        Ok(SteadyClock {
            rt,
            machine: MachineClock::new(rt)?,
            steady: Mutex::new(Steady::new(stall)),
        })
    }
}

impl<'a, R: rt::Clock + Wait> Clock for SteadyClock<'a, R> {
    fn now(&self) -> Moment {
        let mut steady = self.steady.lock(self.rt);
        let now = steady.read(self.machine.now());
        MutexGuard::unlock(steady);
        now
    }

    fn pause(&self, ms: u64) {
        self.machine.pause(ms);
    }

    fn pause_before(&self, ms: u64, deadline: u64, signal: &DeadlineSignal) {
        signal.pause(self.rt, ms, deadline);
    }

    fn begin_turn(&self, of: Loop) {
        let mut steady = self.steady.lock(self.rt);
        steady.begin_turn(of, self.machine.now());
        MutexGuard::unlock(steady);
    }

    fn begin_pause(&self, of: Loop, ms: u64) {
        let mut steady = self.steady.lock(self.rt);
        steady.begin_pause(of, ms, self.machine.now());
        MutexGuard::unlock(steady);
    }

    fn stood_still(&self) -> u64 {
        let steady = self.steady.lock(self.rt);
        let ms = steady.stood_still();
        MutexGuard::unlock(steady);
        ms
    }
}
