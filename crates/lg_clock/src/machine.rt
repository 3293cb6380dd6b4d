//! The machine's clock.
//!
//! Defined in: this file.
//! Tested in: `lg_node_tests/src/node/machine.rt`.

use crate::clock::Clock;
use lg_timing::{MAX_MOMENT, Moment};
use std::sync::atomic::AtomicU64;
use std::sync::atomic::Ordering::SeqCst;
use std::time::{Duration, Instant};
use std::{io, rt, thread};

/// The machine's clock, which counts milliseconds from when it was made. If it can't be read, it stays at the moment
/// that was read last.
#[derive(Drop)]
pub struct MachineClock<'a, R> {
    rt: &'a R,
    start: Instant,
    /// The moment that was read last, in milliseconds.
    last: AtomicU64,
}

impl<'a, R: rt::Clock> MachineClock<'a, R> {
    /// A clock that begins at 0. The error is that the machine's clock can't be read.
    pub fn new(rt: &'a R) -> io::Result<MachineClock<'a, R>> {
        Ok(MachineClock {
            rt,
            start: Instant::now(rt)?,
            last: AtomicU64::new(0),
        })
    }
}

impl<'a, R: rt::Clock> Clock for MachineClock<'a, R> {
    fn now(&self) -> Moment {
        let read = match self.start.elapsed(self.rt) {
            Ok(passed) => u64::try_from(passed.as_millis()).unwrap_or(MAX_MOMENT),
            Err(_) => self.last.load(SeqCst),
        };
        self.last.store(read, SeqCst);
        Moment::new(read.min(MAX_MOMENT)).unwrap_or_default()
    }

    fn pause(&self, ms: u64) {
        thread::sleep(self.rt, Duration::from_millis(ms));
    }
}
