//! How long a writer waits for an output that takes nothing.
//!
//! Defined in: this file.
//! Tested in: `lg_command_tests/src/pumping.rt`.
use std::alloc::Global;
use std::io;
use std::rt::Clock;
use std::sync::Arc;
use std::sync::atomic::AtomicBool;
use std::sync::atomic::Ordering::SeqCst;
use std::time::{Duration, Instant};

/// How long a writer waits for its output once it was told to stop, in milliseconds (this project's choice).
pub const GRACE_MS: u64 = 1_800;

/// How often a writer that waits looks whether it was told to stop, in milliseconds (this project's choice).
const LOOK_MS: u64 = 100;

/// How long a writer waits: without an end until a flag is set, and [`GRACE_MS`] from then on, over all of its calls.
/// On a busy machine each look is late, so it is the clock that counts, and not how often it looked.
#[derive(Drop)]
pub(crate) struct Patience {
    stop: Arc<AtomicBool, Global>,
    /// For how long it has waited since the flag was set.
    waited: Duration,
}

impl Patience {
    /// The patience of a writer that this flag tells to stop.
    pub(crate) fn new(stop: Arc<AtomicBool, Global>) -> Patience {
        Patience {
            stop,
            waited: Duration::ZERO,
        }
    }

    /// How long it waits until it looks at the flag.
    pub(crate) fn look(&self) -> Duration {
        Duration::from_millis(LOOK_MS)
    }

    /// It waited for one look from this time on, in vain. Gives whether it waits no longer. If the machine doesn't tell
    /// the time, the look counts for as long as it should have taken.
    pub(crate) fn tire<R: Clock>(&mut self, rt: &R, begun: io::Result<Instant>) -> bool {
        if self.stop.load(SeqCst) {
            let took = match begun {
                Ok(begun) => begun.elapsed(rt).unwrap_or(self.look()),
                Err(_) => self.look(),
            };
            self.waited = self.waited.saturating_add(took);
        }
        self.is_over()
    }

    /// Whether it waits no longer.
    pub(crate) fn is_over(&self) -> bool {
        self.waited.as_millis() >= u128::from(GRACE_MS)
    }
}
