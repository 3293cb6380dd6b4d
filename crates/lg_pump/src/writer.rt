//! The writer that hands texts to a thread, which writes them.
//!
//! Defined in: this file.
//! Tested in: `lg_command_tests/src/pumping.rt`.
use crate::patience::Patience;
use crate::pump::Pump;
use crate::queue::Needs;
use std::alloc::Global;
use std::io;
use std::io::{ErrorKind, Write};
use std::rt::Clock;
use std::sync::atomic::AtomicBool;
use std::sync::{Arc, Wait};

/// A writer whose texts the thread of a pump writes.
///
/// A write takes as much as there is room for, and a flush waits until all is written. Both wait without an end until
/// the writer is told to stop. From then on they wait for [`GRACE_MS`](crate::GRACE_MS) milliseconds in all, and fail
/// with [`ErrorKind::TimedOut`] after that. Once the output has failed, both fail with the kind of its error.
#[derive(Drop)]
pub struct PumpWriter<R> {
    rt: R,
    pump: Arc<Pump, Global>,
    patience: Patience,
}

impl<R> PumpWriter<R> {
    /// A writer of this pump, which is told to stop by this flag.
    pub fn new(rt: R, pump: Arc<Pump, Global>, stop: Arc<AtomicBool, Global>) -> PumpWriter<R> {
        PumpWriter {
            rt,
            pump,
            patience: Patience::new(stop),
        }
    }

    /// Whether a call has failed since the output took nothing for too long, so that texts are cut off.
    pub fn is_cut(&self) -> bool {
        self.patience.is_over()
    }
}

impl<R: Wait + Clock> Write for PumpWriter<R> {
    fn write(&mut self, buf: &[u8]) -> io::Result<usize> {
        self.pump.put(&self.rt, buf, &mut self.patience)
    }

    fn flush(&mut self) -> io::Result<()> {
        self.pump.drain(&self.rt, &mut self.patience)
    }
}
