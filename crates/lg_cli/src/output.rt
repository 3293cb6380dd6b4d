//! Standard output, as the commands write it.
//!
//! Defined in: this file.
//! Tested in: `cases/node_command.case`, `cases/nodes`.
use lg_pump::{Pump, PumpWriter};
use std::alloc::{AllocError, Global};
use std::io::Write;
use std::rt::Clock;
use std::sync::atomic::AtomicBool;
use std::sync::{Arc, OnceLock, Wait};
use std::thread::Threads;
use std::{io, thread};

/// An output that can be written by a thread of its own from some moment on.
pub trait Pumped {
    /// From now on what the output is handed goes through this pump, and a reader that takes nothing holds the writer
    /// for at most [`GRACE_MS`](lg_pump::GRACE_MS) once this flag is set. An output that is pumped already stays as it
    /// is.
    fn pump_by(&self, pump: Arc<Pump, Global>, stop: Arc<AtomicBool, Global>);
}

/// An output, which is written at once until it is pumped.
#[derive(Drop)]
pub struct Output<M, O> {
    rt: M,
    out: O,
    pumped: OnceLock<PumpWriter<M>>,
}

impl<M, O> Output<M, O> {
    /// An output that isn't pumped.
    pub fn new(rt: M, out: O) -> Output<M, O> {
        Output {
            rt,
            out,
            pumped: OnceLock::new(),
        }
    }

    /// Whether texts are cut off: it is pumped, and took nothing for too long after the program was to end.
    pub fn is_cut(&self) -> bool {
        self.pumped.get().is_some_and(PumpWriter::is_cut)
    }
}

impl<M: Wait + Clock, O: Write> Write for Output<M, O> {
    fn write(&mut self, buf: &[u8]) -> io::Result<usize> {
        match self.pumped.get_mut() {
            Some(pumped) => pumped.write(buf),
            None => self.out.write(buf),
        }
    }

    fn flush(&mut self) -> io::Result<()> {
        match self.pumped.get_mut() {
            Some(pumped) => pumped.flush(),
            None => self.out.flush(),
        }
    }
}

impl<M: Copy + Drop, O> Pumped for Output<M, O> {
    fn pump_by(&self, pump: Arc<Pump, Global>, stop: Arc<AtomicBool, Global>) {
        let _ = self.pumped.try_set(PumpWriter::new(self.rt, pump, stop));
    }
}

/// Lets a thread write what an output is handed from now on, to the output that is given. The flag tells the writer to
/// stop.
///
/// The thread isn't joined. It is cut off when the program ends. Memory is allocated for what is yet to be written. The
/// error is that memory or a thread was refused; then nothing has changed.
pub fn start_pump<M, O, W>(
    rt: &M,
    alloc: Global,
    out: O,
    writer: &W,
    stop: &Arc<AtomicBool, Global>,
) -> Result<(), AllocError>
where
    M: Threads + Wait + Copy + Send + 'static,
    O: Write + Send + Drop + 'static,
    W: Pumped,
{
    let pump = Arc::new(alloc, Pump::new(alloc)?)?;
    let theirs = Arc::try_clone(&pump)?;
    let flag = Arc::try_clone(stop)?;
    let (handle, mut out) = (*rt, out);
    thread::spawn(rt, move || theirs.run(&handle, &mut out))?;
    writer.pump_by(pump, flag);
    Ok(())
}
