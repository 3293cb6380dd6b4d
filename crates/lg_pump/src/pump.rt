//! What a thread that writes an output shares with the writer whose texts it writes.
//!
//! Defined in: `specs/Meaning/Handing.antt`.
//! Tested in: `lg_command_tests/src/pumping.rt`.
ghost use Rattle.std.specs.Prelude.{◌≤◌, IfOk, OnOk, length};
ghost use Rattle.std.specs.Io.KnownBytes.{Appends};

use crate::patience::Patience;
use crate::pieces::MAX_PIECE;
use crate::queue::{Needs, Queue};
use std::alloc::{AllocError, Global};
use std::io;
use std::io::{ErrorKind, Write};
use std::rt::Clock;
use std::sync::{Condvar, Mutex, MutexGuard, Wait};
use std::time::Instant;

/// What is handed over, and yet to be written by a thread of its own.
#[derive(Drop)]
pub struct Pump {
    queue: Mutex<Queue>,
    /// Told whenever the queue has changed.
    changed: Condvar,
}

/// Writes a piece whole. The error is the kind of the output's.
fn write_piece<O: Write>(out: &mut O, piece: &[u8]) -> Result<(), ErrorKind>
    ensures { OnOk result (Appends (O.contents out.old) (O.contents out.new) piece.now) }
{
    match out.write_all(piece) {
        Ok(()) => Ok(()),
        Err(error) => Err(error.kind()),
    }
}

impl Pump {
    /// A pump with nothing to write. Allocates [`MAX_HELD`](crate::MAX_HELD) bytes. The error is that memory was
    /// refused.
    pub fn new(alloc: Global) -> Result<Pump, AllocError> {
        Ok(Pump {
            queue: Mutex::new(Queue::new(alloc)?),
            changed: Condvar::new(),
        })
    }

    /// The work of the pump's thread: writes what is handed over to an output, in order, whole lines at a time, by
    /// calls of at most [`MAX_PIECE`] bytes each. It ends once the output has failed, or the pump is closed and all is
    /// written. It allocates nothing.
    pub fn run<R: Wait, O: Write>(&self, rt: &R, out: &mut O) {
        let mut piece = [0; MAX_PIECE];
        for _ in rt.forever() {
            let count = self.next_piece(rt, &mut piece);
            if count == 0 {
                return;
            }
            let written = write_piece(out, &piece[..count]);
            self.note(rt, written);
            if written.is_err() {
                return;
            }
        }
    }

    /// No more is handed over: the thread ends once all is written.
    pub fn close<R: Wait>(&self, rt: &R) {
        self.queue.lock(rt).close();
        self.changed.notify_all();
    }

    /// Waits until there is something to write, and takes its first piece. Gives 0 once the pump is closed and all is
    /// written.
    fn next_piece<R: Wait>(&self, rt: &R, piece: &mut [u8; MAX_PIECE]) -> usize
        ensures { result ≤ MAX_PIECE }
    {
        let idle = self.queue.lock(rt);
        let mut queue = self.changed.wait_while(rt, idle, |queue| queue.is_idle());
        let count = queue.take(piece);
        drop(queue);
        self.changed.notify_all();
        count
    }

    /// Notes that the piece that was taken is written, or that the output has failed.
    fn note<R: Wait>(&self, rt: &R, written: Result<(), ErrorKind>) {
        self.queue.lock(rt).note(written);
        self.changed.notify_all();
    }

    /// Takes as much of a text as there is room for, at least a byte if it has one, and gives how much that is.
    pub(crate) fn put<R: Wait + Clock>(
        &self,
        rt: &R,
        text: &[u8],
        patience: &mut Patience,
    ) -> io::Result<usize>
        ensures { IfOk result (λ count. count ≤ length text.now) }
    {
        let Some(mut queue) = self.when(rt, Needs::Room, patience) else {
            return Err(io::Error::from(ErrorKind::TimedOut));
        };
        if let Some(kind) = queue.fault() {
            return Err(io::Error::from(kind));
        }
        let count = queue.put(text)?;
        drop(queue);
        self.changed.notify_all();
        Ok(count)
    }

    /// Waits until all that was handed over is written.
    pub(crate) fn drain<R: Wait + Clock>(&self, rt: &R, patience: &mut Patience) -> io::Result<()> {
        let Some(queue) = self.when(rt, Needs::Written, patience) else {
            return Err(io::Error::from(ErrorKind::TimedOut));
        };
        match queue.fault() {
            Some(kind) => Err(io::Error::from(kind)),
            None => Ok(()),
        }
    }

    /// Waits until the queue has what a writer needs. It is none if the writer waits no longer.
    fn when<R: Wait + Clock>(
        &self,
        rt: &R,
        needs: Needs,
        patience: &mut Patience,
    ) -> Option<MutexGuard<'_, Queue>> {
        let mut queue = self.queue.lock(rt);
        for _ in rt.forever() {
            let begun = Instant::now(rt);
            let (back, waited) = self
                .changed
                .wait_timeout_while(rt, queue, patience.look(), |queue| !queue.has(needs));
            if !waited.timed_out() {
                return Some(back);
            }
            if patience.tire(rt, begun) {
                return None;
            }
            queue = back;
        }
        None
    }
}
