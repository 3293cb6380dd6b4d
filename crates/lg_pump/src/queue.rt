//! What is handed over and yet to be written, as a value.
//!
//! Defined in: `specs/Meaning/Handing.antt`.
//! Tested in: `lg_command_tests/src/pumping.rt`.
ghost use Rattle.std.specs.Prelude.{◌≡◌, ◌<◌, ◌≤◌, ◌-◌, ◌++◌, [], IfErr, IfOk, OnErr, OnOk};
ghost use Rattle.std.specs.Prelude.{length, min, take, true, vec_len};

use crate::pieces::{MAX_PIECE, piece_len};
use std::alloc::{AllocError, Global};
use std::io::ErrorKind;

/// The most bytes that are handed over and not yet taken.
pub const MAX_HELD: usize = 65_536;

/// What a writer waits for.
#[derive(Clone, Copy, Debug, PartialEq, Eq)]
pub(crate) enum Needs {
    /// There is room for a byte.
    Room,
    /// All that was handed over is written.
    Written,
}

/// What is handed over and yet to be written.
#[derive(Drop)]
pub(crate) struct Queue {
    /// What is handed over, and not yet taken to be written.
    held: Vec<u8>,
    /// Whether a piece was taken and isn't written yet.
    is_writing: bool,
    /// Why the output failed, if it did. Nothing is taken from then on.
    fault: Option<ErrorKind>,
    /// Whether no more will be handed over.
    is_closed: bool,
}

impl Queue {
    /// An empty queue. The error is that memory for all that it may hold was refused.
    pub(crate) fn new(alloc: Global) -> Result<Queue, AllocError>
        ensures { IfOk result (λ queue. (queue.held.items ≡ []) × (queue.fault ≡ None)) }
    {
        Ok(Queue {
            held: Vec::with_capacity(alloc, MAX_HELD)?,
            is_writing: false,
            fault: None,
            is_closed: false,
        })
    }

    /// Whether there is what a writer waits for. A queue whose output failed keeps no writer waiting.
    pub(crate) fn has(&self, needs: Needs) -> bool
        ensures room { needs ≡ Needs.Room → result ≡ true → self.now.fault ≡ None
            → vec_len self.now.held < MAX_HELD }
        ensures written { needs ≡ Needs.Written → result ≡ true → self.now.fault ≡ None
            → self.now.held.items ≡ [] }
    {
        self.fault.is_some()
            || match needs {
                Needs::Room => self.held.len() < MAX_HELD,
                Needs::Written => self.held.is_empty() && !self.is_writing,
            }
    }

    /// Whether nothing is to be written, and more may be handed over.
    pub(crate) fn is_idle(&self) -> bool {
        self.held.is_empty() && !self.is_closed
    }

    /// Why the output failed, if it did.
    pub(crate) fn fault(&self) -> Option<ErrorKind>
        ensures { result ≡ self.now.fault }
    {
        self.fault
    }

    /// Takes a text, or a beginning of it if there is no room for all. Gives how many bytes it took. The error is that
    /// memory was refused, which doesn't come within [`MAX_HELD`] bytes.
    pub(crate) fn put(&mut self, text: &[u8]) -> Result<usize, AllocError>
        ensures count { IfOk result (λ count.
            count ≡ min (length text.now) (MAX_HELD - vec_len self.old.held)) }
        ensures behind { IfOk result (λ count. self.new.held.items ≡ self.old.held.items ++ take count text.now) }
        ensures refused { OnErr result (self.new.held.items ≡ self.old.held.items) }
    {
        let room = MAX_HELD.saturating_sub(self.held.len());
        let count = text.len().min(room);
        self.held.extend_from_slice(&text[..count])?;
        Ok(count)
    }

    /// Hands out the first piece of what is held, as far as there is some, and notes that it is being written. Gives
    /// how many bytes it has.
    pub(crate) fn take(&mut self, piece: &mut [u8; MAX_PIECE]) -> usize
        ensures within { result ≤ MAX_PIECE }
        ensures first { self.old.held.items ≡ take result piece.new ++ self.new.held.items }
    {
        let count = piece_len(&self.held);
        piece[..count].copy_from_slice(&self.held[..count]);
        self.held.drain(..count);
        self.is_writing = count > 0;
        count
    }

    /// The piece that was handed out is written, or the output has failed.
    pub(crate) fn note(&mut self, written: Result<(), ErrorKind>)
        ensures kept { self.new.held.items ≡ self.old.held.items }
        ensures fault { IfErr written (λ kind. self.new.fault ≡ Some kind) }
        ensures well { OnOk written (self.new.fault ≡ self.old.fault) }
    {
        self.is_writing = false;
        if let Err(kind) = written {
            self.fault = Some(kind);
        }
    }

    /// No more will be handed over.
    pub(crate) fn close(&mut self)
        ensures { self.new.held.items ≡ self.old.held.items }
    {
        self.is_closed = true;
    }
}
