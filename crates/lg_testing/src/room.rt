//! A writer of fixed size.
use std::io;
use std::io::{ErrorKind, Write};

/// The size of a writer in bytes, which is enough for each text of the tests.
pub const ROOM: usize = 512;

/// A writer that takes one byte a call, into an array of its own, so that it allocates no memory.
#[derive(Drop)]
pub struct Room {
    /// What was written, followed by zeros.
    bytes: [u8; ROOM],
    /// How many bytes were written.
    pub len: usize,
    /// The call that fails, counted from 1, or 0 if none does. A flush is a call too.
    pub fails_at: usize,
    /// How many calls were made.
    pub calls: usize,
}

impl Room {
    /// An empty writer. The call with this number fails, counted from 1, or none if it is 0.
    pub fn failing(fails_at: usize) -> Self {
        Room {
            bytes: [0; ROOM],
            len: 0,
            fails_at,
            calls: 0,
        }
    }

    /// Whether this was written, and nothing else.
    pub fn has(&self, text: &[u8]) -> bool {
        &self.bytes[..self.len.min(ROOM)] == text
    }

    /// Counts a call, which may be the one that fails.
    fn call(&mut self) -> io::Result<()> {
        self.calls = self.calls.saturating_add(1);
        if self.calls == self.fails_at {
            Err(io::Error::from(ErrorKind::BrokenPipe))
        } else {
            Ok(())
        }
    }
}

impl Write for Room {
    fn write(&mut self, buf: &[u8]) -> io::Result<usize> {
        self.call()?;
        if buf.is_empty() || self.len >= ROOM {
            return Ok(0);
        }
        self.bytes[self.len] = buf[0];
        self.len += 1;
        Ok(1)
    }

    fn flush(&mut self) -> io::Result<()> {
        self.call()
    }
}
