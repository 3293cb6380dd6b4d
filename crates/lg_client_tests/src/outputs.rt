//! A writer of fixed size that fails as a test says. It allocates no memory.
ghost use Rattle.std.specs.Prelude.{◌≤◌, length};

use crate::answers::shown;
use std::fmt::{Debug, Formatter};
use std::io::{ErrorKind, Write};
use std::{fmt, io};

/// The size of a writer in bytes, which is enough for each text of the tests.
pub(crate) const ROOM: usize = 2_048;

/// When a writer fails.
#[derive(Clone, Copy, Debug)]
pub(crate) enum Limit {
    /// Never.
    Never,
    /// Each write, once so many bytes are written.
    Fails(usize),
    /// It takes so many bytes and no more, without an error.
    Full(usize),
    /// Each flush.
    Flush,
}

/// A writer that takes one byte a call, into an array of its own.
#[derive(Drop)]
pub(crate) struct Room {
    /// What was written, followed by zeros.
    bytes: [u8; ROOM],
    /// How many bytes were written.
    len: usize,
    limit: Limit,
}

impl Room {
    /// An empty writer.
    pub(crate) fn until(limit: Limit) -> Room {
        Room {
            bytes: [0; ROOM],
            len: 0,
            limit,
        }
    }

    /// What was written.
    pub(crate) fn text(&self) -> &[u8] {
        &self.bytes[..self.len.min(ROOM)]
    }

    /// Takes a byte if there is one and room for it. Gives how many were taken.
    fn put(&mut self, buf: &[u8]) -> usize
        ensures { result ≤ length buf.now }
    {
        if buf.is_empty() || self.len >= ROOM {
            return 0;
        }
        self.bytes[self.len] = buf[0];
        self.len += 1;
        1
    }
}

impl Write for Room {
    fn write(&mut self, buf: &[u8]) -> io::Result<usize> {
        match self.limit {
            Limit::Fails(most) if self.len >= most => Err(io::Error::from(ErrorKind::BrokenPipe)),
            Limit::Full(most) if self.len >= most => Ok(0),
            _ => Ok(self.put(buf)),
        }
    }

    fn flush(&mut self) -> io::Result<()> {
        match self.limit {
            Limit::Flush => Err(io::Error::from(ErrorKind::BrokenPipe)),
            _ => Ok(()),
        }
    }
}

impl Debug for Room {
    fn fmt<W: fmt::Write>(&self, f: &mut Formatter<W>) -> fmt::Result {
        f.write_str(shown(self.text()))
    }
}
