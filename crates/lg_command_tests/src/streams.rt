//! A reader that gives its input as a test says, and what stands for the standard streams.
ghost use Rattle.std.specs.Prelude.{◌≤◌, length};

use lg_testing::Room;
use std::io;
use std::io::{ErrorKind, Read};

/// Which calls of a reader are interrupted.
#[derive(Clone, Copy, Debug)]
pub enum Interrupts {
    /// No call.
    Never,
    /// Every second call, from the first on.
    EachSecond,
    /// Each call.
    Always,
}

/// A reader that gives pieces, and counts what is asked of it.
#[derive(Drop)]
pub struct Pieces<'a> {
    /// What is left to give.
    pub left: &'a [u8],
    /// Whether digits `0` follow without an end, in place of what is left.
    pub endless: bool,
    /// The most bytes of one call.
    pub piece: usize,
    /// Which calls are interrupted.
    interrupts: Interrupts,
    /// The call that fails, counted from 1, or 0 if none does.
    pub fails_at: usize,
    /// How many calls were made.
    pub calls: usize,
    /// How many bytes were given.
    pub given: usize,
}

impl Pieces<'_> {
    /// From here on these calls are interrupted.
    pub fn interrupt(&mut self, interrupts: Interrupts) {
        self.interrupts = interrupts;
    }

    /// Whether the call that was counted last is interrupted.
    fn is_interrupted(&self) -> bool {
        match self.interrupts {
            Interrupts::Never => false,
            Interrupts::EachSecond => self.calls % 2 == 1,
            Interrupts::Always => true,
        }
    }

    /// Gives a piece, and returns how many bytes it has.
    fn give(&mut self, buf: &mut [u8]) -> usize
        ensures { result ≤ length buf.old }
    {
        let most = self.piece.min(buf.len());
        if self.endless {
            buf[..most].fill(b'0');
            return most;
        }
        let count = self.left.len().min(most);
        buf[..count].copy_from_slice(&self.left[..count]);
        self.left = &self.left[count..];
        count
    }
}

impl Read for Pieces<'_> {
    fn read(&mut self, buf: &mut [u8]) -> io::Result<usize> {
        self.calls = self.calls.saturating_add(1);
        if self.calls == self.fails_at {
            return Err(io::Error::from(ErrorKind::ConnectionReset));
        }
        if self.is_interrupted() {
            return Err(io::Error::from(ErrorKind::Interrupted));
        }
        let count = self.give(buf);
        self.given = self.given.saturating_add(count);
        Ok(count)
    }
}

/// What stands for standard input, output and error.
#[derive(Drop)]
pub struct Streams<'a> {
    /// The input.
    pub reader: Pieces<'a>,
    /// The output.
    pub writer: Room,
    /// What is reported.
    pub faults: Room,
}

impl<'a> Streams<'a> {
    /// An input that is given one byte at a time.
    pub fn over(input: &'a [u8]) -> Self {
        let reader = Pieces {
            left: input,
            endless: false,
            piece: 1,
            interrupts: Interrupts::Never,
            fails_at: 0,
            calls: 0,
            given: 0,
        };
        Streams {
            reader,
            writer: Room::failing(0),
            faults: Room::failing(0),
        }
    }
}
