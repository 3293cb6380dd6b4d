//! Reports a line, as far as the stream takes it.
//!
//! Defined in: `specs/Meaning/Reporting.antt`.
//! Tested in: `lg_command_tests/src/writers.rt`.
ghost use Rattle.lg_text.specs.Meaning.Reporting.{Reports};

use crate::output::write_pieces;
use std::io::Write;

/// A stream for the lines that tell of faults, such as standard error. Each [`Write`] is one.
pub trait FaultStream {
    ghost use Rattle.lg_text.specs.Meaning.Reporting.{Reported, Reports};

    // What it has taken, and how much more it takes for certain, as far as that is known.
    ghost reported: { Self → Reported };

    /// Takes a text, or a beginning of it. What isn't taken is dropped.
    fn take(&mut self, text: &[u8])
        ensures { Reports (reported self.old) (reported self.new) text.now };
}

impl<W: Write> FaultStream for W {
    ghost use Rattle.std.specs.Prelude.{None};

    ghost reported = { λ writer. record { contents = W.contents writer; room = None } };

    fn take(&mut self, text: &[u8]) {
        let _ = write_pieces(self, text);
    }
}

/// Reports a line: all of it, if the stream is known to have room for it, and else as much as the stream takes.
pub fn report<F: FaultStream>(faults: &mut F, line: &str)
    ensures { Reports (F.reported faults.old) (F.reported faults.new) line.now }
{
    faults.take(line.as_bytes());
}
