//! Writes a text whole, or as far as the writer takes it.
//!
//! Defined in: `specs/Meaning/Running.antt`.
//! Tested in: `lg_command_tests/src/writers.rt`.
ghost use Rattle.std.specs.Prelude.{◌≡◌, IfErr, OnErr, OnOk, true};
ghost use Rattle.std.specs.Io.KnownBytes.{Appends};
ghost use Rattle.lg_text.specs.Meaning.Faults.{is_unwritten};
ghost use Rattle.lg_text.specs.Meaning.Running.{AppendsFront};

use crate::fault::{RunFault, WriteFault};
use std::io::{ErrorKind, Write};

/// The fault of a write or a flush that failed by an error of this kind.
fn unwritten(kind: ErrorKind) -> WriteFault
    ensures { result.kind ≡ kind }
{
    WriteFault { kind }
}

/// Writes a text and flushes the writer.
///
/// The error has the kind of the error of the write or flush that failed. What the writer held then has grown by a
/// beginning of the text: by none of it, a part or all. An interrupted write is made again. A write that takes none of
/// the bytes handed to it is an error too. No memory is allocated apart from what the writer allocates.
pub fn write_whole<W: Write>(writer: &mut W, text: &[u8]) -> Result<(), WriteFault>
    ensures written { OnOk result (Appends (W.contents writer.old) (W.contents writer.new) text.now) }
    ensures partly { OnErr result (AppendsFront (W.contents writer.old) (W.contents writer.new) text.now) }
{
    write_pieces(writer, text)?;
    match writer.flush() {
        Ok(()) => Ok(()),
        Err(error) => Err(unwritten(error.kind())),
    }
}

/// Writes the text of a run, as [`write_whole`] does. Its fault is [`RunFault::Write`].
pub fn write_text<W: Write>(writer: &mut W, text: &[u8]) -> Result<(), RunFault>
    ensures written { OnOk result (Appends (W.contents writer.old) (W.contents writer.new) text.now) }
    ensures partly { OnErr result (AppendsFront (W.contents writer.old) (W.contents writer.new) text.now) }
    ensures told { IfErr result (λ fault. is_unwritten fault ≡ true) }
{
    match write_whole(writer, text) {
        Ok(()) => Ok(()),
        Err(fault) => Err(RunFault::Write(fault)),
    }
}

/// Writes a text in as many calls as the writer needs, without a flush.
pub(crate) fn write_pieces<W: Write>(writer: &mut W, text: &[u8]) -> Result<(), WriteFault>
    ensures written { OnOk result (Appends (W.contents writer.old) (W.contents writer.new) text.now) }
    ensures partly { AppendsFront (W.contents writer.old) (W.contents writer.new) text.now }
{
    // `write_all` doesn't say how much it wrote if it fails, so the pieces are written here.
    let mut rest = text;
    for _ in 0..u64::MAX {
        if rest.is_empty() {
            return Ok(());
        }
        match writer.write(rest) {
            Ok(0) => return Err(unwritten(ErrorKind::WriteZero)),
            Ok(count) => rest = &rest[count..],
            Err(error) => {
                if error.kind() != ErrorKind::Interrupted {
                    return Err(unwritten(error.kind()));
                }
            }
        }
    }
    Err(unwritten(ErrorKind::Interrupted))
}
