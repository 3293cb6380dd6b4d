//! Runs the commands over a reader and a writer.
//!
//! Defined in: `lg_text/specs/Meaning/Running.antt`, `specs/Meaning/Answering.antt`, `specs/Meaning/Choosing.antt`.
//! Tested in: `cases/limits.case`, `lg_command_tests/src/readers.rt`, `lg_command_tests/src/writers.rt`.
ghost use Rattle.std.specs.Prelude.{◌≡◌, true, false, Err, IfErr, IsOkAnd, OnOk};
ghost use Rattle.std.specs.Io.KnownBytes.{Appends};
ghost use Rattle.lg_text.specs.Meaning.Faults.{is_unread, is_unwritten};
ghost use Rattle.lg_text.specs.Meaning.Running.{AppendsFront, RunsWhole};
ghost use Rattle.lg_commands.specs.Meaning.Answering.{answer_end, answer_text};
ghost use Rattle.lg_commands.specs.Meaning.Choosing.{order_text};
ghost use Rattle.lg_commands.specs.Meaning.Running.{is_order_unwritten, IsFaultOf};
ghost use Rattle.lg_commands.specs.Meaning.Timeouts.{are_good, timeouts_text};
ghost use Rattle.lg_commands.specs.Meaning.Version.{version_text};

use crate::answer::answer;
use crate::order::{BadList, OrderFault, order};
use crate::timeouts::{Numbers, timeouts};
use crate::version::version_text;
use lg_rules::Name;
use lg_text::{MAX_INPUT, RunEnd, RunFault, read_input, write_text};
use std::alloc::Global;
use std::io::{Read, Write};

/// Runs the command `answer`: reads all that a reader has left, and writes what a detector of this name sends for it,
/// and nothing else.
///
/// The detector is opened with the default configuration, at moment 0 at 127.0.0.1:7000. Each line of the input is a
/// packet in hex of either case, heard at moment 0 from 127.0.0.1:1. Each packet that is sent is written as a line of
/// lower-case hex. A packet that is refused gives `fault NUMBER NAME`, and a line that isn't hex gives `bad hex`.
/// After such a line the run goes on, and its end is then [`RunEnd::Faulty`]. An empty line is a packet of no bytes
/// (this project's choice).
///
/// The input has at most 1,048,576 bytes. A longer or endless one is [`RunFault::Read`], and so is any error of the
/// reader but an interruption. If memory is refused for what was read so far, [`RunFault::Memory`] comes first. The
/// whole text is made before its first byte is written, so with [`RunFault::Read`] or [`RunFault::Memory`] nothing is
/// written. [`RunFault::Write`] comes only once the whole input was read, and doesn't say how much was written. Time
/// and memory are in proportion to the input.
///
/// What is said of bytes holds for a reader and a writer that tell their bytes, as those over memory do.
pub fn answer_run<R: Read, W: Write>(
    alloc: Global,
    reader: &mut R,
    writer: &mut W,
    name: &Name,
) -> Result<RunEnd, RunFault>
    // What is written is the answer to the input that was read, and the end is that of the input.
    ensures { RunsWhole (answer_text name.now) answer_end (R.remaining reader.old) (R.remaining reader.new)
        writer.old writer.new (W.contents writer.old) (W.contents writer.new) result }
{
    let input = read_input(alloc, reader)?;
    let answered = answer(alloc, name, &input)?;
    write_text(writer, &answered.text)?;
    Ok(answered.end)
}

/// Runs the command `timeouts`: writes the timeouts of a suspicion for some numbers, and nothing else.
///
/// The lines are `min MS`, `max MS`, and `C MS` for each number C of confirmations from 0 to as many as count, in
/// milliseconds. The whole text is made before its first byte is written, so with [`RunFault::Memory`] nothing is
/// written. With [`RunFault::Write`] a beginning of the text is written: none of it, a part or all. Time and memory are
/// bounded: the text has at most 8 lines.
pub fn timeouts_run<W: Write>(
    alloc: Global,
    writer: &mut W,
    numbers: &Numbers,
) -> Result<(), RunFault>
    requires { are_good numbers.now ≡ true }
    ensures text { OnOk result (Appends (W.contents writer.old) (W.contents writer.new) (timeouts_text numbers.now)) }
    ensures refused { IfErr result (λ fault. is_unread fault ≡ false) }
    ensures unwritten { IfErr result (λ fault. is_unwritten fault ≡ false → writer.new ≡ writer.old) }
    ensures partly { IfErr result (λ fault. is_unwritten fault ≡ true
        → AppendsFront (W.contents writer.old) (W.contents writer.new) (timeouts_text numbers.now)) }
{
    let text = timeouts(alloc, numbers)?;
    write_text(writer, text.as_bytes())
}

/// Runs the command `version`: writes the version of the program, that of the packets, and how the program was built,
/// by the end of its file, and nothing else.
///
/// The whole text is made before its first byte is written, so with [`RunFault::Memory`] nothing is written. With
/// [`RunFault::Write`] a beginning of the text is written: none of it, a part or all. Time and memory are in proportion
/// to the end that is given.
pub fn version_run<W: Write>(alloc: Global, writer: &mut W, end: &[u8]) -> Result<(), RunFault>
    ensures text { OnOk result (Appends (W.contents writer.old) (W.contents writer.new) (version_text end.now)) }
    ensures refused { IfErr result (λ fault. is_unread fault ≡ false) }
    ensures unwritten { IfErr result (λ fault. is_unwritten fault ≡ false → writer.new ≡ writer.old) }
    ensures partly { IfErr result (λ fault. is_unwritten fault ≡ true
        → AppendsFront (W.contents writer.old) (W.contents writer.new) (version_text end.now)) }
{
    let text = version_text(alloc, end)?;
    write_text(writer, &text)
}

/// Runs the command `order`: writes whom words choose one after another from some names, a line each, and nothing
/// else.
///
/// The names stand between commas: 1 to 255 different ones, in any order. So do the words, of 1 to 16 decimal digits
/// each, 0 to 4,294,967,295. An empty text has no words (this project's choice). For any other texts the fault is
/// [`OrderFault::Bad`]. The names are judged first, and judging them allocates no memory.
///
/// The whole text is made before its first byte is written. If a list is bad, or with [`RunFault::Memory`], nothing
/// is written. [`RunFault::Write`] comes only if both lists are good. A beginning of the text is then written: none of
/// it, a part or all. For each number of names, time and memory are in proportion to the words.
pub fn order_run<W: Write>(
    alloc: Global,
    writer: &mut W,
    names: &str,
    words: &str,
) -> Result<(), OrderFault>
    ensures text { OnOk result (IsOkAnd (order_text names.now words.now)
        (λ text. Appends (W.contents writer.old) (W.contents writer.new) text)) }
    ensures refused { IfErr result (IsFaultOf (order_text names.now words.now)) }
    ensures names { order_text names.now words.now ≡ Err BadList.Names
        → result ≡ Err (OrderFault.Bad BadList.Names) }
    ensures unwritten { IfErr result (λ fault. is_order_unwritten fault ≡ false → writer.new ≡ writer.old) }
    ensures partly { IfErr result (λ fault. is_order_unwritten fault ≡ true
        → IsOkAnd (order_text names.now words.now)
        (λ text. AppendsFront (W.contents writer.old) (W.contents writer.new) text)) }
{
    let text = order(alloc, names, words)?;
    match write_text(writer, &text) {
        Ok(()) => Ok(()),
        Err(fault) => Err(OrderFault::Run(fault)),
    }
}
