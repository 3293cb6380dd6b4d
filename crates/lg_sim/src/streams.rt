//! Runs a script over a reader and a writer.
//!
//! Defined in: `specs/Meaning/Text.antt`, `lg_text/specs/Meaning/Running.antt`.
//! Tested in: `cases/limits.case`, `lg_command_tests/src/readers.rt`, `lg_command_tests/src/writers.rt`.
ghost use Rattle.lg_text.specs.Meaning.Running.{RunsWhole};
ghost use Rattle.lg_sim.specs.Meaning.Text.{script_end, script_text};

use crate::script::run_script;
use lg_text::{MAX_INPUT, RunEnd, RunFault, read_input, write_text};
use std::alloc::Global;
use std::io::{Read, Write};

/// Runs a script: reads all that a reader has left, and writes what the script gives, and nothing else.
///
/// Each line is a command, `set`, `open`, `tick`, `deliver`, `ask`, `health`, `pull`, `leave` or `table`, as
/// `lg_script` reads them, and each command gives lines of text. The members that are opened are at 127.0.0.1; there
/// are at most [`MAX_CLUSTER`]. The packets that members send are numbered from 1 over all members. A packet is heard
/// only if a command delivers it, which may be never, again, and in any order. If no member is at its destination, it
/// gives the line `nobody`. A line that is empty or begins with `#` is passed over, but counted. The first faulty line
/// gives `fault LINE KIND` as the last line of the text; lines count from 1, and `lg_script::ScriptFault` has the
/// kinds. The end is then [`RunEnd::Faulty`] (all this project's choice).
///
/// [`MAX_CLUSTER`]: crate::MAX_CLUSTER
///
/// The input has at most 1,048,576 bytes. A longer or endless one is [`RunFault::Read`], found after at most
/// 1,048,577 bytes and 2,097,154 read calls. Any error of the reader but an interruption is [`RunFault::Read`] too. Its
/// [`InputFault`](lg_text::InputFault) says which of these it was.
/// If memory is refused for what was read so far, [`RunFault::Memory`] comes first. The whole text is made before its
/// first byte is written, so with [`RunFault::Read`] or [`RunFault::Memory`] nothing is written. [`RunFault::Write`]
/// comes only once the whole input was read, and doesn't say how much was written. Time and memory are in proportion
/// to the input and the text.
///
/// What is said of bytes holds for a reader and a writer that tell their bytes, as those over memory do.
pub fn run<R: Read, W: Write>(
    alloc: Global,
    reader: &mut R,
    writer: &mut W,
) -> Result<RunEnd, RunFault>
    // What is written is the text of the script that was read, and the end is that of the script.
    ensures { RunsWhole script_text script_end (R.remaining reader.old) (R.remaining reader.new)
        writer.old writer.new (W.contents writer.old) (W.contents writer.new) result }
{
    let input = read_input(alloc, reader)?;
    let written = run_script(alloc, &input)?;
    write_text(writer, &written.text)?;
    Ok(written.end)
}
