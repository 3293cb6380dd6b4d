//! Takes a command line, or tells why it isn't run.
//!
//! Defined in: `specs/Meaning/Leaving.antt`, `specs/Meaning/Commands.antt`.
//! Tested in: `cases/command_line.case`, `cases/node_command.case`.
ghost use Rattle.std.specs.Prelude.{◌≡◌, ◌≢◌, ◌≤◌, ◌⊎◌, [], IfOk, IfErr, IfSome, map, true};
ghost use Rattle.clap.specs.Values.{kind_of};
ghost use Rattle.lg_text.specs.Meaning.Faults.{run_fault_text};
ghost use Rattle.lg_text.specs.Meaning.Reporting.{Reports};
ghost use Rattle.lg_commands.specs.Meaning.Running.{FailsBy};
ghost use Rattle.lg_commands.specs.Meaning.Timeouts.{are_good};
ghost use Rattle.lg_command_line.specs.Meaning.Commands.{asked, line_faults, status_of_kind, IfNode, IfTimeouts};
ghost use Rattle.lg_command_line.specs.Meaning.Leaving.{IsLeft, ReportsUnwritten};
ghost use Rattle.lg_command_line.specs.Support.Requests.{request_of};

use crate::asked::{Asked, MAX_RUN_MS};
use crate::words::read_words;
use clap::Error;
use clap::error::ErrorKind;
use lg_commands::{FAILED, USAGE};
use lg_text::{FaultStream, RunFault, WriteFault, report};
use std::alloc::Global;
use std::convert::AsStr;
use std::fmt::Write as _;
use std::io::Write;
use std::{fmt, io};

/// What the words of a command line ask for. If nothing is to be run, that is told, and the `Err` is the exit status.
/// The first word is the program's name.
///
/// `writer` and `faults` stand for standard output and error. A line that `faults` doesn't take is dropped. If the
/// command line is taken, nothing is written or reported. The numbers of `timeouts` are good then, and a node that is
/// given an end runs for 1 to [`MAX_RUN_MS`] milliseconds. The statuses are:
///
/// - 0 for help or the version, if it was asked for and written to `writer`.
/// - 1 if memory was refused, or help or the version couldn't be written. That is reported as `lg: memory` or
///   `lg: write`.
/// - 2 if the command line is refused, which is reported by a text of the parser. Nothing is written then.
///
/// No contract says what the texts of help, of the version and of a refusal are: they are the parser's.
pub fn take_words<'a, S: AsStr, W: Write, F: FaultStream>(
    alloc: Global,
    words: &'a [S],
    writer: &mut W,
    faults: &mut F,
) -> Result<Asked<'a>, u8>
    ensures taken { IfOk result (λ found. line_faults (map S.text words.entry.now) ≡ []) }
    ensures asked { IfOk result (λ found. request_of found ≡ asked (map S.text words.entry.now)) }
    ensures good { IfOk result (λ found. IfTimeouts (request_of found) (λ numbers. are_good numbers ≡ true)) }
    ensures ending { IfOk result (λ found. IfNode (request_of found) (λ _ for_ms _ _.
        IfSome for_ms (λ ms. (1 ≤ ms) × (ms ≤ MAX_RUN_MS)))) }
    ensures unwritten { IfOk result (λ found. writer.new ≡ writer.old) }
    ensures unreported { IfOk result (λ found. faults.new ≡ faults.old) }
    ensures left { IfErr result (λ status. IsLeft writer.old writer.new (F.reported faults.old) (F.reported faults.new)
        (map S.text words.entry.now) status) }
{
    match read_words(alloc, words) {
        Ok(asked) => Ok(asked),
        Err(error) => Err(report_refusal(&error, writer, faults)),
    }
}

/// Reports why a command line isn't run, or writes the help or the version that it asks for, and gives the status.
///
/// The texts of a refusal, of help and of the version are the parser's, whose contracts don't say them. So no contract
/// says what is reported with [`USAGE`], or written with 0. `cases/command_line.case` shows that there is something,
/// and where.
fn report_refusal<W: Write, F: FaultStream>(error: &Error, writer: &mut W, faults: &mut F) -> u8
    ensures status { result ≢ FAILED → result ≡ status_of_kind (kind_of error.now) }
    ensures memory { kind_of error.now ≡ ErrorKind.OutOfMemory → result ≡ FAILED }
    ensures memory_told { kind_of error.now ≡ ErrorKind.OutOfMemory
        → Reports (F.reported faults.old) (F.reported faults.new) (run_fault_text RunFault.Memory) }
    // Otherwise only help and the version fail, if they aren't taken.
    ensures failed { result ≡ FAILED
        → (kind_of error.now ≡ ErrorKind.OutOfMemory) ⊎ (status_of_kind (kind_of error.now) ≡ 0) }
    ensures write_told { result ≡ FAILED → status_of_kind (kind_of error.now) ≡ 0
        → ReportsUnwritten (F.reported faults.old) (F.reported faults.new) }
    // What is written reports nothing, and a refusal writes nothing.
    ensures unreported { result ≡ 0 → faults.new ≡ faults.old }
    ensures unwritten { result ≡ USAGE → writer.new ≡ writer.old }
    ensures unfit { kind_of error.now ≡ ErrorKind.OutOfMemory → writer.new ≡ writer.old }
    ensures fails { result ≡ FAILED
        → FailsBy (F.reported faults.old) (F.reported faults.new) writer.old writer.new }
{
    if error.kind() == ErrorKind::OutOfMemory {
        report(faults, RunFault::Memory.text());
        return FAILED;
    }
    if error.use_stderr() {
        // The parser hands its text on in one piece, so all of it is taken if there is room for it.
        let _ = write!(Formatted(faults), "{error}");
        return USAGE;
    }
    match write_formatted(writer, error) {
        Ok(()) => 0,
        Err(failed) => {
            let unwritten = WriteFault {
                kind: failed.kind(),
            };
            report(faults, unwritten.text());
            FAILED
        }
    }
}

/// Writes the help or the version, and flushes the writer.
fn write_formatted<W: Write>(writer: &mut W, error: &Error) -> io::Result<()> {
    write!(writer, "{error}")?;
    writer.flush()
}

/// Takes what is formatted, and hands it to a stream for faults. It fails never: what the stream doesn't take is
/// dropped.
#[derive(Drop)]
struct Formatted<'a, F>(&'a mut F);

impl<F: FaultStream> fmt::Write for Formatted<'_, F> {
    fn write_str(&mut self, text: &str) -> fmt::Result {
        self.0.take(text.as_bytes());
        Ok(())
    }
}
