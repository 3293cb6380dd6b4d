//! Checks a configuration: reads its file and options, and writes what they mean. Nothing is run.
//!
//! Defined in: `specs/Meaning/Checking.antt`, `lg_check/specs/Meaning/Checks.antt`.
//! Tested in: `cases/check.case`, `lg_run_refusals/src/checks.rt`.
ghost use Rattle.std.specs.Prelude.{◌≡◌};
ghost use Rattle.lg_timing.specs.Meaning.Config.{IsChecked};
ghost use Rattle.lg_check.specs.Meaning.Checks.{check_text};
ghost use Rattle.lg_config.specs.Meaning.Options.{options_of, source_of};
ghost use Rattle.lg_run.specs.Meaning.Checking.{check_told, ChecksBytes, ChecksNode, ChecksSource, WritesText};

use crate::file::source_bytes;
use crate::reporting::{tell, tell_fault};
use crate::told::Told;
use lg_check::check_text;
use lg_config::{Given, NodeConfig, ReadFault, Source};
use lg_text::{FaultStream, RunFault, write_text};
use std::alloc::Global;
use std::io::Write;
use std::rt::Files;

/// Checks a configuration, as [`check_bytes`] does the bytes of its file and options. Without a file the bytes are
/// empty.
///
/// At most 65,537 bytes of the file are read. A file that can't be read is told by [`Told::Read`], and a second line
/// names it, and says why. Memory that is refused for its bytes is told by [`Told::Memory`]. In both cases nothing is
/// written. No contract can say what a file holds.
pub fn check_source<R, W, F>(
    rt: &R,
    alloc: Global,
    source: Source<'_>,
    writer: &mut W,
    faults: &mut F,
) -> u8
where
    R: Files,
    W: Write,
    F: FaultStream,
    ensures { ChecksSource writer.old writer.new (W.contents writer.old) (W.contents writer.new)
        (F.reported faults.old) (F.reported faults.new) (source_of source.entry) result }
{
    match source_bytes(rt, alloc, source, faults) {
        Ok(bytes) => check_bytes(alloc, &bytes, source.given, writer, faults),
        Err(status) => status,
    }
}

/// Checks the bytes of a file, and options: writes what they mean together, as [`check_text`](lg_check::check_text)
/// says it, with status 0.
///
/// Bytes and options that mean no configuration are told by [`Told::Config`], as [`NodeConfig::read`] answers, and a
/// second line says in words what is wrong with them. Memory that is refused is told by [`Told::Memory`]. In both cases
/// nothing is written. A text that isn't written whole is told by [`Told::Write`]; a beginning of it may have been.
pub fn check_bytes<W, F>(
    alloc: Global,
    bytes: &[u8],
    given: &[Given<'_>],
    writer: &mut W,
    faults: &mut F,
) -> u8
where
    W: Write,
    F: FaultStream,
    ensures { ChecksBytes writer.old writer.new (W.contents writer.old) (W.contents writer.new)
        (F.reported faults.old) (F.reported faults.new) (options_of given.now) bytes.now result }
{
    match NodeConfig::read(alloc, bytes, given) {
        Ok(node) => {
            let status = check_config(alloc, &node, writer, faults);
            drop(node);
            status
        }
        Err(ReadFault::NoMemory) => tell(Told::Memory, faults),
        Err(ReadFault::File(fault)) => tell_fault(alloc, bytes, given, fault, faults),
    }
}

/// Writes what a configuration means, and tells why that went wrong if it did.
fn check_config<W, F>(alloc: Global, node: &NodeConfig, writer: &mut W, faults: &mut F) -> u8
where
    W: Write,
    F: FaultStream,
    requires { IsChecked node.now.config }
    ensures { ChecksNode writer.old writer.new (W.contents writer.old) (W.contents writer.new)
        (F.reported faults.old) (F.reported faults.new) node.now result }
{
    tell(told_of(write_check(alloc, node, writer)), faults)
}

/// Writes what a configuration means. The whole text is made before its first byte is written.
fn write_check<W: Write>(alloc: Global, node: &NodeConfig, writer: &mut W) -> Result<(), RunFault>
    requires { IsChecked node.now.config }
    ensures { WritesText writer.old writer.new (W.contents writer.old) (W.contents writer.new)
        (check_text node.now) result }
{
    let text = check_text(alloc, node)?;
    write_text(writer, text.as_bytes())
}

/// What is told of a text that was to be written.
fn told_of(written: Result<(), RunFault>) -> Told
    ensures { result ≡ check_told written }
{
    match written {
        Ok(()) => Told::Done,
        Err(fault) => Told::from(fault),
    }
}
