//! Reports what is told, in a line or in two.
//!
//! Defined in: `specs/Meaning/Reporting.antt`.
//! Tested in: `cases/node.case`, `cases/config_reasons.case`.
ghost use Rattle.std.specs.Prelude.{◌≡◌};
ghost use Rattle.lg_config.specs.Meaning.Options.{options_of};
ghost use Rattle.lg_run.specs.Meaning.Reporting.{ReportsBoth, TellsFault, TellsLine};
ghost use Rattle.lg_run.specs.Meaning.Telling.{line_of, status_told};

use crate::told::Told;
use lg_config::{FileFault, Given, reason};
use lg_text::{FaultStream, report};
use std::alloc::Global;

/// Reports what is told, and gives its status.
pub(crate) fn tell<F: FaultStream>(told: Told, faults: &mut F) -> u8
    ensures { TellsLine (F.reported faults.old) (F.reported faults.new) told result }
{
    report(faults, told.line().as_str());
    told.status()
}

/// Reports what is told and a second line, and gives the status.
pub(crate) fn tell_both<F: FaultStream>(told: Told, second: &str, faults: &mut F) -> u8
    ensures lines { ReportsBoth (F.reported faults.old) (F.reported faults.new) (line_of told) second.now }
    ensures status { result ≡ status_told told }
{
    report(faults, told.line().as_str());
    report(faults, second);
    told.status()
}

/// Reports a fault of a file and options in two lines: the number of its fault, and in words what is wrong. If memory
/// for the words is refused, only the first is reported.
pub(crate) fn tell_fault<F: FaultStream>(
    alloc: Global,
    bytes: &[u8],
    given: &[Given<'_>],
    fault: FileFault,
    faults: &mut F,
) -> u8
    ensures { TellsFault (F.reported faults.old) (F.reported faults.new) (options_of given.now) bytes.now
        fault result }
{
    match reason(alloc, bytes, given, fault) {
        Ok(line) => tell_both(Told::Config(fault), line.as_str(), faults),
        Err(_) => tell_both(Told::Config(fault), "", faults),
    }
}
