//! Tells why a folder wasn't read to its end.
//!
//! Defined in: `specs/Meaning/Running.antt`, `specs/Meaning/Words.antt`.
//! Tested in: `cases/explain.case`, `cases/recordings`.
ghost use Rattle.std.specs.Prelude.{◌≡◌, ◌⊎◌, [], string_bytes};
ghost use Rattle.lg_replay_run.specs.Meaning.Running.{TellsFolderFault};
ghost use Rattle.lg_replay_run.specs.Meaning.Words.{second_line};

use crate::words::{first_line, second_line};
use lg_replay::FolderFault;
use lg_text::{FaultStream, report};
use std::alloc::Global;

/// The exit status if a folder wasn't read to its end, or if something is wrong with what was read.
pub(crate) const FAILED: u8 = 1;

/// Why a folder wasn't read to its end, as a line. It is empty if there is none, or if memory for it was refused.
fn reason_of(alloc: Global, folder: &str, fault: FolderFault) -> String
    ensures { (string_bytes result ≡ []) ⊎ (string_bytes result ≡ second_line folder.now fault) }
{
    match second_line(alloc, folder, fault) {
        Ok(line) => line,
        Err(_) => String::new(alloc),
    }
}

/// Reports why the folder at a path wasn't read to its end, or what is told of it not written, and gives the exit
/// status, which is 1.
///
/// These are two lines: `lg: read`, `lg: memory` or `lg: write`, and why. For refused memory there is no second line,
/// and none if memory for it is refused. What `faults` doesn't take is dropped.
pub fn tell_fault<F: FaultStream>(
    alloc: Global,
    folder: &str,
    fault: FolderFault,
    faults: &mut F,
) -> u8
    ensures { TellsFolderFault (F.reported faults.old) (F.reported faults.new) folder.now fault result }
{
    let reason = reason_of(alloc, folder, fault);
    report(faults, first_line(fault));
    report(faults, reason.as_str());
    FAILED
}
