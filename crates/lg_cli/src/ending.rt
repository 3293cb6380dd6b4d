//! The end of the program: its status, and what is told of an output that is cut off.
//!
//! Defined in: `specs/Meaning/Ending.antt`.
//! Tested in: `cases/nodes`, `cases/node_command.case`.
ghost use Rattle.std.specs.Prelude.{◌≡◌, true, false};
ghost use Rattle.lg_text.specs.Meaning.Reporting.{Reports};
ghost use Rattle.lg_cli.specs.Meaning.Ending.{cut_text, end_status};

use lg_commands::FAILED;
use lg_text::{FaultStream, report};

/// The exit status of the program, given that of its command and whether its output is cut off. It is if a node that
/// follows was to end, and the output took nothing for [`GRACE_MS`](lg_pump::GRACE_MS) from then on, which the line
/// rounds to 2 s. So lines are lost.
///
/// If so, that is reported in two lines, and a status of 0 becomes [`FAILED`]. A line that `faults` doesn't take is
/// dropped.
pub fn exit_status<F: FaultStream>(status: u8, is_cut: bool, faults: &mut F) -> u8
    ensures told { is_cut ≡ true → Reports (F.reported faults.old) (F.reported faults.new) cut_text }
    ensures silent { is_cut ≡ false → faults.new ≡ faults.old }
    ensures status { result ≡ end_status status is_cut }
{
    if !is_cut {
        return status;
    }
    report(faults, "lg: write\nstandard output took nothing for 2 s\n");
    if status == 0 { FAILED } else { status }
}
