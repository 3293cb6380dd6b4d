//! A text of `replay` or `explain` that is bad, and how that is told.
//!
//! Defined in: `specs/Meaning/Faults.antt`, `specs/Meaning/Replaying.antt`.
//! Tested in: `lg_command_tests/src/replay.rt`, `explain.rt` and `messages.rt`.
ghost use Rattle.std.specs.Prelude.{◌≡◌};
ghost use Rattle.lg_text.specs.Meaning.Reporting.{Reports};
ghost use Rattle.lg_commands.specs.Meaning.Faults.{bad_part_text};

use crate::status::BAD_INPUT;
use lg_config::MAX_PATH;
use lg_rules::MAX_NAME;
use lg_text::{FaultStream, report};
use thiserror::Error;

/// Which text of `replay` or `explain` is bad. The folder is judged first.
#[derive(Clone, Copy, Debug, PartialEq, Eq, Error)]
pub enum BadPart {
    /// The folder has no bytes, more than 255, or one that isn't printable ASCII.
    #[error("the folder has to have 1 to {most} bytes of printable ASCII", most = MAX_PATH)]
    Folder,
    /// The folder is good, but the name is no name.
    #[error("the name has to have 1 to {most} bytes of A-Z a-z 0-9 . _ -", most = MAX_NAME)]
    Name,
}

impl BadPart {
    /// The line that reports the text, with its newline.
    pub fn text(self) -> &'static str
        ensures { result.now ≡ bad_part_text self }
    {
        match self {
            BadPart::Folder => "lg: bad folder\n",
            BadPart::Name => "lg: bad names\n",
        }
    }
}

/// Reports the text, and gives the status.
pub(crate) fn tell_bad_part<F: FaultStream>(bad: BadPart, faults: &mut F) -> u8
    ensures is { result ≡ BAD_INPUT }
    ensures told { Reports (F.reported faults.old) (F.reported faults.new) (bad_part_text bad) }
{
    report(faults, bad.text());
    BAD_INPUT
}
