//! The command `explain`: what of a recording it tells, by the texts of its command line.
//!
//! Defined in: `specs/Meaning/Explaining.antt`.
//! Tested in: `lg_command_tests/src/explain.rt`.
ghost use Rattle.std.specs.Prelude.{◌≡◌, IfErr, IfOk, Ok, OnOk};
ghost use Rattle.lg_commands.specs.Meaning.Explaining.{explained_of};
ghost use Rattle.lg_commands.specs.Meaning.Replaying.{TellsBadPart};

use crate::bad_part::{BadPart, tell_bad_part};
use lg_config::FilePath;
use lg_rules::Name;
use lg_text::FaultStream;
use lg_timing::Moment;

/// What of a recording is told about a member.
#[derive(Debug, Drop)]
pub struct ExplainPart {
    /// The folder of the recording.
    pub folder: FilePath,
    /// The member that it is told about.
    pub name: Name,
    /// The latest moment at which the first verdict of an account may have come, in milliseconds by the clock of the
    /// node. Later accounts aren't told.
    pub at: Moment,
    /// Whether each of the accounts is told, or only the last.
    pub all: bool,
}

/// What of a recording `explain` tells, by the texts of the folder and of the member's name. The error says which text
/// is bad.
fn explained_of(folder: &str, name: &str, at: Moment, all: bool) -> Result<ExplainPart, BadPart>
    ensures { result ≡ explained_of folder.now name.now at all }
{
    let folder = FilePath::of(folder).ok_or(BadPart::Folder)?;
    let name = Name::new(name.as_bytes()).ok().ok_or(BadPart::Name)?;
    Ok(ExplainPart {
        folder,
        name,
        at,
        all,
    })
}

/// What of a recording `explain` tells, by the texts of the folder and of the member's name, by the latest moment,
/// and by whether each account is told. The folder isn't looked at.
///
/// If a text is bad, `lg: bad folder` or `lg: bad names` is reported, and the `Err` is the status, which is
/// [`BAD_INPUT`](crate::BAD_INPUT). A line that `faults` doesn't take is dropped. No memory is allocated.
pub fn part_to_explain<F: FaultStream>(
    folder: &str,
    name: &str,
    at: Moment,
    all: bool,
    faults: &mut F,
) -> Result<ExplainPart, u8>
    ensures part { IfOk result (λ part. explained_of folder.now name.now at all ≡ Ok part) }
    ensures silent { OnOk result (faults.new ≡ faults.old) }
    ensures told { IfErr result (λ status. TellsBadPart (F.reported faults.old) (F.reported faults.new)
        (explained_of folder.now name.now at all) status) }
{
    match explained_of(folder, name, at, all) {
        Ok(part) => Ok(part),
        Err(bad) => Err(tell_bad_part(bad, faults)),
    }
}
