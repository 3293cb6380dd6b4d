//! The command `replay`: what of a recording it tells, by the texts of its command line.
//!
//! Defined in: `specs/Meaning/Replaying.antt`.
//! Tested in: `lg_command_tests/src/replay.rt`.
ghost use Rattle.std.specs.Prelude.{◌≡◌, IfErr, IfOk, Ok, OnOk};
ghost use Rattle.std.specs.Option.{option_map};
ghost use Rattle.lg_commands.specs.Meaning.Replaying.{only_of, part_of, TellsBadPart};

use crate::bad_part::{BadPart, tell_bad_part};
use lg_config::FilePath;
use lg_rules::Name;
use lg_text::FaultStream;
use lg_timing::Moment;

/// What of a recording is told.
#[derive(Debug, Drop)]
pub struct RecordingPart {
    /// The folder of the recording.
    pub folder: FilePath,
    /// The first moment, in milliseconds by the clock of the node. If it is above `to`, nothing is told.
    pub from: Moment,
    /// The last moment.
    pub to: Moment,
    /// The member of which is told. None if all is told.
    pub only: Option<Name>,
}

/// The member of which is told, by the text of its name, if one is given. The outer None says that it is no name.
fn only_of(text: Option<&str>) -> Option<Option<Name>>
    ensures { result ≡ only_of (option_map (λ given. given.now) text.entry) }
{
    match text {
        Some(text) => Some(Some(Name::new(text.as_bytes()).ok()?)),
        None => Some(None),
    }
}

/// What of a recording `replay` tells, by the texts of the folder and of a member's name, if one is given, and by the
/// first and the last moment. The error says which text is bad.
fn part_of(
    folder: &str,
    from: Moment,
    to: Moment,
    only: Option<&str>,
) -> Result<RecordingPart, BadPart>
    ensures { result ≡ part_of folder.now from to (option_map (λ given. given.now) only.entry) }
{
    let folder = FilePath::of(folder).ok_or(BadPart::Folder)?;
    let only = only_of(only).ok_or(BadPart::Name)?;
    Ok(RecordingPart {
        folder,
        from,
        to,
        only,
    })
}

/// What of a recording `replay` tells, by the texts of the folder and of a member's name, if one is given, and by the
/// first and the last moment. The folder isn't looked at.
///
/// If a text is bad, `lg: bad folder` or `lg: bad names` is reported, and the `Err` is the status, which is
/// [`BAD_INPUT`](crate::BAD_INPUT). A line that `faults` doesn't take is dropped. No memory is allocated.
pub fn part_to_replay<F: FaultStream>(
    folder: &str,
    from: Moment,
    to: Moment,
    only: Option<&str>,
    faults: &mut F,
) -> Result<RecordingPart, u8>
    ensures part { IfOk result (λ part.
        part_of folder.now from to (option_map (λ given. given.now) only.entry) ≡ Ok part) }
    ensures silent { OnOk result (faults.new ≡ faults.old) }
    ensures told { IfErr result (λ status. TellsBadPart (F.reported faults.old) (F.reported faults.new)
        (part_of folder.now from to (option_map (λ given. given.now) only.entry)) status) }
{
    match part_of(folder, from, to, only) {
        Ok(part) => Ok(part),
        Err(bad) => Err(tell_bad_part(bad, faults)),
    }
}
