//! The command `replay`.
//!
//! Defined in: `specs/Meaning/Running.antt`, `lg_commands/specs/Meaning/Replaying.antt`,
//! `lg_replay_run/specs/Meaning/Running.antt`.
//! Tested in: `cases/replay.case`, `cases/recordings`.
ghost use Rattle.std.specs.Option.{option_map};
ghost use Rattle.lg_commands.specs.Meaning.Replaying.{part_of};
ghost use Rattle.lg_cli.specs.Meaning.Running.{ReplaysPart};

use lg_commands::part_to_replay;
use lg_replay_run::{Window, replay_recording};
use lg_text::FaultStream;
use lg_timing::Moment;
use std::alloc::Global;
use std::io::Write;
use std::rt::Files;

/// What `replay` was given: the text that should be a path, two moments, and the text that should be a member's name.
#[derive(Clone, Copy, Debug)]
pub(crate) struct ReplayWords<'a> {
    pub(crate) folder: &'a str,
    pub(crate) from: Moment,
    pub(crate) to: Moment,
    pub(crate) only: Option<&'a str>,
}

/// Replays the recording that the command asks for, and gives the exit status: that of [`part_to_replay`] if a text is
/// bad, and else that of [`replay_recording`].
pub(crate) fn replay_part<M, W, F>(
    rt: &M,
    alloc: Global,
    words: &ReplayWords<'_>,
    writer: &mut W,
    faults: &mut F,
) -> u8
where
    M: Files + AllocGlobal + Clone + Drop,
    W: Write,
    F: FaultStream,
    ensures { ReplaysPart writer.old writer.new (W.contents writer.old) (W.contents writer.new)
        (F.reported faults.old) (F.reported faults.new) (part_of words.now.folder.now words.now.from words.now.to
        (option_map (λ text. text.now) words.now.only)) result }
{
    let part = match part_to_replay(words.folder, words.from, words.to, words.only, faults) {
        Ok(part) => part,
        Err(status) => return status,
    };
    let window = Window {
        from: part.from,
        to: part.to,
        only: part.only,
    };
    replay_recording(rt, alloc, part.folder.as_str(), &window, writer, faults)
}
