//! Replays a folder, and tells how that went.
//!
//! Defined in: `specs/Meaning/Running.antt`, `lg_replay/specs/Meaning/Folders.antt`.
//! Tested in: `cases/recordings`, `lg_replay_tests/src/disk.rt`.
ghost use Rattle.std.specs.Prelude.{◌≡◌};
ghost use Rattle.lg_replay_run.specs.Meaning.Running.{ReplaysFolder};
ghost use Rattle.lg_replay_run.specs.Meaning.Words.{replay_status};

use crate::telling::{FAILED, tell_fault};
use lg_replay::{ReplayEnd, Window, replay_folder};
use lg_text::FaultStream;
use std::alloc::Global;
use std::fs::Files;
use std::io::Write;

/// Replays the recording in the folder at a path, as [`replay_folder`] does, and gives the exit status: 0 if each reply
/// was checked and is the due one, and nothing is wrong with a file; else 1. It is 1 too if the folder or a file can't
/// be read, memory is refused, or the text can't be written, and [`tell_fault`] tells that.
pub fn replay_recording<R, W, F>(
    rt: &R,
    alloc: Global,
    folder: &str,
    window: &Window,
    writer: &mut W,
    faults: &mut F,
) -> u8
where
    R: Files + AllocGlobal + Clone + Drop,
    W: Write,
    F: FaultStream,
    ensures { ReplaysFolder (W.contents writer.old) (W.contents writer.new) (F.reported faults.old)
        (F.reported faults.new) folder.now window.now result }
{
    match replay_folder(rt, alloc, folder, window, writer) {
        Ok(replayed) => status_of(replayed.end),
        Err(fault) => tell_fault(alloc, folder, fault, faults),
    }
}

/// The exit status of a replay that came to its end.
fn status_of(end: ReplayEnd) -> u8
    ensures { result ≡ replay_status end }
{
    match end {
        ReplayEnd::Done => 0,
        ReplayEnd::Faulty | ReplayEnd::Unchecked => FAILED,
    }
}
