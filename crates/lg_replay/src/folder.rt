//! Replays the files of a folder.
//!
//! Defined in: `specs/Meaning/Folders.antt`, `specs/Support/Folders.antt`.
//! Tested in: `lg_replay_tests/src/folders.rt`, `lg_replay_tests/src/disk.rt`.
ghost use Rattle.std.specs.Prelude.{◌≡◌, ◌∷◌, ◌++◌, [], ℕ, List, IfErr, IfOk, OnOk, Option, false, map};
ghost use Rattle.lg_replay.specs.Meaning.Files.{RecordingFile};
ghost use Rattle.lg_replay.specs.Meaning.Folders.{FailsAtFile, FailsAtList, FilesCall, LeavesBehind, ListsFiles};
ghost use Rattle.lg_replay.specs.Meaning.Folders.{ReplaysAll, ReplaysListed, file_number};
ghost use Rattle.lg_replay.specs.Support.Replayed.{IsReplayed};
ghost use Rattle.lg_replay.specs.Support.Folders.{EndFails, EndsAll, GoesOnByFile, HasReplayed, IsReadWhole};
ghost use Rattle.lg_replay.specs.Support.Folders.{ReadFails, SoFar};

use crate::counts::ReplayCounts;
use crate::disk::DiskFiles;
use crate::end::ReplayEnd;
use crate::fault::FolderFault;
use crate::replayer::Replayer;
use crate::window::Window;
use lg_text::write_whole;
use std::alloc::Global;
use std::fs::Files;
use std::io::{ErrorKind, Write};

/// The most bytes of a file that is replayed (this project's choice): four times the size of a file of a recording,
/// which may pass it by one batch.
pub const MAX_FILE_BYTES: usize = 256_000_000;

/// How the replay of a folder ended.
#[derive(Clone, Copy, Debug, PartialEq, Eq)]
pub struct Replayed {
    /// How the replay of its files ended.
    pub end: ReplayEnd,
    /// How many entries there were, and the verdicts on them.
    pub counts: ReplayCounts,
}

/// The files of a recording, to be listed and read. A later file has a greater number.
pub trait RecordingFiles {
    ghost use Rattle.std.specs.Prelude.{◌≡◌, Bool, true, List, ◌∷◌, OnOk, IsSorted};
    ghost use Rattle.std.specs.Ordering.{nat_cmp};
    ghost use Rattle.lg_replay.specs.Meaning.Folders.{FilesCall};
    ghost use Rattle.lg_replay.specs.Meaning.Folders.FilesCall.{Listed, Read};

    // Whether contracts can see what was listed and read.
    ghost tells: { Bool };

    // What was listed and read, the latest call first, if contracts can see that.
    ghost past: { Self → List FilesCall };

    /// Lists the numbers of the files, in ascending order, in place of what the list had. Allocates memory for the
    /// list. The error is the system's kind, or [`ErrorKind::OutOfMemory`]; then the list may have any numbers.
    fn list(&mut self, numbers: &mut Vec<u64>) -> Result<(), ErrorKind>
        ensures told { tells ≡ true → past self.new ≡ Listed numbers.new.items result ∷ past self.old }
        ensures sorted { OnOk result (IsSorted nat_cmp numbers.new.items) };

    /// Reads the file with a number, in place of what the bytes were: all of it, or if it has more than
    /// [`MAX_FILE_BYTES`], one byte more than that. Allocates memory for the bytes. The error is the system's kind, or
    /// [`ErrorKind::OutOfMemory`]; then the bytes may be any.
    fn read(&mut self, number: u64, bytes: &mut Vec<u8>) -> Result<(), ErrorKind>
        ensures { tells ≡ true → past self.new ≡ Read number bytes.new.items result ∷ past self.old };
}

/// The numbers of the files, in ascending order, of which there has to be one at least. They are listed once. Allocates
/// memory for the list.
///
/// The error is [`FolderFault::Unlisted`], [`FolderFault::NoFile`], or that memory was refused.
pub fn list_numbers<S: RecordingFiles>(
    alloc: Global,
    files: &mut S,
) -> Result<Vec<u64>, FolderFault>
    ensures listed { IfOk result (λ numbers. ListsFiles S.tells (S.past files.old) (S.past files.new) numbers.items) }
    ensures fault { IfErr result (FailsAtList S.tells (S.past files.old) (S.past files.new)) }
{
    let mut numbers = Vec::new(alloc);
    match files.list(&mut numbers) {
        Err(ErrorKind::OutOfMemory) => Err(FolderFault::Memory),
        Err(kind) => Err(FolderFault::Unlisted(kind)),
        Ok(()) => {
            if numbers.is_empty() {
                return Err(FolderFault::NoFile);
            }
            Ok(numbers)
        }
    }
}

/// The bytes of the file with a number. It is read once. Allocates memory for the bytes.
///
/// The error is [`FolderFault::Unread`], [`FolderFault::TooLarge`], or that memory was refused.
pub fn read_bytes<S: RecordingFiles>(
    alloc: Global,
    files: &mut S,
    number: u64,
) -> Result<Vec<u8>, FolderFault>
    ensures read { IfOk result (λ bytes. IsReadWhole S.tells (S.past files.old) (S.past files.new) number bytes.items) }
    ensures fault { IfErr result (ReadFails S.tells (S.past files.old) (S.past files.new) number) }
{
    let mut bytes = Vec::new(alloc);
    match files.read(number, &mut bytes) {
        Err(ErrorKind::OutOfMemory) => Err(FolderFault::Memory),
        Err(kind) => Err(FolderFault::Unread { number, kind }),
        Ok(()) => {
            if bytes.len() > MAX_FILE_BYTES {
                return Err(FolderFault::TooLarge { number });
            }
            Ok(bytes)
        }
    }
}

/// Reads the file with a number, replays it, and writes what is told of it. Its bytes and the text are freed then.
fn replay_next<S: RecordingFiles, W: Write>(
    alloc: Global,
    files: &mut S,
    number: u64,
    replayer: &mut Replayer,
    window: &Window,
    writer: &mut W,
) -> Result<(), FolderFault>
    ensures done { OnOk result ((before : List FilesCall) (held : Option (List ℕ)) (earlier : List RecordingFile)
        → SoFar S.tells before (S.past files.old) window.now held (W.contents writer.old) replayer.old earlier
        → GoesOnByFile S.tells before (S.past files.new) window.now held (W.contents writer.new) replayer.new earlier
        number) }
    ensures fault { IfErr result (λ fault. (before : List FilesCall) (held : Option (List ℕ))
        (earlier : List RecordingFile) (numbers others : List ℕ)
        → SoFar S.tells before (S.past files.old) window.now held (W.contents writer.old) replayer.old earlier
        → numbers ≡ map file_number earlier ++ number ∷ others
        → FailsAtFile S.tells before (S.past files.new) numbers window.now held (W.contents writer.new) fault) }
{
    let bytes = read_bytes(alloc, files, number)?;
    let mut text = Vec::new(alloc);
    replayer.replay_file(alloc, number, &bytes, window, &mut text)?;
    write_whole(writer, &text)?;
    Ok(())
}

/// Reads the files with these numbers one after another, replays them, and writes what is told of each.
fn replay_each<S: RecordingFiles, W: Write>(
    alloc: Global,
    files: &mut S,
    numbers: &[u64],
    replayer: &mut Replayer,
    window: &Window,
    writer: &mut W,
) -> Result<(), FolderFault>
    requires { IsReplayed replayer.old [] }
    ensures done { OnOk result (HasReplayed S.tells (S.past files.old) (S.past files.new) numbers.now window.now
        (W.contents writer.old) (W.contents writer.new) replayer.new) }
    ensures fault { IfErr result (FailsAtFile S.tells (S.past files.old) (S.past files.new) numbers.now window.now
        (W.contents writer.old) (W.contents writer.new)) }
{
    for number in numbers {
        replay_next(alloc, files, *number, replayer, window, writer)?;
    }
    Ok(())
}

/// Writes the last line, and gives the end.
fn write_end<W: Write>(
    alloc: Global,
    replayer: &Replayer,
    writer: &mut W,
) -> Result<Replayed, FolderFault>
    ensures done { IfOk result (λ done. (files : List RecordingFile) → IsReplayed replayer.now files
        → EndsAll (W.contents writer.old) (W.contents writer.new) files done) }
    ensures fault { IfErr result (λ fault. (files : List RecordingFile) → IsReplayed replayer.now files
        → EndFails (W.contents writer.old) (W.contents writer.new) files fault) }
{
    let mut text = Vec::new(alloc);
    let end = replayer.finish(&mut text)?;
    write_whole(writer, &text)?;
    Ok(Replayed {
        end,
        counts: replayer.counts(),
    })
}

/// Replays the files of a recording behind their list.
fn replay_listed<S: RecordingFiles, W: Write>(
    alloc: Global,
    files: &mut S,
    numbers: &[u64],
    window: &Window,
    writer: &mut W,
) -> Result<Replayed, FolderFault>
    ensures done { IfOk result (ReplaysListed S.tells (S.past files.old) (S.past files.new) numbers.now window.now
        (W.contents writer.old) (W.contents writer.new)) }
    ensures fault { IfErr result (FailsAtFile S.tells (S.past files.old) (S.past files.new) numbers.now window.now
        (W.contents writer.old) (W.contents writer.new)) }
{
    let mut replayer = Replayer::new(alloc)?;
    replay_each(alloc, files, numbers, &mut replayer, window, writer)?;
    write_end(alloc, &replayer, writer)
}

/// Replays the files of a recording, and writes what is told of them, one after another.
///
/// They are listed once, and read in the order of their numbers: each whole, replayed, and freed with what is told of
/// it before the next is read. So the memory is in proportion to the greatest file and its text, besides two detectors.
/// The writer is flushed behind each file.
///
/// The error says what of that failed. What was done before stays.
pub fn replay_files<S: RecordingFiles, W: Write>(
    alloc: Global,
    files: &mut S,
    window: &Window,
    writer: &mut W,
) -> Result<Replayed, FolderFault>
    ensures done { IfOk result (ReplaysAll S.tells (S.past files.old) (S.past files.new) window.now
        (W.contents writer.old) (W.contents writer.new)) }
    ensures fault { IfErr result (LeavesBehind S.tells (S.past files.old) (S.past files.new) window.now
        (W.contents writer.old) (W.contents writer.new)) }
{
    let numbers = list_numbers(alloc, files)?;
    replay_listed(alloc, files, &numbers, window, writer)
}

/// Replays the files of a recording in the folder at a path, as [`replay_files`] does.
///
/// A file's name is ten decimal digits and `.lgr`; other names are passed over. Contracts don't see what the machine
/// lists and reads: what is written is the stated text of some files in the order of their numbers.
pub fn replay_folder<R: Files + AllocGlobal + Clone + Drop, W: Write>(
    rt: &R,
    alloc: Global,
    path: &str,
    window: &Window,
    writer: &mut W,
) -> Result<Replayed, FolderFault>
    ensures done { IfOk result (ReplaysAll false [] [] window.now (W.contents writer.old) (W.contents writer.new)) }
    ensures fault { IfErr result (LeavesBehind false [] [] window.now (W.contents writer.old) (W.contents writer.new)) }
{
    let mut files = DiskFiles::new(rt, alloc, path);
    replay_files(alloc, &mut files, window, writer)
}
