//! Which files are deleted before one is begun.
//!
//! Defined in: `specs/Meaning/Folders.antt`.
//! Tested in: `lg_recorder_tests/src/recording.rt`.
ghost use Rattle.std.specs.Prelude.{◌≡◌, ◌≤◌, ◌<◌, ℕ, length, drop, true, OnOk};
ghost use Rattle.lg_recorder.specs.Meaning.Folders.{begun, deleted, deleted_behind, held_in, listed, IsLeastDeleted};

use crate::folder::{RecordFolder, StoredFile};
use std::io::ErrorKind;

/// How many of these files, the oldest first, have to go so that the others have at most so many bytes.
pub(crate) fn excess(files: &[StoredFile], room: u64) -> usize
    ensures { IsLeastDeleted room files.now result }
{
    let mut left = room;
    let mut kept = files.len();
    while kept > 0 {
        let size = files[kept - 1].size;
        if size > left {
            return kept;
        }
        left -= size;
        kept -= 1;
    }
    0
}

/// Deletes these files, the first one first, up to the first that can't be deleted.
pub(crate) fn delete_each<F: RecordFolder>(
    folder: &mut F,
    files: &[StoredFile],
) -> Result<(), ErrorKind>
    ensures deleted { F.tells ≡ true → OnOk result
        (deleted (F.past folder.new) ≡ deleted_behind files.now (deleted (F.past folder.old))) }
    ensures held { F.tells ≡ true → held_in (F.past folder.new) ≡ held_in (F.past folder.old) }
    ensures listed { F.tells ≡ true → listed (F.past folder.new) ≡ listed (F.past folder.old) }
    ensures begun { F.tells ≡ true → begun (F.past folder.new) ≡ begun (F.past folder.old) }
{
    for file in files {
        folder.delete(file.number)?;
    }
    Ok(())
}
