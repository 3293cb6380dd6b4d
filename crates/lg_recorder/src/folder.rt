//! A folder of recordings: files are listed, begun, appended to, closed and deleted in it.
//!
//! Defined in: `specs/Meaning/Folders.antt`.
//! Tested in: `lg_recorder_tests/src/folder.rt`.

use std::io::ErrorKind;

/// The greatest number of a file: a name has ten digits.
pub const MAX_FILE_NUMBER: u64 = 9_999_999_999;

/// A file of a folder.
#[derive(Clone, Copy, Debug, PartialEq, Eq)]
pub struct StoredFile {
    /// The number in its name.
    pub number: u64,
    /// How many bytes it has.
    pub size: u64,
}

/// A folder of recordings. A later file has a greater number. At most one file is open, the one that was begun last.
pub trait RecordFolder {
    ghost use Rattle.std.specs.Prelude.{◌≡◌, Bool, true, List, ◌∷◌, is_ok, OnOk, IsSortedByKey};
    ghost use Rattle.std.specs.Ordering.{nat_cmp};
    ghost use Rattle.lg_recorder.specs.declared.folder.StoredFile.{StoredFile as Stored};
    ghost use Rattle.lg_recorder.specs.Meaning.Folders.{FolderEvent, number_of_file};
    ghost use Rattle.lg_recorder.specs.Meaning.Folders.FolderEvent.{Listed, Begun, Appended, Closed, Deleted};

    // Whether contracts can see what was done in it.
    ghost tells: { Bool };

    // What was done in it, the latest first, if contracts can see that.
    ghost past: { Self → List FolderEvent };

    /// Lists its files with their sizes, in the order of their numbers, in place of what the list had. Allocates memory
    /// for the list. The error is the system's kind, or refused memory; then the list may have any files.
    fn list(&mut self, files: &mut Vec<StoredFile>) -> Result<(), ErrorKind>
        ensures told { tells ≡ true → past self.new ≡ Listed files.new.items (is_ok result) ∷ past self.old }
        ensures sorted { OnOk result (IsSortedByKey number_of_file nat_cmp files.new.items) };

    /// Begins a file with a number that none has, and opens it. The error is the system's kind; then no file is open.
    fn begin(&mut self, number: u64) -> Result<(), ErrorKind>
        ensures { tells ≡ true → past self.new ≡ Begun number (is_ok result) ∷ past self.old };

    /// Appends bytes to the open file, all of them. The error is the system's kind, or that none is open; then the file
    /// has a beginning of them: none, a part or all.
    fn append(&mut self, bytes: &[u8]) -> Result<(), ErrorKind>
        ensures { tells ≡ true → past self.new ≡ Appended bytes.now (is_ok result) ∷ past self.old };

    /// Closes the open file, if one is. The system reports no fault of this.
    fn close(&mut self)
        ensures { tells ≡ true → past self.new ≡ Closed ∷ past self.old };

    /// Deletes the file with a number. The error is the system's kind.
    fn delete(&mut self, number: u64) -> Result<(), ErrorKind>
        ensures { tells ≡ true → past self.new ≡ Deleted number (is_ok result) ∷ past self.old };
}
