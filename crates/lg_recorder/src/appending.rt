//! Appends the entries of a batch to the open file, in pieces of whole entries.
//!
//! Defined in: `specs/Meaning/Holding.antt`, `specs/Support/Pieces.antt`.
//! Tested in: `lg_recorder_tests/src/recording.rt`.
ghost use Rattle.std.specs.Prelude.{◌≡◌, ℕ, List, length, OnOk, OnErr};
ghost use Rattle.lg_recorder.specs.Meaning.Folders.{FolderEvent};
ghost use Rattle.lg_recorder.specs.Support.Pieces.{Appending, Stopped};

use crate::batch::{Batch, put_entry_of};
use crate::folder::RecordFolder;
use std::io::ErrorKind;

/// From how many bytes on a piece is appended (this project's choice).
pub(crate) const PIECE: usize = 65536;

/// How far the appending of a batch has come.
#[derive(Clone, Copy)]
pub(crate) struct Progress {
    /// How many of its entries are appended.
    pub(crate) entries: usize,
    /// How many bytes are left until the file has its size.
    pub(crate) left: u64,
    /// How many bytes were appended, at most 2^64 - 1.
    pub(crate) bytes: u64,
}

impl Progress {
    /// Nothing is appended yet to a file that has so many bytes left.
    pub(crate) fn new(left: u64) -> Progress
        ensures { result ≡ record { entries = 0; left = left; bytes = 0 } }
    {
        Progress {
            entries: 0,
            left,
            bytes: 0,
        }
    }

    /// Appends a text, unless it is empty, and empties it. With it so many entries are appended.
    fn append<F: RecordFolder>(
        &mut self,
        text: &mut Vec<u8>,
        folder: &mut F,
        entries: usize,
    ) -> Result<(), ErrorKind>
        ensures moved { OnOk result (self.new.entries ≡ entries) }
        ensures appended { (chunks : List (List ℕ)) (left : ℕ) (begin : List FolderEvent)
            → Appending F.tells chunks left begin (F.past folder.old) self.old entries text.old.items
            → OnOk result (Appending F.tells chunks left begin (F.past folder.new) self.new entries text.new.items) }
        ensures stopped { (chunks : List (List ℕ)) (left : ℕ) (begin : List FolderEvent)
            → Appending F.tells chunks left begin (F.past folder.old) self.old entries text.old.items
            → OnErr result (Stopped F.tells chunks left begin (F.past folder.new) self.new entries) }
    {
        let bytes = text.as_slice();
        let size = bytes.len();
        if size == 0 {
            self.entries = entries;
            return Ok(());
        }
        folder.append(bytes)?;
        self.entries = entries;
        self.left = self.left.saturating_sub(size as u64);
        self.bytes = self.bytes.saturating_add(size as u64);
        text.clear();
        Ok(())
    }

    /// Appends a text as [`Progress::append`] does, if it is long enough for a piece.
    fn append_piece<F: RecordFolder>(
        &mut self,
        text: &mut Vec<u8>,
        folder: &mut F,
        entries: usize,
    ) -> Result<(), ErrorKind>
        ensures appended { (chunks : List (List ℕ)) (left : ℕ) (begin : List FolderEvent)
            → Appending F.tells chunks left begin (F.past folder.old) self.old entries text.old.items
            → OnOk result (Appending F.tells chunks left begin (F.past folder.new) self.new entries text.new.items) }
        ensures stopped { (chunks : List (List ℕ)) (left : ℕ) (begin : List FolderEvent)
            → Appending F.tells chunks left begin (F.past folder.old) self.old entries text.old.items
            → OnErr result (Stopped F.tells chunks left begin (F.past folder.new) self.new entries) }
    {
        if text.len() < PIECE {
            return Ok(());
        }
        self.append(text, folder, entries)?;
        Ok(())
    }
}

/// Appends the entries of a batch, written with these buffers. The error is the folder's, or refused memory, and then
/// `progress` says how many entries are appended.
pub(crate) fn append_each<F: RecordFolder, B: Batch>(
    text: &mut Vec<u8>,
    folder: &mut F,
    batch: &B,
    buffers: &mut B::Buffers,
    progress: &mut Progress,
) -> Result<(), ErrorKind>
    requires { progress.old.entries ≡ 0 }
    ensures whole { OnOk result (progress.new.entries ≡ length (B.batch batch.now).chunks) }
    ensures stopped { Stopped F.tells (B.batch batch.now).chunks progress.old.left (F.past folder.old)
        (F.past folder.new) progress.new (length (B.batch batch.now).chunks) }
{
    text.clear();
    for index in 0..batch.len() {
        put_entry_of(batch, index, buffers, text)?;
        progress.append_piece(text, folder, index + 1)?;
    }
    progress.append(text, folder, batch.len())?;
    Ok(())
}
