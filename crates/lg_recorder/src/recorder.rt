//! A recorder: which file a batch goes to, and what is deleted before one is begun.
//!
//! Defined in: `specs/Meaning/Holding.antt`, `specs/Meaning/Folders.antt`.
//! Tested in: `lg_recorder_tests/src/recording.rt`.
ghost use Rattle.std.specs.Prelude.{◌≡◌, ◌+◌, ◌-◌, ◌<◌, ◌≤◌, ℕ, List, [], ◌∷◌, true, false, length, not};
ghost use Rattle.std.specs.Prelude.{None, Some, OnErr, OnOk, IfErr, IfOk, IfSome, IsOk, IsOkAnd};
ghost use Rattle.lg_recorder.specs.Meaning.Batches.{BatchValue};
ghost use Rattle.lg_recorder.specs.Meaning.Folders.{begun, held_in};
ghost use Rattle.lg_recorder.specs.Meaning.Holding.{Holds, MakesFile, MakesRoom, NoFileChanged, takes_batch};
ghost use Rattle.lg_recorder.specs.Meaning.Holding.{file_size, record_limit};
ghost use Rattle.lg_recorder.specs.Support.Steps.{AppendsTo, BeginsFile};

use crate::appending::{Progress, append_each};
use crate::batch::{Batch, put_head_of};
use crate::fault::RecordFault;
use crate::folder::{MAX_FILE_NUMBER, RecordFolder, StoredFile};
use crate::room::{delete_each, excess};
use std::alloc::Global;
use std::io::ErrorKind;

/// The greatest size of a file in bytes (this project's choice).
const MAX_FILE_SIZE: u64 = 64_000_000;

/// The open file of a recorder.
#[derive(Clone, Copy, Debug)]
pub struct OpenFile {
    /// Its number.
    pub number: u64,
    /// How many bytes are left until it has its size.
    pub left: u64,
    /// The number of the entry that is due: the one behind its last.
    pub due: u64,
    /// Whether it has nothing but a head.
    pub is_bare: bool,
}

/// What a recorder has counted, each at most 2^64 - 1.
#[derive(Clone, Copy, Debug, Default, PartialEq, Eq)]
pub struct RecorderCounts {
    /// The entries that were written.
    pub entries: u64,
    /// The entries that were taken and not written.
    pub lost: u64,
    /// The bytes that were written.
    pub bytes: u64,
    /// How often a batch wasn't written whole.
    pub failures: u64,
}

/// Writes batches of entries to the files of a folder.
#[derive(Drop)]
pub struct Recorder {
    /// How many bytes the earlier files may have when one is begun.
    room: u64,
    /// The size of a file.
    size: u64,
    /// The least number of the next file.
    next: u64,
    current: Option<OpenFile>,
    /// The files of the folder as they were listed last. Its memory is used again.
    files: Vec<StoredFile>,
    /// What is to be appended. Its memory is used again.
    text: Vec<u8>,
    counts: RecorderCounts,
    is_failing: bool,
}

impl RecorderCounts {
    /// A batch was not written whole: these entries of it were written, with so many bytes, and those were lost.
    fn note_failed(&mut self, entries: usize, bytes: u64, lost: usize) {
        self.note_written(entries, bytes);
        self.lost = self.lost.saturating_add(lost as u64);
        self.failures = self.failures.saturating_add(1);
    }

    /// These entries were written, with so many bytes.
    fn note_written(&mut self, entries: usize, bytes: u64) {
        self.entries = self.entries.saturating_add(entries as u64);
        self.bytes = self.bytes.saturating_add(bytes);
    }
}

/// The file behind a batch that was written whole: with the number that is due then. None if that is above 2^64 - 1.
fn behind(file: OpenFile, first: u64, entries: usize, left: u64) -> Option<OpenFile>
    ensures due { IfSome result (λ o. o.due ≡ first + entries) }
    ensures left { IfSome result (λ o. o.left ≡ left) }
{
    match first.checked_add(entries as u64) {
        None => None,
        Some(due) => Some(OpenFile {
            number: file.number,
            left,
            due,
            is_bare: false,
        }),
    }
}

/// The number of a file behind these: one more than that of the last, but at least `next`.
fn number_behind(files: &[StoredFile], next: u64) -> u64
    ensures { next ≤ result }
{
    match files.last() {
        Some(file) => next.max(file.number.saturating_add(1)),
        None => next,
    }
}

/// Closes a file, and deletes it if it has nothing but a head and no entry was appended since.
fn abandon<F: RecordFolder>(folder: &mut F, file: OpenFile, entries: usize)
    ensures { F.tells ≡ true → held_in (F.past folder.new) ≡ held_in (F.past folder.old) }
{
    folder.close();
    if entries > 0 {
        return;
    }
    if file.is_bare {
        let _ = folder.delete(file.number);
    }
}

impl Recorder {
    /// A recorder of a recording that may take so many megabytes, 1 to 100,000, of 1,000,000 bytes each. Allocates
    /// nothing.
    pub fn new(alloc: Global, record_mb: u64) -> Recorder
        requires { record_mb ≤ 100000 }
        ensures size { result.size ≡ file_size record_mb }
        ensures room { result.room + result.size ≡ record_limit record_mb }
        ensures unopened { result.current ≡ None }
        ensures well { result.is_failing ≡ false }
    {
        let limit = record_mb * 1_000_000;
        let size = (limit / 8).min(MAX_FILE_SIZE);
        Recorder {
            room: limit - size,
            size,
            next: 1,
            current: None,
            files: Vec::new(alloc),
            text: Vec::new(alloc),
            counts: RecorderCounts::default(),
            is_failing: false,
        }
    }

    /// What it has counted since it was made.
    pub fn counts(&self) -> RecorderCounts
        ensures { result ≡ self.now.counts }
    {
        self.counts
    }

    /// Lists the files of the folder, and deletes the oldest ones until those that are left and one file's size fit in
    /// the recording. Gives the number of the next file: it is greater than those that were listed and those that were
    /// begun before.
    fn make_room<F: RecordFolder>(&mut self, folder: &mut F) -> Result<u64, ErrorKind>
        ensures made { F.tells ≡ true → OnOk result (MakesRoom self.old.room (F.past folder.old) (F.past folder.new)) }
        ensures number { IfOk result (λ number. (self.old.next ≤ number) × (number ≤ MAX_FILE_NUMBER)) }
        ensures kept { self.new ≡ record self.old { files = self.new.files } }
        ensures held { F.tells ≡ true → held_in (F.past folder.new) ≡ held_in (F.past folder.old) }
        ensures begun { F.tells ≡ true → begun (F.past folder.new) ≡ begun (F.past folder.old) }
    {
        folder.list(&mut self.files)?;
        let files = self.files.as_slice();
        let count = excess(files, self.room);
        delete_each(folder, &files[..count])?;
        let number = number_behind(files, self.next);
        if number > MAX_FILE_NUMBER {
            return Err(ErrorKind::InvalidFilename);
        }
        Ok(number)
    }

    /// Begins a file with the head of a batch, behind as many deletions as it needs. If the head can't be written, the
    /// file is deleted.
    fn begin<F: RecordFolder, B: Batch>(
        &mut self,
        folder: &mut F,
        batch: &B,
    ) -> Result<OpenFile, ErrorKind>
        ensures begun { F.tells ≡ true → IfOk result (BeginsFile self.old.size self.old.room self.old.next
            (B.batch batch.now) (F.past folder.old) (F.past folder.new)) }
        ensures failed { F.tells ≡ true → OnErr result
            ((held_in (F.past folder.new)).texts ≡ (held_in (F.past folder.old)).texts) }
        ensures kept { self.new ≡ record self.old {
          next = self.new.next;
          files = self.new.files;
          text = self.new.text;
          counts = self.new.counts;
        } }
    {
        self.text.clear();
        put_head_of(batch, &mut self.text)?;
        let number = self.make_room(folder)?;
        folder.begin(number)?;
        self.next = number + 1;
        let text = self.text.as_slice();
        let size = text.len() as u64;
        if let Err(kind) = folder.append(text) {
            folder.close();
            let _ = folder.delete(number);
            return Err(kind);
        }
        self.counts.note_written(0, size);
        Ok(OpenFile {
            number,
            left: self.size.saturating_sub(size),
            due: batch.first(),
            is_bare: true,
        })
    }

    /// The file that a batch goes to: the open one, if that hasn't reached its size and the first entry is due, and
    /// else a new one. No file is the recorder's open one then.
    fn file_for<F: RecordFolder, B: Batch>(
        &mut self,
        folder: &mut F,
        batch: &B,
    ) -> Result<OpenFile, ErrorKind>
        ensures goes { takes_batch self.old.current (B.batch batch.now).first ≡ true
            → (folder.new ≡ folder.old) × IsOkAnd result (λ file. self.old.current ≡ Some file) }
        ensures begun { F.tells ≡ true → takes_batch self.old.current (B.batch batch.now).first ≡ false
            → IfOk result (BeginsFile self.old.size self.old.room self.old.next
            (B.batch batch.now) (F.past folder.old) (F.past folder.new)) }
        ensures failed { F.tells ≡ true → OnErr result
            ((held_in (F.past folder.new)).texts ≡ (held_in (F.past folder.old)).texts) }
        ensures kept { self.new ≡ record self.old {
          next = self.new.next;
          current = None;
          files = self.new.files;
          text = self.new.text;
          counts = self.new.counts;
        } }
    {
        let first = batch.first();
        match self.current.take() {
            None => self.begin(folder, batch),
            Some(file) if file.left > 0 && file.due == first => Ok(file),
            Some(_) => {
                folder.close();
                let file = self.begin(folder, batch)?;
                Ok(file)
            }
        }
    }

    /// Notes that so many entries of a batch are lost, while so many were written. Gives the fault.
    fn lose(&mut self, entries: usize, bytes: u64, lost: usize, kind: ErrorKind) -> RecordFault
        ensures fault { result ≡ record { kind = kind; is_first = not self.old.is_failing } }
        ensures kept { self.new ≡ record self.old { counts = self.new.counts; is_failing = true } }
    {
        let is_first = !self.is_failing;
        self.counts.note_failed(entries, bytes, lost);
        self.is_failing = true;
        RecordFault { kind, is_first }
    }

    /// Appends a batch to a file. If that fails, the file is closed, and deleted if it has nothing but a head.
    fn append_to<F: RecordFolder, B: Batch>(
        &mut self,
        folder: &mut F,
        batch: &B,
        buffers: &mut B::Buffers,
        file: OpenFile,
    ) -> Result<(), RecordFault>
        requires { self.old.current ≡ None }
        ensures appended { F.tells ≡ true → AppendsTo (B.batch batch.now) (F.past folder.old) (F.past folder.new)
            file self.new.current }
        ensures files { F.tells ≡ true → OnOk result (NoFileChanged (F.past folder.old) (F.past folder.new)) }
        ensures first { IfErr result (λ fault. fault.is_first ≡ not self.old.is_failing) }
        ensures failing { OnErr result (self.new.is_failing ≡ true) }
        ensures well { OnOk result (self.new.is_failing ≡ false) }
        ensures kept { self.new ≡ record self.old {
          current = self.new.current;
          text = self.new.text;
          counts = self.new.counts;
          is_failing = self.new.is_failing;
        } }
    {
        let len = batch.len();
        let mut progress = Progress::new(file.left);
        match append_each(&mut self.text, folder, batch, buffers, &mut progress) {
            Ok(()) => {
                self.counts.note_written(len, progress.bytes);
                self.current = behind(file, batch.first(), len, progress.left);
                self.is_failing = false;
                Ok(())
            }
            Err(kind) => {
                abandon(folder, file, progress.entries);
                Err(self.lose(
                    progress.entries,
                    progress.bytes,
                    len - progress.entries,
                    kind,
                ))
            }
        }
    }

    /// Writes a batch: to the open file, if there is one, it hasn't reached its size, and the first entry is the one
    /// that is due; else to a new file. Before that is begun, the oldest files are deleted until those that are left
    /// and one file's size fit in the recording. An empty batch does nothing.
    ///
    /// The error is that entries weren't written: the folder failed, or memory was refused. The file is closed then,
    /// and the next batch begins a new one. Entries of the batch that were appended by then stay. A file that has
    /// nothing but a head is deleted. What the buffers hold before or after doesn't matter. Memory is allocated for the
    /// list of the files and for the text of a piece, and kept, and by the buffers.
    pub fn record<F: RecordFolder, B: Batch>(
        &mut self,
        folder: &mut F,
        batch: &B,
        buffers: &mut B::Buffers,
    ) -> Result<(), RecordFault>
        ensures holds { F.tells ≡ true → (batches : List BatchValue)
            → Holds self.old.size batches (F.past folder.old) self.old.current
            → Holds self.new.size (B.batch batch.now ∷ batches) (F.past folder.new) self.new.current }
        ensures goes { F.tells ≡ true → takes_batch self.old.current (B.batch batch.now).first ≡ true
            → OnOk result (NoFileChanged (F.past folder.old) (F.past folder.new)) }
        ensures begins { F.tells ≡ true → 0 < length (B.batch batch.now).chunks
            → takes_batch self.old.current (B.batch batch.now).first ≡ false
            → OnOk result (MakesFile self.old.room self.old.next (F.past folder.old) (F.past folder.new)) }
        ensures empty { length (B.batch batch.now).chunks ≡ 0
            → (folder.new ≡ folder.old) × (self.new ≡ self.old) × IsOk result }
        ensures first { IfErr result (λ fault. fault.is_first ≡ not self.old.is_failing) }
        ensures failing { OnErr result (self.new.is_failing ≡ true) }
        ensures well { 0 < length (B.batch batch.now).chunks → OnOk result (self.new.is_failing ≡ false) }
        ensures size { self.new.size ≡ self.old.size }
        ensures room { self.new.room ≡ self.old.room }
    {
        let len = batch.len();
        if len == 0 {
            return Ok(());
        }
        match self.file_for(folder, batch) {
            Ok(file) => self.append_to(folder, batch, buffers, file),
            Err(kind) => Err(self.lose(0, 0, len, kind)),
        }
    }

    /// Closes the open file, if there is one. A batch that comes afterwards begins a new one.
    pub fn close<F: RecordFolder>(&mut self, folder: &mut F)
        ensures held { F.tells ≡ true → held_in (F.past folder.new) ≡ held_in (F.past folder.old) }
        ensures kept { self.new ≡ record self.old { current = None } }
    {
        if self.current.take().is_some() {
            folder.close();
        }
    }
}
