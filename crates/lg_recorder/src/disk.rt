//! A folder of the machine, whose files only their owner reads.
//!
//! Defined in: `specs/Meaning/FileNames.antt`.
//! Tested in: `lg_recorder_tests/src/disk.rt`.
ghost use Rattle.std.specs.Prelude.{◌≡◌};
ghost use Rattle.lg_recorder.specs.Meaning.FileNames.{number_of_name};

use crate::folder::{RecordFolder, StoredFile};
use lg_text::number_in;
use std::alloc::{AllocError, Global};
use std::fs::{DirEntry, Files, OpenFile, OpenOptions, read_dir, remove_file};
use std::io;
use std::io::{ErrorKind, Write};
use std::os::unix::fs::{MetadataExt, OpenOptionsExt};

/// What a file's name ends in.
const ENDING: &[u8; 4] = b".lgr";

/// The mode of a file: only its owner reads and writes it.
const MODE: u32 = 0o600;

/// The number of the file with a name: ten decimal digits and `.lgr`. None if it is no such name.
pub fn number_of_name(name: &[u8]) -> Option<u64>
    ensures { result ≡ number_of_name name.now }
{
    if name.len() != 14 {
        return None;
    }
    let ending = &name[10..];
    if !ending.starts_with(ENDING) {
        return None;
    }
    number_in(&name[..10])
}

/// A folder of the machine. A file's name is ten digits and `.lgr`; other names are passed over. If the open file was
/// deleted meanwhile, the next append says that it isn't there. If its folder was renamed, it goes on where it lies.
#[derive(Drop)]
pub struct DiskFolder<R: Files> {
    rt: R,
    alloc: Global,
    path: String,
    /// The open file.
    open: Option<R::File>,
}

impl<R: Files + Drop> DiskFolder<R> {
    /// The folder at a path of this machine, in which no file is open. Nothing is done in it yet.
    pub fn new(rt: R, alloc: Global, path: String) -> DiskFolder<R> {
        DiskFolder {
            rt,
            alloc,
            path,
            open: None,
        }
    }

    /// The path of the file with a number.
    fn path_of(&self, number: u64) -> Result<String, AllocError> {
        let path = self.path.as_str();
        format!(in self.alloc; "{path}/{number:010}.lgr")
    }

    /// Makes a new file.
    fn create(&self, number: u64) -> io::Result<R::File> {
        let path = self.path_of(number)?;
        OpenOptions::new()
            .append(true)
            .create_new(true)
            .mode(MODE)
            .open(&self.rt, path)
    }
}

/// Appends bytes to an open file, if it has a name still.
fn append_to<F: OpenFile + Write>(file: &mut F, bytes: &[u8]) -> io::Result<()> {
    if file.metadata()?.nlink() == 0 {
        return Err(io::Error::from(ErrorKind::NotFound));
    }
    file.write_all(bytes)
}

/// The file of an entry of a folder, if its name is one of a file's.
fn file_of_entry<R: Files>(entry: &DirEntry<R, Global>) -> io::Result<Option<StoredFile>> {
    match number_of_name(entry.file_name().as_bytes()) {
        None => Ok(None),
        Some(number) => Ok(Some(StoredFile {
            number,
            size: entry.metadata()?.len(),
        })),
    }
}

/// Puts the files of a folder into a list, in whatever order the system has them.
fn put_files<R: Files + AllocGlobal + Clone + Drop>(
    rt: &R,
    path: &str,
    files: &mut Vec<StoredFile>,
) -> io::Result<()> {
    for entry in read_dir(rt, path)? {
        // A name that isn't UTF-8 is no file's.
        let entry = match entry {
            Ok(entry) => entry,
            Err(error) if error.kind() == ErrorKind::InvalidFilename => continue,
            Err(error) => return Err(error),
        };
        if let Some(file) = file_of_entry(&entry)? {
            files.push(file)?;
        }
    }
    Ok(())
}

impl<R: Files + AllocGlobal + Clone + Drop> RecordFolder for DiskFolder<R> {
    ghost use Rattle.std.specs.Prelude.{false, []};

    ghost tells = { false };

    ghost past = { λ d. [] };

    fn list(&mut self, files: &mut Vec<StoredFile>) -> Result<(), ErrorKind> {
        files.clear();
        let put = put_files(&self.rt, &self.path, files);
        files.sort_unstable_by_key(|file| file.number);
        put.map_err(|error| error.kind())
    }

    fn begin(&mut self, number: u64) -> Result<(), ErrorKind> {
        self.open = None;
        match self.create(number) {
            Ok(file) => {
                self.open = Some(file);
                Ok(())
            }
            Err(error) => Err(error.kind()),
        }
    }

    fn append(&mut self, bytes: &[u8]) -> Result<(), ErrorKind> {
        match &mut self.open {
            None => Err(ErrorKind::NotFound),
            Some(file) => append_to(file, bytes).map_err(|error| error.kind()),
        }
    }

    fn close(&mut self) {
        self.open = None;
    }

    fn delete(&mut self, number: u64) -> Result<(), ErrorKind> {
        match self.path_of(number) {
            Err(_) => Err(ErrorKind::OutOfMemory),
            Ok(path) => remove_file(&self.rt, path).map_err(|error| error.kind()),
        }
    }
}
