//! The files of a recording in a folder of the machine.
//!
//! Defined in: `specs/Meaning/Folders.antt`.
//! Tested in: `lg_replay_tests/src/disk.rt`.

use crate::folder::{MAX_FILE_BYTES, RecordingFiles};
use lg_recorder::number_of_name;
use std::alloc::Global;
use std::fs::{Files, read_dir};
use std::io::{ErrorKind, Read};
use std::{fs, io};

/// The files of a recording in a folder of the machine. A file's name is ten decimal digits and `.lgr`; other names are
/// passed over.
#[derive(Clone, Copy, Debug)]
pub struct DiskFiles<'p, R> {
    rt: &'p R,
    alloc: Global,
    path: &'p str,
}

impl<'p, R: Files> DiskFiles<'p, R> {
    /// The files in the folder at a path. Nothing is read yet.
    pub fn new(rt: &'p R, alloc: Global, path: &'p str) -> DiskFiles<'p, R> {
        DiskFiles { rt, alloc, path }
    }

    /// Appends the bytes of the file with a number to others: all of them, or the first ones and one more than a file
    /// may have.
    fn put_bytes(&self, number: u64, bytes: &mut Vec<u8>) -> io::Result<()> {
        let path = self.path;
        let file = format!(in self.alloc; "{path}/{number:010}.lgr")?;
        let limit = MAX_FILE_BYTES as u64 + 1;
        fs::open(self.rt, file.as_str())?
            .take(limit)
            .read_to_end(bytes)?;
        Ok(())
    }
}

/// Puts the numbers of the files of a folder into a list, in whatever order the system has them.
fn put_numbers<R: Files + AllocGlobal + Clone + Drop>(
    rt: &R,
    path: &str,
    numbers: &mut Vec<u64>,
) -> io::Result<()> {
    for entry in read_dir(rt, path)? {
        // A name that isn't UTF-8 is no file's.
        let entry = match entry {
            Ok(entry) => entry,
            Err(error) if error.kind() == ErrorKind::InvalidFilename => continue,
            Err(error) => return Err(error),
        };
        if let Some(number) = number_of_name(entry.file_name().as_bytes()) {
            numbers.push(number)?;
        }
    }
    Ok(())
}

impl<'p, R: Files + AllocGlobal + Clone + Drop> RecordingFiles for DiskFiles<'p, R> {
    ghost use Rattle.std.specs.Prelude.{false, []};

    ghost tells = { false };

    ghost past = { λ d. [] };

    fn list(&mut self, numbers: &mut Vec<u64>) -> Result<(), ErrorKind> {
        numbers.clear();
        let put = put_numbers(self.rt, self.path, numbers);
        numbers.sort_unstable();
        put.map_err(|error| error.kind())
    }

    fn read(&mut self, number: u64, bytes: &mut Vec<u8>) -> Result<(), ErrorKind> {
        bytes.clear();
        self.put_bytes(number, bytes).map_err(|error| error.kind())
    }
}
