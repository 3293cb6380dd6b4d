//! A folder in memory, which fails at one of its calls or from one on.
use lg_recorder::{RecordFolder, StoredFile};
use std::alloc::{AllocError, Global};
use std::io::ErrorKind;

/// A file in memory.
#[derive(Drop)]
pub struct MemoryFile {
    /// Its number.
    pub number: u64,
    /// Its bytes.
    pub bytes: Vec<u8>,
}

/// A folder in memory.
#[derive(Drop)]
pub struct MemoryFolder {
    alloc: Global,
    /// Its files, in the order in which they were begun.
    pub files: Vec<MemoryFile>,
    is_open: bool,
    /// How many of its calls there were.
    pub calls: u64,
    /// The calls that fail are those from this one, counted from 1,
    pub fails_from: u64,
    /// to this one.
    pub fails_to: u64,
    /// What an append that fails has written nevertheless: this many of its bytes at most.
    pub torn: usize,
}

impl MemoryFolder {
    /// An empty folder that doesn't fail.
    pub fn new(alloc: Global) -> MemoryFolder {
        MemoryFolder {
            alloc,
            files: Vec::new(alloc),
            is_open: false,
            calls: 0,
            fails_from: 0,
            fails_to: 0,
            torn: 0,
        }
    }

    /// Puts a file of an earlier life into it, of so many zeros.
    pub fn put(&mut self, number: u64, size: usize) -> Result<(), AllocError> {
        let bytes = vec![in self.alloc; 0u8; size]?;
        self.files.push(MemoryFile { number, bytes })?;
        Ok(())
    }

    /// How many bytes its files have.
    pub fn size(&self) -> usize {
        let mut size: usize = 0;
        for file in &self.files {
            size = size.saturating_add(file.bytes.len());
        }
        size
    }

    /// Counts a call. Gives whether it fails.
    fn fails(&mut self) -> bool {
        self.calls = self.calls.saturating_add(1);
        self.fails_from <= self.calls && self.calls <= self.fails_to
    }

    /// Puts its files into a list.
    fn put_files(&self, files: &mut Vec<StoredFile>) -> Result<(), AllocError> {
        for file in &self.files {
            files.push(StoredFile {
                number: file.number,
                size: file.bytes.len() as u64,
            })?;
        }
        Ok(())
    }
}

impl RecordFolder for MemoryFolder {
    ghost use Rattle.std.specs.Prelude.{false, []};

    ghost tells = { false };

    ghost past = { λ m. [] };

    fn list(&mut self, files: &mut Vec<StoredFile>) -> Result<(), ErrorKind> {
        files.clear();
        let put = self.put_files(files);
        files.sort_unstable_by_key(|file| file.number);
        if self.fails() {
            return Err(ErrorKind::NotFound);
        }
        put.map_err(|_| ErrorKind::OutOfMemory)
    }

    fn begin(&mut self, number: u64) -> Result<(), ErrorKind> {
        self.is_open = false;
        if self.fails() || self.files.iter().any(|file| file.number == number) {
            return Err(ErrorKind::AlreadyExists);
        }
        let bytes = Vec::new(self.alloc);
        match self.files.push(MemoryFile { number, bytes }) {
            Ok(()) => {
                self.is_open = true;
                Ok(())
            }
            Err(_) => Err(ErrorKind::OutOfMemory),
        }
    }

    fn append(&mut self, bytes: &[u8]) -> Result<(), ErrorKind> {
        let fails = self.fails();
        let torn = self.torn.min(bytes.len());
        let Some(file) = self.files.last_mut() else {
            return Err(ErrorKind::NotFound);
        };
        if !self.is_open {
            return Err(ErrorKind::NotFound);
        }
        let written = if fails { &bytes[..torn] } else { bytes };
        match file.bytes.extend_from_slice(written) {
            Err(_) => Err(ErrorKind::OutOfMemory),
            Ok(()) if fails => Err(ErrorKind::StorageFull),
            Ok(()) => Ok(()),
        }
    }

    fn close(&mut self) {
        self.is_open = false;
    }

    fn delete(&mut self, number: u64) -> Result<(), ErrorKind> {
        if self.fails() {
            return Err(ErrorKind::PermissionDenied);
        }
        match self.files.iter().position(|file| file.number == number) {
            None => Err(ErrorKind::NotFound),
            Some(index) => {
                let gone = self.files.remove(index);
                drop(gone);
                Ok(())
            }
        }
    }
}
