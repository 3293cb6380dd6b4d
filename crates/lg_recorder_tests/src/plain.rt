//! Batches whose heads and entries are lines of text, and what the files of such batches tell.
//!
//! A head is `head N` with the number of the first entry, and an entry is `entry N`, its number, and stops behind it,
//! so many that the line has its length.
use crate::folder::MemoryFolder;
use lg_recorder::{Batch, BatchSource};
use std::alloc::{AllocError, Global};
use std::str;

/// A batch of such entries, and those that a source has besides.
#[derive(Clone, Copy, Debug)]
pub struct PlainBatch {
    /// The number of the first.
    pub first: u64,
    /// How many they are.
    pub count: usize,
    /// How long the line of an entry is, with its end.
    pub length: usize,
}

impl Batch for PlainBatch {
    ghost use Rattle.std.specs.Prelude.{[]};

    type Buffers = ();

    ghost batch = { λ b. record { first = 0; head = []; chunks = [] } };

    fn first(&self) -> u64 {
        self.first
    }

    fn len(&self) -> usize {
        self.count
    }

    fn put_head(&self, text: &mut Vec<u8>) -> Result<(), AllocError> {
        put_line(text, "head", self.first, 0)
    }

    fn buffers(&self) {}

    fn put_entry(
        &self,
        index: usize,
        _buffers: &mut (),
        text: &mut Vec<u8>,
    ) -> Result<(), AllocError> {
        let number = self.first.saturating_add(index as u64);
        put_line(text, "entry", number, self.length)
    }
}

/// Puts a line with a word and a number behind a text.
fn put_line(text: &mut Vec<u8>, word: &str, number: u64, length: usize) -> Result<(), AllocError> {
    let line = format!(in *text.allocator(); "{word} {number} ")?;
    text.extend_from_slice(line.as_bytes())?;
    let missing = length.saturating_sub(1).saturating_sub(line.len());
    text.resize(text.len().saturating_add(missing), b'.')?;
    text.push(b'\n')?;
    Ok(())
}

impl BatchSource<u64> for PlainBatch {
    ghost use Rattle.std.specs.Prelude.{◌≤◌};
    ghost use Rattle.std.proofs.Common.{rules};

    ghost took = { λ before after. before ≤ after };

    ghost taking = { λ before is_taken batch after. before ≤ after };

    /// The batch behind so many entries, as long as the one before. There are none behind 99.
    fn take(&mut self, made: &mut u64) -> bool {
        if *made > 99 {
            return false;
        }
        self.first = *made;
        *made = made.saturating_add(self.count as u64);
        true
    }

    ghost took_nothing = { λ x. Prim.search rules };

    ghost took_twice = { λ x y z p q. Prim.search rules };
}

/// The number in a line that begins with a word.
fn number_behind(line: &str, word: &str) -> Option<u64> {
    let rest = line.strip_prefix(word)?;
    let (number, _) = rest.split_once(' ')?;
    number.parse().ok()
}

/// The numbers of the entries that a file tells up to its first faulty line. None if it doesn't begin with a head, or
/// an entry isn't the one that is due.
pub fn told_by(alloc: Global, bytes: &[u8]) -> Option<Vec<u64>> {
    let text = str::from_utf8(bytes).ok()?;
    let mut told = Vec::new(alloc);
    let mut due = None;
    for line in text.split_inclusive('\n') {
        if !line.ends_with('\n') {
            break;
        }
        match due {
            None => due = Some(number_behind(line, "head ")?),
            Some(next) => {
                if number_behind(line, "entry ")? != next {
                    return None;
                }
                told.push(next).ok()?;
                due = Some(next.saturating_add(1));
            }
        }
    }
    Some(told)
}

/// The numbers of the entries that all files of a folder tell, in order. None if a file is faulty.
pub fn told_in(alloc: Global, folder: &MemoryFolder) -> Option<Vec<u64>> {
    let mut told = Vec::new(alloc);
    for file in &folder.files {
        let own = told_by(alloc, &file.bytes)?;
        told.extend_from_slice(&own).ok()?;
    }
    Some(told)
}
