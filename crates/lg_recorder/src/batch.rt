//! A batch: entries of a node that follow one another, and the head of a file that begins with them.
//!
//! Defined in: `specs/Meaning/Batches.antt`.
//! Tested in: `lg_recorder_tests/src/recording.rt`.
ghost use Rattle.std.specs.Prelude.{◌≡◌, ◌<◌, ◌++◌, [], length, slice_index_or, OnOk};

use std::alloc::AllocError;
use std::io::ErrorKind;

/// Entries of a node that follow one another, as they are written.
pub trait Batch {
    ghost use Rattle.std.specs.Prelude.{◌≡◌, ◌<◌, ◌++◌, [], length, slice_index_or, OnOk};
    ghost use Rattle.lg_recorder.specs.Meaning.Batches.{BatchValue};

    /// What entries are written with, besides the text. It is kept from one entry to the next, and from one batch to
    /// the next.
    type Buffers: Drop;

    // The number of its first entry, the bytes of the head of a file that begins with it, and those of each entry.
    ghost batch: { Self → BatchValue };

    /// Buffers for its entries. What is in them doesn't count.
    fn buffers(&self) -> Self::Buffers;

    /// The number of its first entry: how many entries the node had made before it.
    fn first(&self) -> u64
        ensures { result ≡ (batch self.now).first };

    /// How many entries there are.
    fn len(&self) -> usize
        ensures { result ≡ length (batch self.now).chunks };

    /// Appends what a file begins with whose first entry is the first of these: the magic bytes and the head. The error
    /// is that memory was refused; then the text has grown by any bytes.
    fn put_head(&self, text: &mut Vec<u8>) -> Result<(), AllocError>
        ensures { OnOk result (text.new.items ≡ text.old.items ++ (batch self.now).head) };

    /// Appends the chunk of the entry at an index. The error is that memory was refused; then the text has grown by any
    /// bytes.
    fn put_entry(
        &self,
        index: usize,
        buffers: &mut Self::Buffers,
        text: &mut Vec<u8>,
    ) -> Result<(), AllocError>
        requires { index < length (batch self.now).chunks }
        ensures { OnOk result (text.new.items ≡ text.old.items ++ slice_index_or (batch self.now).chunks index []) };
}

/// Appends the head of a batch, as [`Batch::put_head`]. The error is refused memory.
pub(crate) fn put_head_of<B: Batch>(batch: &B, text: &mut Vec<u8>) -> Result<(), ErrorKind>
    ensures { OnOk result (text.new.items ≡ text.old.items ++ (B.batch batch.now).head) }
{
    match batch.put_head(text) {
        Ok(()) => Ok(()),
        Err(_) => Err(ErrorKind::OutOfMemory),
    }
}

/// Appends an entry of a batch, as [`Batch::put_entry`]. The error is refused memory.
pub(crate) fn put_entry_of<B: Batch>(
    batch: &B,
    index: usize,
    buffers: &mut B::Buffers,
    text: &mut Vec<u8>,
) -> Result<(), ErrorKind>
    requires { index < length (B.batch batch.now).chunks }
    ensures { OnOk result (text.new.items ≡ text.old.items ++ slice_index_or (B.batch batch.now).chunks index []) }
{
    match batch.put_entry(index, buffers, text) {
        Ok(()) => Ok(()),
        Err(_) => Err(ErrorKind::OutOfMemory),
    }
}
