//! Writes what a node did to the files of a folder, as recordings: batch after batch of its entries.
//!
//! [`record_until`] is a thread's work. It takes what there is from a [`BatchSource`] and hands it to a
//! [`RecordFolder`] by a [`Recorder`], which says when a file is begun and which older ones are deleted before that.
//! How a head and an entry are written is the batch's ([`Batch`]).
#![tactic(auto)]

mod appending;
mod batch;
mod disk;
mod fault;
mod folder;
mod recorder;
mod room;
mod running;

pub use batch::Batch;
pub use disk::{DiskFolder, number_of_name};
pub use fault::RecordFault;
pub use folder::{MAX_FILE_NUMBER, RecordFolder, StoredFile};
pub use recorder::{OpenFile, Recorder, RecorderCounts};
pub use running::{BatchSource, RECORD_MS, RecordPace, record_until};
