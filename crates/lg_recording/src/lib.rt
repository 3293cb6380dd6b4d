//! Entries of recordings as bytes, and the laws by which they are read back as they were written.
//!
//! An entry is what an agent's history has of a call: its event, the seat that made it, and the reply to it. A
//! recording has each as a chunk, whose digest tells whether it is there whole. [`put_entry`] appends one, and
//! [`Entries`] reads them one after the other. [`lists_are_read_again`] says what is read of bytes that end anywhere.
#![tactic(auto)]

mod entries;
mod laws;
mod reading;
mod recorded;
mod starts;
mod writing;

pub use entries::{Entries, read_entry};
pub use laws::{
    entries_are_read_again, entries_have_one_spelling, lists_are_read_again,
    lists_are_read_by_chunks, starts_are_read_again,
};
pub use recorded::Recorded;
pub use starts::{put_start, read_start};
pub use writing::{EntryBuffers, MAX_SEAT, put_entry};
