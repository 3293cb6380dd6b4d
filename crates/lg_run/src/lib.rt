//! Runs the node of a file and options, writes its members, and tells how it ended; or checks what they mean alone.
//!
//! [`source_bytes`] reads the file, if one is named, and tells why it gives no bytes. [`run_bytes`] runs the node that
//! its bytes and options mean. [`check_source`] and [`check_bytes`] run nothing. Contracts of other crates cite
//! `RunsSource`, `RunsBytes` and `RunsNode` (`specs/Meaning/Running.antt`), `ChecksSource` (`Checking.antt`),
//! `status_told` and `line_of` (`Telling.antt`).
#![tactic(auto)]

mod checking;
mod configured;
mod file;
mod first;
mod key_file;
mod launch;
mod own_address;
mod recording;
mod reporting;
mod resolving;
mod telling;
mod told;
mod wishes;
mod words;

pub use checking::{check_bytes, check_source};
pub use file::{NoBytes, file_bytes, source_bytes, tell_no_bytes};
pub use key_file::{NoKeys, keys_at};
pub use launch::run_bytes;
pub use lg_resolve::FaultStreams;
pub use own_address::NoAddress;
pub use recording::RecordFolders;
pub use told::{MAX_LINE, Told};
pub use wishes::Wishes;
