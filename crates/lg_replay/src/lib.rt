//! Replays the recordings of nodes: hands what happened to a node to a detector once more, and tells what it replies
//! and whether that is what was recorded.
//!
//! A recording is a folder of files (`lg_recording`). A [`Replayer`] takes them one after another, and appends to a
//! text what is told of each. No memory is kept of what was told. [`replay_folder`] reads the files of a folder, and
//! writes what is told of them.
//!
//! Where to read on:
//! - what is known of the past of an entry: `specs/Meaning/Lives.antt`;
//! - whether its reply is the due one: `specs/Meaning/Verdicts.antt`;
//! - what is told of it: `specs/Meaning/Entries.antt` and `Words.antt`; which entries are told:
//!   `specs/Meaning/Shown.antt`;
//! - files and their heads, and how a replay ends: `specs/Meaning/Files.antt`, `Heads.antt` and `Replays.antt`;
//! - what is read of a folder, and what is left by a fault: `specs/Meaning/Folders.antt`.
#![tactic(auto)]

mod about;
mod counts;
mod disk;
mod end;
mod entries;
mod fault;
mod files;
mod folder;
mod head;
mod known;
mod laws;
mod lines;
mod replayer;
mod verdict;
mod window;

pub use counts::ReplayCounts;
pub use disk::DiskFiles;
pub use end::ReplayEnd;
pub use fault::FolderFault;
pub use folder::{
    MAX_FILE_BYTES, RecordingFiles, Replayed, list_numbers, read_bytes, replay_files, replay_folder,
};
pub use head::read_file_head;
pub use known::Known;
pub use laws::replays_go_on;
pub use lg_detector::NoMemory;
pub use replayer::{Replayer, next_of};
pub use verdict::Verdict;
pub use window::{Window, moment_of_event};
