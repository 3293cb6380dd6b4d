//! Replays the recording in a folder for a command line: writes what is told of it, and tells why that failed if it
//! did, as for others that read such a folder. What is told of a recording is `lg_replay`'s.
#![tactic(auto)]

mod running;
mod telling;
mod words;

pub use lg_replay::Window;
pub use running::replay_recording;
pub use telling::tell_fault;
