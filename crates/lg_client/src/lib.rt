//! Asks a running node over HTTP: who its members are, how it is, what changes, and to leave its group.
//!
//! [`tell_answer`] asks once and writes what the node answers. [`watch_changes`] asks again and again. [`leave_node`]
//! asks the node to leave, and waits until it has ended. Contracts of other crates cite `TellsAnswer`
//! (`specs/Meaning/Telling.antt`), `WatchesChanges` (`Watching.antt`) and `LeavesNode` (`Leaving.antt`).
#![tactic(auto)]

mod address;
mod asker;
mod asking;
mod changes;
mod fault;
mod fields;
mod health;
mod heard;
mod json;
mod later;
mod leave_fault;
mod leaving;
mod lines;
mod members;
mod receiving;
mod resource;
mod telling;
mod told;
mod unheard;
mod watching;

pub use fault::AskFault;
pub use leave_fault::LeaveFault;
pub use leaving::leave_node;
pub use resource::{NodeQuestion, Resource};
pub use telling::tell_answer;
pub use watching::watch_changes;
