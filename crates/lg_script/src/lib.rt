//! The lines of a simulation script: which command a line gives, or why the line is faulty.
//!
//! [`command_in`] reads one line into a [`Command`], or gives its [`ScriptFault`]. It knows nothing of the members
//! that are open. So whoever keeps the members judges the faults [`ScriptFault::Double`], [`ScriptFault::Full`],
//! [`ScriptFault::Member`] and [`ScriptFault::Packet`], and [`ScriptFault::Value`] if a configuration fails its
//! check. [`local`] gives the address of the member with a port, and [`random_word_in`] reads a random word.
//!
//! Contracts of other crates cite `command_of` (`specs/Meaning/Lines.antt`), `fault_word` (`Faults.antt`), `local` and
//! `random_word_of` (`Values.antt`).
#![tactic(auto)]

mod command;
mod fault;
mod line;
mod reading;
mod values;
mod verb;
mod words;

pub use command::{Command, RANDOM_WORDS};
pub use fault::ScriptFault;
pub use lg_timing::Key;
pub use line::command_in;
pub use values::{LOCALHOST, local, random_word_in};
