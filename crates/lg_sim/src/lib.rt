//! A cluster of detectors that runs a script: the members, the packets between them, and what they reply, as text.
//!
//! Where to read on:
//! - what each command does, given nothing but the commands before it: `specs/Meaning/Past.antt` and `Outcome.antt`;
//! - the text of a script: `specs/Meaning/Text.antt`;
//! - the lines of a reply: `lg_lines`; the commands that lines spell: `lg_script`.
#![tactic(auto)]

mod cluster;
mod command;
mod host;
mod script;
mod streams;

pub use cluster::MAX_CLUSTER;
pub use lg_text::{RunEnd, RunFault};
pub use streams::run;
