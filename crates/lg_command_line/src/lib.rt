//! The command line of the program `lg`: what its words ask for, and what is told if nothing is run.
//!
//! Where to read on:
//! - the commands and their options: `specs/Meaning/Apps.antt`;
//! - which command a command line asks for, and why one is refused: `specs/Meaning/Commands.antt`;
//! - the options of the keys of a configuration: `specs/Meaning/KeyOptions.antt`;
//! - what becomes of a command line that isn't run: `specs/Meaning/Leaving.antt`;
//! - what the commands do: `lg_commands`, `lg_run` and `lg_client`, which `lg_cli` calls.
#![tactic(auto)]

mod asked;
mod command;
mod key_options;
mod options;
mod taking;
mod version;
mod words;

pub use asked::{Asked, DEFAULT_AT, ExplainWords, MAX_RUN_MS, Question};
pub use taking::take_words;
