//! Explains from the recordings of a node why a member was suspected, or taken as gone.
//!
//! A recording is a folder of files (`lg_recording`). An [`Explainer`] takes them one after another, and gives the
//! accounts that a [`MemberQuestion`] asks for. [`explain_folder`] reads the files of a folder.
//!
//! Where to read on:
//! - which entries there are, and where each stands: `specs/Meaning/Places.antt`;
//! - what is told of an entry behind those before it: `specs/Meaning/Tellings.antt`;
//! - which runs of entries accounts are made of: `specs/Meaning/Episodes.antt`;
//! - which accounts are told: `specs/Meaning/Accounts.antt` and `Explanations.antt`;
//! - which entries their notes are of: `specs/Meaning/Sources.antt`;
//! - what is read of a folder: `specs/Meaning/Folders.antt`.
#![tactic(auto)]

mod explainer;
mod folder;
mod gathered;
mod insights;
mod laws;
mod position;
mod question;
mod rounds;
mod standstills;
mod subject;

pub use explainer::Explainer;
pub use folder::{explain_files, explain_folder};
pub use laws::notes_are_of_entries;
pub use lg_detector::NoMemory;
pub use question::MemberQuestion;
