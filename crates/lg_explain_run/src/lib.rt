//! Tells from the recording in a folder about a member, for a command line: writes the accounts of why it was
//! suspected, or taken as failed or left, as lines or into a file as a page, and tells why that failed if it did. Which
//! accounts there are is `lg_explain`'s, and how they are spelled `lg_accounts`'.
#![tactic(auto)]

mod files;
mod form;
mod newest;
mod paging;
mod running;
mod telling;
mod words;

pub use files::{MachineFiles, PageFiles};
pub use form::AccountForm;
pub use lg_explain::MemberQuestion;
pub use lg_replay::FolderFault;
pub use newest::{MAX_NEWEST_BYTES, explain_newest};
pub use paging::explain_page;
pub use running::explain_recording;
