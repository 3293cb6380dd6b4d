//! What a configuration file says, and the times that follow: the text of a check.
//!
//! [`check_text`] writes it. [`text_of_name`], [`addr_text`] and [`host_text`] spell a name, an address and a host for
//! other lines too. Contracts of other crates cite `check_text` (`specs/Meaning/Checks.antt`) and `host_text`
//! (`Spelling.antt`).
#![tactic(auto)]

mod check;
mod lines;
mod spelling;

pub use check::check_text;
pub use spelling::{addr_text, host_text, text_of_name};
