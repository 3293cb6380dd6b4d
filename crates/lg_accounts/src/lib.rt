//! What a recording tells of a member, as data, as text, as JSON and as a page of HTML: the accounts of why it was
//! suspected, or taken as gone.
//!
//! `lg_explain` finds the accounts. An [`Account`] has a [`Note`] for each entry that tells something, and a note has a
//! [`NoteStep`] for each thing that it tells. [`put_accounts`] writes them as text, [`put_accounts_json`] as JSON, and
//! [`put_accounts_page`] as a page.
//!
//! Where to read on:
//! - which steps are verdicts: `specs/Meaning/Verdicts.antt`;
//! - the sentences of a step: `specs/Meaning/Sentences.antt`; wall times: `specs/Meaning/Dates.antt`;
//! - the text, the JSON and the page of accounts: `specs/Meaning/Accounts.antt`, `Json.antt` and `Pages.antt`.
#![tactic(auto)]

mod account;
mod accounts;
mod dates;
mod json;
mod json_steps;
mod names;
mod page;
mod page_style;
mod picture;
mod sentences;
mod step;
mod verdict;

pub use account::{Account, Note};
pub use accounts::put_accounts;
pub use json::put_accounts_json;
pub use lg_detector::NoMemory;
pub use page::put_accounts_page;
pub use step::{Helper, NoteStep};
pub use verdict::MemberVerdict;
