//! Tells the members of an agent while it runs: each change of a record, and each name that was forgotten, as a line of
//! text.
//!
//! [`watch`] is a thread's work. It looks at the agent by a pass of its own, so it takes no lock. A call that
//! publishes waits only until a look has left.
#![tactic(auto)]

mod lines;
mod news;
mod watched;
mod watcher;
mod watching;

pub use news::News;
pub use watched::Watched;
pub use watching::{RETRY_MS, watch};
