//! What the loops of a node count while they run, for those who ask the node.
//!
//! [`Counters`] are shared by all threads of a node, and no call of theirs waits. [`Noted`] is what is counted of one
//! answered call.
#![tactic(auto)]

mod counters;
mod counts;
mod noted;
mod tally;

pub use counters::{Counters, FAULTS};
pub use counts::{Counts, Drops, RecordedCounts};
pub use noted::Noted;
pub use tally::Tally;
