//! The newest changes of the records of a node.
//!
//! [`Changes`] keeps the newest [`Change`]s, and finds those behind a version, or says that it no longer has them all.
//! One ring is brought up to date with another by what the other has [`Behind`] a version.
#![tactic(auto)]

mod behind;
mod change;
mod ring;

pub use behind::Behind;
pub use change::{Altered, Change};
pub use ring::{Changes, MAX_CHANGES};
