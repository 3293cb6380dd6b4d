//! Rows whose items stay in their places.
#![tactic(auto)]

mod places;
mod rows;

pub use rows::{MAX_ROWS, Rows};
