//! Sets of numbers below 256.
#![tactic(auto)]

mod bit_set;
mod word;

pub use bit_set::{BitSet, NUMBERS};
