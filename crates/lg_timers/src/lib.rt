//! The timers that are set, and which of them fires next.
#![tactic(auto)]

mod by_id;
mod comparing;
mod heap;
mod indexed_heap;
mod singles;
mod steps;
mod timer;
mod timers;

pub use steps::{MAX_STEPS, Steps};
pub use timer::{Timer, TimerId};
pub use timers::{MAX_TIMERS, Timers};
