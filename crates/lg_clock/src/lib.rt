//! The clock of a node.
#![tactic(auto)]

mod clock;
mod deadline_signal;
mod last_turns;
mod machine;
mod steady;
mod steady_clock;

pub use clock::{Clock, Loop};
pub use deadline_signal::DeadlineSignal;
pub use machine::MachineClock;
pub use steady::{Steady, steady_clocks_keep_time};
pub use steady_clock::SteadyClock;
