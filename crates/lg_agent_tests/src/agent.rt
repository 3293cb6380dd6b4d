//! Agents: calls and looks, both forms of the calls, rotation, what it hands out, whom rounds chose, closing, and
//! threads that share one.
pub mod calls;
mod choosing;
mod cutters;
mod cutting;
mod faults;
pub mod forms;
mod leaving;
pub mod many;
mod replaying;
mod rotating;
mod rows;
mod seats;
pub mod steps;
mod wanted;
