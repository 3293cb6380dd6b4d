//! Agents that the tests of several crates share: how one is opened, what its passes leave, and how it is closed. How
//! the passes are played is each crate's own.
//!
//! `lg_agent_tests/src/playing.rt` and `lg_node_tests/src/node/playing.rt` share some 70 lines all the same: they
//! open an agent, have its passes played, and close it. Here these lines would have to call the plays of both crates
//! through a trait. A method of a trait that starts threads gets no proof. So each crate has an enum of its plays, and
//! lines of its own that call them.
#![tactic(auto)]

mod cases;
mod closing;
mod datagrams;
mod opening;
mod passes;

pub use cases::{Case, Outcome};
pub use closing::{Ending, abandon, close};
pub use datagrams::{ping_of, spelled};
pub use opening::{config, open};
pub use passes::{Left, both_passes, last_pass, room};
