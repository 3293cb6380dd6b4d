//! Values that the tests of several crates share: names, addresses, moments, claims and packets, each made from a
//! letter or a number; claims, bodies and timers as plain data, so that a table of rows is a constant; and bytes that
//! are packets. Also a comparison of packets, a writer that fails when a test says so, and a stream for faults with
//! known room. What needs a detector is in `lg_detector_testing`: so the tests of the crates below the detector don't
//! wait for its proof.
#![tactic(auto)]

pub mod answers;
pub mod bodies;
mod claims;
mod packets;
mod room;
mod row;
pub mod says;
mod timers;

pub use claims::{alive, at, claim, failed, incarnation, letter, local, name, numbered, suspect};
pub use packets::{ack, is_same_packet, packet, ping, said};
pub use room::{ROOM, Room};
pub use row::FaultRow;
pub use timers::{Due, timer_of};
