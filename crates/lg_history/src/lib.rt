//! The history of an agent: what happened to its detector, in the order in which it happened, and what was replied.
//!
//! An [`Entry`] is one event, the seat that made it, and the reply to it. It takes the memory that these need and no
//! more (`event.rt`, `packet.rt`, `reply.rt`; `sizes.rt` says how much). A [`History`] is the list of the entries. An
//! entry is added in two steps: [`History::prepare`] allocates all memory that it can need, and [`History::complete`]
//! adds it with its reply, and always succeeds. So a detector that is stepped between the two is never ahead of its
//! history.
//!
//! A history is legal if a single thread could have made it with one detector: `IsLegal` of
//! `specs/Meaning/History.antt`. [`histories_grow`] says how legal histories grow, and [`replies_by_place`] what the
//! reply at each position of one is.
#![tactic(auto)]

mod entry;
mod event;
mod history;
mod laws;
mod packet;
mod reply;
mod sizes;

pub use entry::Entry;
pub use history::History;
pub use laws::{histories_grow, replies_by_place, rests_go_on};
pub use lg_detector::NoMemory;
