//! The two loops of a node over an agent: one hears datagrams, and one ticks and finds its group. What they are given
//! and give, and what a turn of theirs is, stands in `lg_turns`. Their caller starts the threads in which they run.
#![tactic(auto)]

mod agenda;
mod asking;
mod calling;
mod finding;
mod receiving;
mod sending;
mod stretch;
mod ticker;
mod ticking;
mod turned;

pub use agenda::LOOK_MS;

/// The loops of a node: what its start is handed ([`lg_turns::TickingLoop`], [`lg_turns::ReceivingLoop`] and
/// [`lg_turns::SeedAsker`]).
#[derive(Clone, Copy, Debug)]
pub struct NodeLoops;
