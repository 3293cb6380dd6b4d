//! A node: its loops over an agent, and beside them a watcher, a status server and a recorder.
#![tactic(auto)]

mod beginning;
mod beside;
mod closing;
mod following;
mod node;
mod parts;
mod receiving;
mod recording;
mod serving;
mod sockets;
mod start;
mod threads;

pub use following::{WatcherLeft, Watching};
pub use lg_answers::SeedPlace;
pub use lg_clock::{Clock, Loop, MachineClock, SteadyClock};
pub use lg_counters::Counters;
pub use lg_follow::Watched;
pub use lg_status_server::Served;
pub use lg_turns::{
    ChangeSignal, Counted, Dice, Ended, KeyedLink, Link, LinkFault, LoopEnd, MAX_DATAGRAM,
    MAX_FOUND, MAX_TURNS, NodeRecorder, PcgDice, Plan, ReceivingLoop, RecorderSignal,
    ResolvedSeeds, SeedAsker, Shared, Side, TickingLoop, UdpLink, Unrecorded, Why,
};
pub use node::{NodeEnd, NodeFault, NodeStart, Settings, run_node};
pub use parts::Work;
pub use serving::{ServerLeft, StatusServer};
pub use threads::{Both, Joined, ServerSide, Sides, join_threads};
