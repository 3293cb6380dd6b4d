//! What the loops of a node are given and give, and what a turn of theirs is: their links, their dice, what they share,
//! how they end, and the definitions of all this. Three traits say what a node's start needs of the loops
//! ([`SeedAsker`], [`TickingLoop`] and [`ReceivingLoop`]), and one what it needs of a recorder ([`NodeRecorder`]). The
//! loops themselves stand in `lg_loops`, the start in `lg_node`, and the recorder in `lg_batches`.
#![tactic(auto)]

mod changes;
mod dice;
mod ending;
mod keyed;
mod link;
mod loops;
mod node_link;
mod plan;
mod recording;
mod resolved;
mod shared;
mod udp;

pub use changes::ChangeSignal;
pub use dice::{Dice, PcgDice};
pub use ending::{Ended, LoopEnd, Why};
pub use keyed::{Counted, KeyedLink};
pub use link::{Link, LinkFault, MAX_DATAGRAM};
pub use loops::{ReceivingLoop, SeedAsker, TickingLoop};
pub use node_link::{NodeLink, NotedLink};
pub use plan::{MAX_ASKED, Plan};
pub use recording::{NodeRecorder, RecorderSignal, Unrecorded};
pub use resolved::{MAX_FOUND, ResolvedSeeds};
pub use shared::{MAX_TURNS, Shared, Side};
pub use udp::UdpLink;
