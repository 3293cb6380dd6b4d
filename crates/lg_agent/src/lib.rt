//! The agent that the threads of a service share: one detector under a lock, and views of it that wait for nobody.
//!
//! [`Agent::open`] opens it for a number of places. [`Agent::passes`] gives a [`Pass`] for each place, one for each
//! thread. The passes have the seats 1, 2 and so on, and the opening has the seat 0. A pass makes calls, each of
//! which takes the lock, applies one event and gives the reply to it. It also makes looks, which take no lock and
//! answer from what was published last. [`Pass::finish`] leaves a [`Spent`], and [`Agent::close`] compares them all
//! with the history and gives it.
//!
//! **In every state that the lock can hold, the history is the end of one that a single thread could have made**, and
//! the whole of it if nothing was cut off. It has one entry for each call, each with the reply that the definitions
//! give after the entries before it. An answered call ends an accepted list of events that begins with all that its
//! caller had seen. Every look answers by the member table, the timers or the length of such a list.
//!
//! Where to read on:
//! - the value under the lock, and what one call does to it: `kept.rt`; how it begins: `kept/opening.rt`; how entries
//!   are cut off: `kept/rotating.rt`, and what is handed out then: `cut_off.rt`;
//! - a pass and its calls: `pass.rt`, its looks: `looks.rt`, what it leaves: `spent.rt`;
//! - opening and handing out passes: `agent.rt`;
//! - closing, and which fault it finds: `closing.rt`; what is left then: `closed.rt`.
#![tactic(auto)]

mod agent;
mod closed;
mod closing;
mod cut_off;
mod kept;
mod looks;
mod name;
mod pass;
mod receipt;
mod refusal;
mod spent;

pub use agent::Agent;
pub use closed::Closed;
pub use closing::Unclosed;
pub use cut_off::CutOff;
pub use kept::{Kept, MAX_PLACES};
pub use lg_detector::{NoMemory, Standing};
pub use lg_view::Overview;
pub use name::AgentName;
pub use pass::Pass;
pub use receipt::{HeardPacket, Receipt};
pub use refusal::{CloseFault, Refusal};
pub use spent::Spent;
