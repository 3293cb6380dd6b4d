//! The claims that ride on the packets that a member sends (piggyback; SWIM, section 4.1; Lifeguard's buddy system).
#![tactic(auto)]

mod below;
mod choice;
mod limit;
mod queue;
mod queued;
mod sets;

pub use lg_rules::MAX_LAMBDA;
pub use limit::MAX_TIMES_SENT;
pub use queue::{MAX_QUEUED, Queue};
pub use queued::Queued;
