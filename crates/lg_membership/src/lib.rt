//! What a member knows of its group: its own incarnation, the records of the others, their suspicions, and the queue
//! of claims to be sent.
#![tactic(auto)]

mod addressee;
mod applied;
mod membership;
mod origin;
mod suspected;
mod suspicions;

pub use addressee::Addressee;
pub use applied::{Applied, Deadline, Presence};
pub use membership::{MAX_MEMBERS, Membership};
pub use origin::Origin;
