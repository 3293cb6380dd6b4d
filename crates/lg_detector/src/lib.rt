//! The sequential detector: its state and its replies depend on the list of past events alone.
//!
//! Where to read on:
//! - what an event does: `detector/open.rt`, `hear.rt`, `tick.rt`, `ask.rt` and `joining.rt` (Pull). The files of the
//!   same names in `specs/Meaning` say it by the log of what happened;
//! - what an opening or a claim does to the score, the timers and the order of probing: `detector/facts.rt`;
//! - the rounds of probing and the relays: `detector/round.rt` and `relay.rt`; how packets are filled: `send.rt`;
//! - whom the detector forgets, and where room is made for new members: `detector/forget.rt`;
//! - whose packets it hears: `detector/group.rt`; which claims of a table only accuse: `detector/merge.rt`;
//! - what a claim changes of the group's records, suspicions and queued claims: `lg_membership`;
//! - when a suspicion runs out, and how its accusers bring that moment nearer: `lg_suspicion`;
//! - which of the queued claims a packet takes (gossip): `lg_gossip`.
#![tactic(auto)]

mod detector;
mod event;
mod message;
mod reply;
mod sends;
mod standing;
mod summary;

pub use detector::{
    Detector, MAX_EVENTS, NoMemory, accepted_lists, numbers_are_free, room_is_made_by_the_earliest,
    states_lead_on, windows_have_each,
};
pub use event::Event;
pub use lg_rules::MAX_MEMBERS;
pub use lg_suspicion::SuspicionStanding;
pub use lg_timers::{Timer, TimerId};
pub use reply::{Answer, MAX_CHANGED, MAX_FORGOTTEN, MAX_SENDS, Outgoing, Reply, choice_by};
pub use sends::Sends;
pub use standing::Standing;
pub use summary::{Summary, summaries_lead_on};
