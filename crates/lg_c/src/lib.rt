//! The detector for C: a static library over `lg_detector`, whose functions are declared in `clients/c/lg_detector.h`.
//!
//! A detector lies on the heap, and C holds an [`LgDetector`] with its pointer. Each call that is about an event makes
//! the event of what C hands in, hands it to the detector, and writes the reply as a struct of C.
//! `specs/Meaning/Calls.antt` says what a call gives, by the definitions of `lg_detector`.
//!
//! Where to read on:
//! - the calls of C: `calls.rt`; what they do with an event: `advance.rt`;
//! - what they read without an event: `listing.rt`;
//! - the events that C tells: `events.rt`; the replies that C is given: `reply.rt`;
//! - what C holds: `handle.rt`, `kept.rt` and `loose.rt`.
#![tactic(auto)]

mod advance;
mod calls;
mod events;
mod handle;
mod kept;
mod listing;
mod loose;
mod reply;
mod status;

pub use handle::LgDetector;
pub use reply::{LgAnswer, LgFired, LgReply, LgSend};
