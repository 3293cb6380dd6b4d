//! Plays of a detector that the tests of several crates share: what happens to b at 127.0.0.1:7000 and what its replies
//! are, both as plain data, with how such steps are played. Also a comparison of replies and of detectors.
//!
//! A library isn't allowed to end the process. So a play gives what differs from its case, if anything does, and each
//! crate of tests has a file `playing.rt` that asserts that nothing does.
#![tactic(auto)]

mod comparing;
mod happening;
mod playing;
mod resuming;

pub use comparing::{is_same_reply, is_same_state};
pub use happening::{Happens, Setting, event_of};
pub use playing::{
    DetectorCase, Goes, Mismatch, Step, opened, play, play_blank, play_on, table_of, takes,
};
pub use resuming::{Opening, resume_each};
