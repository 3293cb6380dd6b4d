//! What one entry of a recording tells of a member, and how what is known of the member goes on with it.
//!
//! An entry is an event and the reply to it. All is said of one member, that of a [`NoteSubject`], from the view of the
//! node whose recording it is. A [`Watch`] is what is known of the member before an entry, by the entries alone, and
//! [`Insights`] are what the definitions say, if all events since the opening are known. [`steps_of`] gives the steps
//! of an entry.
//!
//! Where to read on:
//! - whether the member is suspected or probed behind an entry: `specs/Meaning/Watching.antt`;
//! - which steps an entry has: `specs/Meaning/Steps.antt`, and of a probe `specs/Meaning/Probing.antt`.
#![tactic(auto)]

mod about;
mod insights;
mod probing;
mod steps;
mod subject;
mod suspecting;
mod timers;
mod watch;

pub use about::{changes_verdict, suspects_some, teller_of};
pub use insights::{Insight, Insights, MinuteBefore};
pub use lg_detector::NoMemory;
pub use steps::steps_of;
pub use subject::NoteSubject;
pub use timers::ends_round;
pub use watch::{RunningProbe, Watch};
