//! Which entries are told.
//!
//! Defined in: `specs/Meaning/Members.antt`, `specs/Meaning/Entries.antt`.
//! Tested in: `lg_replay_tests/src/shown.rt`.
ghost use Rattle.std.specs.Prelude.{◌≡◌};
ghost use Rattle.lg_replay.specs.Meaning.Words.{moment_of_event};
ghost use Rattle.lg_replay.specs.Meaning.Shown.{is_told, tells_on};

use crate::about::{happens_to_member, replies_on_member};
use lg_detector::{Event, Reply};
use lg_rules::Name;
use lg_timing::Moment;

/// Which entries of a recording are told: those of some moments, and of one member or of all.
#[derive(Clone, Copy, Debug)]
pub struct Window {
    /// The first moment, in milliseconds.
    pub from: Moment,
    /// The last moment, in milliseconds.
    pub to: Moment,
    /// The name of the member, if only entries that are about it are told.
    pub only: Option<Name>,
}

/// The moment of an event, in milliseconds.
pub fn moment_of_event(event: &Event) -> Moment
    ensures { result ≡ moment_of_event event.now }
{
    match event {
        Event::Open { now, .. } => *now,
        Event::Tick { now, .. } => *now,
        Event::Heard { now, .. } => *now,
        Event::Ask { now, .. } => *now,
        Event::Health { now } => *now,
        Event::Pull { now, .. } => *now,
        Event::Leave { now, .. } => *now,
    }
}

impl Window {
    /// Whether an event with the reply that is told and the one that was recorded is about the member, or whether all
    /// are told.
    fn tells_on(&self, event: &Event, told: &Reply, recorded: &Reply) -> bool
        ensures { result ≡ tells_on self.now.only event.now told.now recorded.now }
    {
        match &self.only {
            None => true,
            Some(name) => {
                happens_to_member(name, event)
                    || replies_on_member(name, told)
                    || replies_on_member(name, recorded)
            }
        }
    }

    /// Whether an event is told, by the reply that is told then and the one that was recorded.
    #[tactic(auto, unfolding(crate::specs::Meaning::Shown::is_told))]
    pub(crate) fn is_told(&self, event: &Event, told: &Reply, recorded: &Reply) -> bool
        ensures { result ≡ is_told self.now event.now told.now recorded.now }
    {
        let now = moment_of_event(event).milliseconds();
        self.from.milliseconds() <= now
            && now <= self.to.milliseconds()
            && self.tells_on(event, told, recorded)
    }
}
