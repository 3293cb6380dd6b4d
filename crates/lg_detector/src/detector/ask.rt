//! The events Ask and Health: questions. They change nothing but the number of events and the moment.
//!
//! Defined in: `specs/Meaning/Ask.antt`, `specs/Support/Ask.antt`.
//! Tested in: `lg_detector_tests/src/detector/ask.rt`.
ghost use Rattle.std.specs.Prelude.{◌≡◌, ◌<◌, [], None, Some};
ghost use Rattle.lg_detector.specs.Support.Ask.{ask_state, status_state, health_state};

use super::{Detector, MAX_EVENTS};
use crate::reply::{Answer, Reply};
use lg_rules::Name;
use lg_timing::Moment;

impl Detector {
    /// Answers with the record of a name.
    pub(super) fn ask(&mut self, now: Moment, name: &Name, reply: &mut Reply)
        requires { self.old.events < MAX_EVENTS }
        ensures state { self.new ≡ ask_state now self.old }
        ensures fired { reply.new.fired ≡ None }
        ensures sends { reply.new.sends.items ≡ [] }
        ensures differing { reply.new.changed.items ≡ [] }
        ensures forgotten { reply.new.forgotten.items ≡ [] }
        ensures answer { reply.new.answer ≡ Some (status_state name.now self.old) }
    {
        reply.say_nothing();
        reply.answer = Some(Answer::Status(self.record_of(name)));
        self.come(now);
    }

    /// Answers with the health score, this member's incarnation and the number of members.
    pub(super) fn ask_health(&mut self, now: Moment, reply: &mut Reply)
        requires { self.old.events < MAX_EVENTS }
        ensures state { self.new ≡ ask_state now self.old }
        ensures fired { reply.new.fired ≡ None }
        ensures sends { reply.new.sends.items ≡ [] }
        ensures differing { reply.new.changed.items ≡ [] }
        ensures forgotten { reply.new.forgotten.items ≡ [] }
        ensures answer { reply.new.answer ≡ Some (health_state self.old) }
    {
        reply.say_nothing();
        reply.answer = Some(self.health());
        self.come(now);
    }

    /// The health score, this member's incarnation, and how many members aren't gone.
    fn health(&self) -> Answer
        ensures { result ≡ health_state self.now }
    {
        Answer::Health {
            score: self.parts.score.value(),
            number: self.parts.membership.number(),
            members: self.parts.membership.live() as u64,
        }
    }
}
