//! One entry of a history.
//!
//! Defined in: `specs/Meaning/History.antt`, `lg_detector/specs/Meaning/Choice.antt`.
//! Tested in: `lg_agent_tests/src/history/entries.rt`.
ghost use Rattle.std.specs.Prelude.{◌≡◌};
ghost use Rattle.lg_detector.specs.Meaning.Choice.{choice_of_reply};

use crate::event::StoredEvent;
use crate::reply::StoredReply;
use lg_detector::{Event, Reply};
use lg_rules::Name;
use std::marker::Model;

/// One entry of a history: an event, the seat that made it, and the reply to it.
///
/// It takes the memory that the event and the reply need. With its part of the history's list, a tick that fires
/// nothing takes at most 320 bytes, and a Ping without claims and its Ack at most 576. A packet of twelve claims
/// that changes twelve records and is answered by twelve claims takes at most 4,096, and at most 4,480 if twelve
/// members are forgotten to make room for them (the bounds are this project's choice). If memory for the reply was
/// refused, the reply is in a box for a whole one, some 12 KB.
///
/// A contract sees it as the record of the three.
#[derive(Drop)]
pub struct Entry {
    pub(crate) seat: usize,
    pub(crate) event: StoredEvent,
    pub(crate) reply: StoredReply,
}

impl Model for Entry {
    ghost use Rattle.lg_history.specs.Meaning.History.{Entry as Stored};

    ghost Value = { Stored };

    ghost view = { λ e. record { seat = e.seat; event = e.event; reply = e.reply } };
}

impl Entry {
    /// The seat: 0 for the opening, otherwise that of the pass that made the call, from 1.
    pub fn seat(&self) -> usize
        ensures { result ≡ self.now.seat }
    {
        self.seat
    }

    /// A copy of the event. Allocates nothing.
    pub fn event(&self) -> Event
        ensures { result ≡ self.now.event }
    {
        self.event.event()
    }

    /// A copy of the reply, of some 12 KB. Allocates nothing.
    pub fn reply(&self) -> Reply
        ensures { result ≡ self.now.reply }
    {
        let mut reply = Reply::default();
        self.reply_into(&mut reply);
        reply
    }

    /// Overwrites a reply by this one, in place. It moves only the parts that the reply has. Allocates nothing.
    pub fn reply_into(&self, reply: &mut Reply)
        ensures { reply.new ≡ self.now.reply }
    {
        self.reply.reply_into(reply);
    }

    /// Whom the start of a round chose, by the reply: the target of the Ping that it sent (SWIM, section 4.3). None
    /// if no start of a round fired, or if it chose nobody. Allocates nothing, and makes no copy of the reply.
    pub fn chosen(&self) -> Option<Name>
        ensures { result ≡ choice_of_reply self.now.reply }
    {
        self.reply.chosen()
    }
}
