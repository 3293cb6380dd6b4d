//! What one turn reports to its loop.
//!
//! Defined in: `specs/Meaning/Links.antt`.
//! Tested in: `lg_node_tests/src/node/receiving.rt`, `lg_node_refusals/src/refused_memory.rt`.
ghost use Rattle.std.specs.Prelude.{◌≡◌, ◌≤◌, None, Some, if◌then◌else◌};
ghost use Rattle.lg_turns.specs.declared.ending.Why.TheVariants.{Ousted, Refused};
ghost use Rattle.lg_turns.specs.Meaning.Links.{WereHanded};

use crate::sending::hand_over;
use lg_agent::Refusal;
use lg_detector::Reply;
use lg_timing::Moment;
use lg_turns::{Link, Shared, Why};
use std::sync::Wait;

/// What one turn reports to its loop.
#[derive(Drop)]
pub(crate) struct Turned {
    /// Why the loop ends, if it does.
    pub(crate) why: Option<Why>,
    /// How many datagrams were dropped.
    pub(crate) dropped: u64,
    /// How many packets weren't sent.
    pub(crate) unsent: u64,
}

impl Turned {
    /// The loop goes on, and nothing is counted.
    pub(crate) fn on() -> Turned
        ensures why { result.why ≡ None }
        ensures dropped { result.dropped ≡ 0 }
        ensures unsent { result.unsent ≡ 0 }
    {
        Turned {
            why: None,
            dropped: 0,
            unsent: 0,
        }
    }

    /// A datagram was dropped, and the loop goes on.
    pub(crate) fn dropped() -> Turned
        ensures why { result.why ≡ None }
        ensures dropped { result.dropped ≡ 1 }
        ensures unsent { result.unsent ≡ 0 }
    {
        Turned {
            why: None,
            dropped: 1,
            unsent: 0,
        }
    }

    /// The loop ends, and nothing is counted.
    pub(crate) fn end(why: Why) -> Turned
        ensures why { result.why ≡ Some why }
        ensures dropped { result.dropped ≡ 0 }
        ensures unsent { result.unsent ≡ 0 }
    {
        Turned {
            why: Some(why),
            dropped: 0,
            unsent: 0,
        }
    }

    /// A call was refused, for another reason than that bytes are no packet: counts it, and the loop ends.
    pub(crate) fn refused<R, C>(shared: &Shared<'_, R, C>, refusal: Refusal) -> Turned
        ensures why { result.why ≡ Some (Refused refusal) }
        ensures dropped { result.dropped ≡ 0 }
        ensures unsent { result.unsent ≡ 0 }
    {
        shared.counters.note_refused();
        Turned::end(Why::Refused(refusal))
    }

    /// A call was answered at a moment by this reply: hands its packets to the link, and counts. The loop ends then if
    /// the member was ousted.
    pub(crate) fn of<R: Wait, C, L: Link>(
        shared: &Shared<'_, R, C>,
        link: &mut L,
        now: Moment,
        reply: &Reply,
    ) -> Turned
        ensures handed { WereHanded L.tells (L.log link.old) (L.log link.new) (L.failed link.old) (L.failed link.new)
            reply.now.sends.items result.unsent }
        ensures few { result.unsent ≤ 8 }
        ensures why { result.why ≡ (if reply.now.ousted then Some Ousted else None) }
        ensures dropped { result.dropped ≡ 0 }
    {
        let why = if reply.ousted {
            Some(Why::Ousted)
        } else {
            None
        };
        Turned {
            why,
            ..Turned::handed(shared, link, now, reply)
        }
    }

    /// A call was answered at a moment by this reply: hands its packets to the link, and counts. Whatever the reply
    /// says, it doesn't end the loop.
    pub(crate) fn handed<R: Wait, C, L: Link>(
        shared: &Shared<'_, R, C>,
        link: &mut L,
        now: Moment,
        reply: &Reply,
    ) -> Turned
        ensures handed { WereHanded L.tells (L.log link.old) (L.log link.new) (L.failed link.old) (L.failed link.new)
            reply.now.sends.items result.unsent }
        ensures few { result.unsent ≤ 8 }
        ensures why { result.why ≡ None }
        ensures dropped { result.dropped ≡ 0 }
    {
        let noted = hand_over(link, &shared.counters.name(), reply);
        shared.note(now, reply, &noted);
        Turned {
            why: None,
            dropped: 0,
            unsent: noted.unsent,
        }
    }
}
