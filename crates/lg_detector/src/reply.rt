//! The reply to an event: what fired, what is to be sent, and what changed.
//!
//! Defined in: `specs/Meaning/Choice.antt`, `specs/Meaning/Step.antt`.
//! Tested in: `lg_detector_tests/src/detector/probing.rt`.
ghost use Rattle.std.specs.Prelude.{◌≡◌, ◌<◌, ◌≤◌, ◌++◌, List, length, [], ◌∷◌, None, option_copied};
ghost use Rattle.std.specs.Option.{option_to_list};
ghost use Rattle.arrayvec.specs.ArrayVec.{array_vec_len};
ghost use Rattle.lg_detector.specs.declared.event.Event.{Event as Happened};
ghost use Rattle.lg_detector.specs.Meaning.Step.{reply_after};
ghost use Rattle.lg_detector.specs.Meaning.Choice.{choice_of_reply, choice_by, first_body, targets_after};

use crate::sends::Sends;
use arrayvec::ArrayVec;
use lg_packet::{Body, Packet};
use lg_probe::MAX_HELPERS;
use lg_rules::{Addr, Incarnation, MAX_CLAIMS, Name, Record};
use lg_timers::{Timer, TimerId};

/// The most packets that one event sends: a PingReq to each of the helpers that are asked.
pub const MAX_SENDS: usize = MAX_HELPERS;

/// The most records that one event changes: one for each claim of a packet.
pub const MAX_CHANGED: usize = MAX_CLAIMS;

/// The most names that one event forgets: one for each claim of a packet that lacks room.
pub const MAX_FORGOTTEN: usize = MAX_CLAIMS;

/// A packet to be sent.
#[derive(Debug, Drop)]
pub struct Outgoing {
    /// Where it goes.
    pub to: Addr,
    /// The packet.
    pub packet: Packet,
}

/// A slot for a packet to be sent.
impl Default for Outgoing {
    ghost is_default = { λ _. Unit {0} };

    fn default() -> Self {
        Outgoing {
            to: Addr::default(),
            packet: Packet::default(),
        }
    }
}

impl Outgoing {
    /// An equal packet to the same address. Allocates nothing.
    pub fn copy(&self) -> Outgoing
        ensures { result ≡ self.now }
    {
        Outgoing {
            to: self.to,
            packet: self.packet.copy(),
        }
    }
}

/// The answer to a question.
#[derive(Clone, Copy, Debug, PartialEq, Eq)]
pub enum Answer {
    /// To [`Event::Ask`](crate::Event::Ask): the record of the name, or none if it isn't known.
    Status(Option<Record>),
    /// To [`Event::Health`](crate::Event::Health).
    Health {
        /// The health score, 0 to the configuration's greatest score (Lifeguard, local health aware probe).
        score: u64,
        /// This member's incarnation.
        number: Incarnation,
        /// How many members aren't gone, this one included: 1 to [`MAX_MEMBERS`](crate::MAX_MEMBERS).
        members: u64,
    },
}

/// What a detector gives back for an event. Its size is fixed, so everything always fits.
#[derive(Debug, Drop)]
pub struct Reply {
    /// The timer that fired, if one did. Only a tick fires one.
    pub fired: Option<Timer>,
    /// The packets to be sent, in order.
    pub sends: Sends,
    /// The records that differ from those before the event, in the order of their names. An opening's reply has none.
    pub changed: ArrayVec<Record, MAX_CHANGED>,
    /// The names that were forgotten, in the order in which they were. Such a name is unknown after the event, unless a
    /// later claim of the same packet made it known again.
    pub forgotten: ArrayVec<Name, MAX_FORGOTTEN>,
    /// The answer, if the event was a question.
    pub answer: Option<Answer>,
    /// Whether a claim about this member has come, since the opening, that nothing can refute.
    pub ousted: bool,
    /// The least deadline of the timers that are set after the event, in milliseconds. It is 0 if none is set. From
    /// the opening on one always is.
    pub next: u64,
}

/// An empty reply with the deadline 0, for the first reply to overwrite.
impl Default for Reply {
    ghost use Rattle.std.specs.Prelude.{◌≡◌, [], None, false};

    ghost is_default = { λ r. r ≡ record {
      fired = None;
      sends = record { items = [] };
      changed = record { items = [] };
      forgotten = record { items = [] };
      answer = None;
      ousted = false;
      next = 0;
    } };

    fn default() -> Self {
        Reply {
            fired: None,
            sends: Sends::new(),
            changed: ArrayVec::new(),
            forgotten: ArrayVec::new(),
            answer: None,
            ousted: false,
            next: 0,
        }
    }
}

/// Copies of packets to be sent.
fn copy_sends(sends: &[Outgoing]) -> Sends
    requires { length sends.now ≤ MAX_SENDS }
    ensures { result.items ≡ sends.now }
{
    let mut copies = Sends::new();
    for outgoing in sends {
        copies.push(outgoing.copy());
    }
    copies
}

/// Copies of records.
fn copy_records(records: &[Record]) -> ArrayVec<Record, MAX_CHANGED>
    requires { length records.now ≤ MAX_CHANGED }
    ensures { result.items ≡ records.now }
{
    let mut copies = ArrayVec::new();
    for claim in records {
        copies.push(*claim);
    }
    copies
}

/// Copies of names.
fn copy_names(names: &[Name]) -> ArrayVec<Name, MAX_FORGOTTEN>
    requires { length names.now ≤ MAX_FORGOTTEN }
    ensures { result.items ≡ names.now }
{
    let mut copies = ArrayVec::new();
    for name in names {
        copies.push(*name);
    }
    copies
}

/// The body of the first of some packets, if there are any.
fn first_body(sends: &[Outgoing]) -> Option<&Body>
    ensures { option_copied result ≡ first_body sends.now }
{
    Some(&sends.first()?.packet.body)
}

/// Whom the start of a round chose, by the timer that fired and the body of the first packet that was sent: the
/// target of its Ping. None if no start of a round fired, or if it sent no Ping.
pub fn choice_by(fired: Option<Timer>, first: Option<&Body>) -> Option<Name>
    ensures { result ≡ choice_by fired (option_copied first.entry) }
{
    match (fired?.id, first?) {
        (TimerId::RoundStart, Body::Ping { target, .. }) => Some(*target),
        _ => None,
    }
}

impl Reply {
    /// Whom the start of a round chose: the target of the Ping that it sent (SWIM, section 4.3). None if no start of
    /// a round fired, or if it chose nobody. Allocates nothing.
    pub fn chosen(&self) -> Option<Name>
        ensures reply { result ≡ choice_of_reply self.now }
        // The reply to an event after a list of events says which target the event adds to those of the list.
        ensures gained { (f : List Happened) (e : Happened) → self.now ≡ reply_after f e
            → targets_after (f ++ e ∷ []) ≡ targets_after f ++ option_to_list result }
    {
        choice_by(self.fired, first_body(self.sends.as_slice()))
    }

    /// Clears the timer, the packets, the changed records, the forgotten names and the answer.
    pub(crate) fn say_nothing(&mut self)
        ensures { self.new ≡ record self.old {
          fired = None;
          sends = record { items = [] };
          changed = record { items = [] };
          forgotten = record { items = [] };
          answer = None;
        } }
    {
        self.fired = None;
        self.sends.clear();
        self.changed.clear();
        self.forgotten.clear();
        self.answer = None;
    }

    /// An equal reply. Allocates nothing.
    pub fn copy(&self) -> Reply
        ensures { result ≡ self.now }
    {
        Reply {
            fired: self.fired,
            sends: copy_sends(self.sends.as_slice()),
            changed: copy_records(self.changed.as_slice()),
            forgotten: copy_names(self.forgotten.as_slice()),
            answer: self.answer,
            ousted: self.ousted,
            next: self.next,
        }
    }
}
