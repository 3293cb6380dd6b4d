//! What the calls and looks of the agents' tests should give.
use super::calls::{Answered, Seen};
use lg_agent::Refusal;
use lg_detector::Answer;
use lg_rules::{Record, Status};
use lg_testing::{incarnation, letter, local};

/// What a call or a look should give.
#[derive(Clone, Copy)]
pub enum Want {
    /// An answered call: its place, the number of its packets, and the next deadline.
    Sent(u64, usize, u64),
    /// The start of a round with one packet: its place, and the next deadline.
    Round(u64, u64),
    /// c is known, and alive: the call's place, and the next deadline.
    KnowsC(u64, u64),
    /// The score and b's incarnation are 0: the call's place, the number of members, and the next deadline.
    Healthy(u64, u64, u64),
    Refused(Refusal),
    /// A version, a deadline, a number of members, or how many entries were cut off.
    Number(u64),
    /// The record of the member named by a letter, alive at a port with the incarnation 0.
    Alive(u8, u16),
    /// The same, but Left.
    Left(u8, u16),
}

/// The record of the member named by a letter, at a port with the incarnation 0.
fn record(member: u8, port: u16, status: Status) -> Record {
    Record {
        name: letter(member),
        addr: local(port),
        status,
        incarnation: incarnation(0),
    }
}

/// The same, alive.
fn alive(member: u8, port: u16) -> Record {
    record(member, port, Status::Alive)
}

/// An answer that says nothing, with this place and this next deadline.
fn answered(place: u64, next: u64) -> Answered {
    Answered {
        place,
        answer: None,
        starts: false,
        sends: 0,
        next,
    }
}

/// The same, with this many packets.
fn sent(place: u64, sends: usize, next: u64) -> Seen {
    let mut seen = answered(place, next);
    seen.sends = sends;
    Seen::Answered(seen)
}

/// The start of a round with one packet.
fn round(place: u64, next: u64) -> Seen {
    let mut seen = answered(place, next);
    seen.starts = true;
    seen.sends = 1;
    Seen::Answered(seen)
}

/// c is known, and alive.
fn knows_c(place: u64, next: u64) -> Seen {
    let mut seen = answered(place, next);
    seen.answer = Some(Answer::Status(Some(alive(b'c', 7003))));
    Seen::Answered(seen)
}

/// The score and b's incarnation are 0, and there are this many members.
fn healthy(place: u64, members: u64, next: u64) -> Seen {
    let mut seen = answered(place, next);
    seen.answer = Some(Answer::Health {
        score: 0,
        number: incarnation(0),
        members,
    });
    Seen::Answered(seen)
}

impl Want {
    /// What is seen if this is given.
    fn seen(self) -> Seen {
        match self {
            Want::Sent(place, sends, next) => sent(place, sends, next),
            Want::Round(place, next) => round(place, next),
            Want::KnowsC(place, next) => knows_c(place, next),
            Want::Healthy(place, members, next) => healthy(place, members, next),
            Want::Refused(refusal) => Seen::Refused(refusal),
            Want::Number(number) => Seen::Number(number),
            Want::Alive(member, port) => Seen::Record(Some(alive(member, port))),
            Want::Left(member, port) => Seen::Record(Some(record(member, port, Status::Left))),
        }
    }

    /// Whether this was seen.
    pub fn is(self, seen: &Seen) -> bool {
        seen.is(&self.seen())
    }
}
