//! Calls and looks of the passes of one agent, and what they give.
use arrayvec::ArrayVec;
use lg_agent::{AgentName, Pass, Receipt, Refusal};
use lg_agent_testing::{ping_of, spelled};
use lg_detector::{Answer, Reply, TimerId};
use lg_packet::MAX_PACKET;
use lg_rules::Record;
use lg_testing::{ack, at, letter, local};
use std::alloc::Global;
use std::sync::Wait;

/// A Ping of a for b, numbered 7, that says that c is alive at 127.0.0.1:7003 with the incarnation 0.
const PING: &[u8] =
    b"SL\x01\x01\x01a\x00\x00\x00\x07\x01b\x01\x01\x01c\x7f\x00\x00\x01\x1b\x5b\x00\x00\x00\x00";

/// The bytes of a datagram.
#[derive(Clone, Copy)]
pub enum Heard {
    /// A Ping that says that c is alive.
    PingOfC,
    /// One byte, which is no packet.
    OneByte,
    /// The Ping of a thread's turn, as `ping_of` gives it.
    Turn(u32),
    /// The Ack of the member named by a letter, with a number.
    Ack(u8, u32),
}

/// A call that makes an event, with its moment in milliseconds.
#[derive(Clone, Copy)]
pub enum Happens {
    /// A datagram comes from port 7001.
    Datagram(u64, Heard),
    /// A tick whose words are all this one.
    Tick(u64, u32),
    /// The record of c is asked for.
    Ask(u64),
    Health(u64),
    /// The member at port 7001 is asked for its table.
    Pull(u64),
    /// b leaves, by words that are all this one.
    Leave(u64, u32),
}

/// A call or a look.
#[derive(Clone, Copy)]
pub enum Call {
    Event(Happens),
    /// The stored entries are cut off.
    Rotate,
    Version,
    Deadline,
    /// How many members there are.
    Members,
    /// The record of the member named by a letter.
    StatusOf(u8),
}

/// What an answered call gave.
#[derive(Clone, Copy)]
pub struct Answered {
    /// The position of its entry.
    pub place: u64,
    pub answer: Option<Answer>,
    /// Whether a round started.
    pub starts: bool,
    /// How many packets are to be sent.
    pub sends: usize,
    /// The next deadline.
    pub next: u64,
}

/// What a call or a look gave.
#[derive(Clone, Copy)]
pub enum Seen {
    Answered(Answered),
    Refused(Refusal),
    /// A version, a deadline, a number of members, or how many entries were cut off.
    Number(u64),
    Record(Option<Record>),
    /// Memory was refused, and yet something had changed; or there is no such pass.
    Wrong,
}

impl Answered {
    /// Whether another call gave the same.
    fn is(&self, other: &Answered) -> bool {
        self.place == other.place
            && self.answer == other.answer
            && self.starts == other.starts
            && self.sends == other.sends
            && self.next == other.next
    }
}

impl Seen {
    /// Whether this is what should be seen. `Wrong` never is.
    pub fn is(&self, wanted: &Seen) -> bool {
        match (self, wanted) {
            (Seen::Answered(answered), Seen::Answered(wanted)) => answered.is(wanted),
            (Seen::Refused(refusal), Seen::Refused(wanted)) => refusal == wanted,
            (Seen::Number(number), Seen::Number(wanted)) => number == wanted,
            (Seen::Record(record), Seen::Record(wanted)) => record == wanted,
            _ => false,
        }
    }
}

/// The bytes of a datagram.
fn bytes_of(heard: Heard) -> ArrayVec<u8, MAX_PACKET> {
    let given = match heard {
        Heard::PingOfC => PING,
        Heard::OneByte => b"S",
        Heard::Turn(turn) => return ping_of(turn),
        Heard::Ack(sender, number) => return spelled(sender, ack(number), &[]),
    };
    let mut bytes = ArrayVec::new();
    let _refused = bytes.try_extend_from_slice(given).is_err();
    bytes
}

/// What an answered call gave.
fn given_by(receipt: &Receipt) -> Answered {
    let reply = &receipt.reply;
    let starts = match &reply.fired {
        Some(timer) => timer.id == TimerId::RoundStart,
        None => false,
    };
    Answered {
        place: receipt.place,
        answer: reply.answer,
        starts,
        sends: reply.sends.len(),
        next: reply.next,
    }
}

/// What a call gave.
fn seen_of(answer: Result<Receipt, Refusal>) -> Seen {
    match answer {
        Ok(receipt) => Seen::Answered(given_by(&receipt)),
        Err(refusal) => Seen::Refused(refusal),
    }
}

/// What a call that gives a number gave.
fn number_of(answer: Result<u64, Refusal>) -> Seen {
    match answer {
        Ok(number) => Seen::Number(number),
        Err(refusal) => Seen::Refused(refusal),
    }
}

/// What a look at the members gave.
fn members_of(answer: Result<Vec<Record>, Refusal>) -> Seen {
    match answer {
        Ok(members) => Seen::Number(members.len() as u64),
        Err(refusal) => Seen::Refused(refusal),
    }
}

/// What a look at a member gave.
fn record_of(answer: Result<Option<Record>, Refusal>) -> Seen {
    match answer {
        Ok(record) => Seen::Record(record),
        Err(refusal) => Seen::Refused(refusal),
    }
}

/// A call that returns its reply.
pub fn make_call<A: AgentName, R: Wait>(
    rt: &R,
    alloc: Global,
    pass: &mut Pass<'_, A>,
    happens: Happens,
) -> Result<Receipt, Refusal> {
    match happens {
        Happens::Datagram(now, heard) => {
            let bytes = bytes_of(heard);
            pass.datagram(rt, alloc, at(now), local(7001), bytes.as_slice())
        }
        Happens::Tick(now, word) => pass.tick(rt, alloc, at(now), [word; 8]),
        Happens::Ask(now) => pass.ask(rt, alloc, at(now), &letter(b'c')),
        Happens::Health(now) => pass.health(rt, alloc, at(now)),
        Happens::Pull(now) => pass.pull(rt, alloc, at(now), local(7001)),
        Happens::Leave(now, word) => pass.leave(rt, alloc, at(now), [word; 8]),
    }
}

/// A call that writes its reply over one that its caller keeps. Returns its place.
pub fn make_call_into<A: AgentName, R: Wait>(
    rt: &R,
    alloc: Global,
    pass: &mut Pass<'_, A>,
    happens: Happens,
    kept: &mut Reply,
) -> Result<u64, Refusal> {
    match happens {
        Happens::Datagram(now, heard) => {
            let bytes = bytes_of(heard);
            let heard = pass.datagram_into(
                rt,
                alloc,
                at(now),
                local(7001),
                bytes.as_slice(),
                kept,
            )?;
            Ok(heard.place)
        }
        Happens::Tick(now, word) => pass.tick_into(rt, alloc, at(now), [word; 8], kept),
        Happens::Ask(now) => pass.ask_into(rt, alloc, at(now), &letter(b'c'), kept),
        Happens::Health(now) => pass.health_into(rt, alloc, at(now), kept),
        Happens::Pull(now) => pass.pull_into(rt, alloc, at(now), local(7001), kept),
        Happens::Leave(now, word) => pass.leave_into(rt, alloc, at(now), [word; 8], kept),
    }
}

/// One call or look.
pub fn step<A: AgentName, R: Wait>(
    rt: &R,
    alloc: Global,
    pass: &mut Pass<'_, A>,
    step: Call,
) -> Seen {
    match step {
        Call::Event(happens) => seen_of(make_call(rt, alloc, pass, happens)),
        Call::Rotate => number_of(pass.rotate(rt, alloc)),
        Call::Version => number_of(pass.version()),
        Call::Deadline => number_of(pass.next_deadline()),
        Call::Members => members_of(pass.members(alloc)),
        Call::StatusOf(member) => record_of(pass.status_of(&letter(member))),
    }
}

/// The number that a call or a look gave, if it gave one.
pub fn number<A: AgentName, R: Wait>(
    rt: &R,
    alloc: Global,
    pass: &mut Pass<'_, A>,
    call: Call,
) -> Option<u64> {
    match step(rt, alloc, pass, call) {
        Seen::Number(number) => Some(number),
        _ => None,
    }
}

/// Whether the record of the member named by a letter is known.
pub fn is_known<A: AgentName, R: Wait>(
    rt: &R,
    alloc: Global,
    pass: &mut Pass<'_, A>,
    member: u8,
) -> bool {
    matches!(
        step(rt, alloc, pass, Call::StatusOf(member)),
        Seen::Record(Some(_))
    )
}
