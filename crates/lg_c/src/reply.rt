//! A reply as C is given it.
//!
//! Defined in: `specs/Meaning/Replies.antt`.
ghost use Rattle.std.specs.Prelude.{◌≡◌, ◌≤◌, ◌<◌, ◌^◌, ◌++◌, drop, length, map, replicate};
ghost use Rattle.lg_c_values.specs.Meaning.Names.{c_name, no_c_name};
ghost use Rattle.lg_c_values.specs.Meaning.Records.{c_record};
ghost use Rattle.lg_c.specs.Meaning.Replies.{bare_answer, c_answer, c_fired, c_id, c_reply, c_send, c_told};
ghost use Rattle.lg_c.specs.Meaning.Replies.{fired_as, over};

use arrayvec::ArrayVec;
use lg_c_values::{LgAddress, LgName, LgRecord};
use lg_detector::{Answer, MAX_CHANGED, MAX_FORGOTTEN, MAX_SENDS, Outgoing, Reply, Timer, TimerId};
use lg_packet::{MAX_PACKET, encode};
use lg_rules::{Name, Record};

/// A datagram to be sent, as C is given it.
#[repr(C)]
#[derive(Clone, Copy)]
pub struct LgSend {
    /// Its bytes, and then zeros.
    pub bytes: [u8; MAX_PACKET],
    /// How many bytes it has.
    pub length: u32,
    /// Where it goes.
    pub to: LgAddress,
}

/// The timer that fired, as C is given it.
#[repr(C)]
#[derive(Clone, Copy)]
pub struct LgFired {
    /// 0 if none fired. Else 1 for the end of a round, 2 for a suspicion, 3 for an indirect probe, 4 for the nack of a
    /// relay, 5 for the end of a relay, 6 for the start of a round, 7 for a member that is forgotten, 8 for gossip.
    pub kind: u8,
    /// The number of the relay, if the kind is 4 or 5.
    pub number: u32,
    /// The member, if the kind is 2 or 7.
    pub name: LgName,
}

/// The answer to a question, as C is given it.
#[repr(C)]
#[derive(Clone, Copy)]
pub struct LgAnswer {
    /// 0 if nothing was asked. Else 1 if the name that was asked for isn't known, 2 for its record, 3 for the health.
    pub kind: u8,
    /// This member's incarnation, if the kind is 3.
    pub incarnation: u32,
    /// The health score, if the kind is 3.
    pub score: u64,
    /// How many members aren't gone, if the kind is 3.
    pub members: u64,
    /// The record, if the kind is 2.
    pub subject: LgRecord,
}

/// A reply as C is given it. What stands behind the first so many sends, changed records and forgotten names doesn't
/// count.
#[repr(C)]
#[derive(Drop)]
pub struct LgReply {
    /// The moment at which the next tick is due.
    pub next: u64,
    /// Whether this member is ousted.
    pub ousted: bool,
    /// How many datagrams are to be sent.
    pub sends_count: u32,
    /// How many records changed.
    pub changed_count: u32,
    /// How many names were forgotten.
    pub forgotten_count: u32,
    /// The timer that fired.
    pub fired: LgFired,
    /// The answer, if the event was a question.
    pub answer: LgAnswer,
    /// The datagrams.
    pub sends: [LgSend; MAX_SENDS],
    /// The records.
    pub changed: [LgRecord; MAX_CHANGED],
    /// The names.
    pub forgotten: [LgName; MAX_FORGOTTEN],
}

/// Some bytes, and then zeros.
fn padded<const N: usize>(bytes: &[u8]) -> [u8; N]
    requires { length bytes.now ≤ N }
    ensures { result ≡ bytes.now ++ drop (length bytes.now) (replicate N 0) }
{
    let mut all = [0; N];
    all[..bytes.len()].copy_from_slice(bytes);
    all
}

/// The default fills those places of a row of fixed capacity that hold nothing.
impl Default for LgSend {
    ghost use Rattle.std.specs.Prelude.{◌≡◌};
    ghost use Rattle.lg_c.specs.Meaning.Replies.{no_c_send};

    ghost is_default = { λ s. s ≡ no_c_send };

    fn default() -> Self {
        LgSend {
            bytes: padded(&[]),
            length: 0,
            to: LgAddress::none(),
        }
    }
}

impl LgSend {
    /// A packet to be sent, for C.
    fn of(outgoing: &Outgoing) -> LgSend
        ensures { result ≡ c_send outgoing.now }
    {
        let mut row = ArrayVec::new();
        encode(&outgoing.packet, &mut row);
        LgSend {
            bytes: padded(row.as_slice()),
            length: row.len() as u32,
            to: LgAddress::of(&outgoing.to),
        }
    }
}

impl LgFired {
    /// A timer that is about no member and no relay.
    fn alone(kind: u8) -> LgFired
        ensures { result ≡ fired_as kind 0 no_c_name }
    {
        LgFired::numbered(kind, 0)
    }

    /// A timer that is about a relay.
    fn numbered(kind: u8, number: u32) -> LgFired
        ensures { result ≡ fired_as kind number no_c_name }
    {
        LgFired {
            kind,
            number,
            name: LgName::none(),
        }
    }

    /// A timer that is about a member.
    fn about(kind: u8, member: &Name) -> LgFired
        ensures { result ≡ fired_as kind 0 (c_name member.now) }
    {
        LgFired {
            kind,
            number: 0,
            name: LgName::of(member),
        }
    }

    /// A timer, for C.
    fn of_id(id: &TimerId) -> LgFired
        ensures { result ≡ c_id id.now }
    {
        match id {
            TimerId::RoundEnd => LgFired::alone(1),
            TimerId::Suspicion(member) => LgFired::about(2, member),
            TimerId::Direct => LgFired::alone(3),
            TimerId::RelayNack(relay) => LgFired::numbered(4, *relay),
            TimerId::RelayEnd(relay) => LgFired::numbered(5, *relay),
            TimerId::RoundStart => LgFired::alone(6),
            TimerId::Forget(member) => LgFired::about(7, member),
            TimerId::Gossip => LgFired::alone(8),
        }
    }

    /// The timer that fired, if one did, for C.
    fn of(fired: &Option<Timer>) -> LgFired
        ensures { result ≡ c_fired fired.now }
    {
        match fired {
            Some(timer) => LgFired::of_id(&timer.id),
            None => LgFired::alone(0),
        }
    }
}

impl LgAnswer {
    /// An answer that tells no record and no health.
    fn bare(kind: u8) -> LgAnswer
        ensures { result ≡ bare_answer kind }
    {
        LgAnswer {
            kind,
            incarnation: 0,
            score: 0,
            members: 0,
            subject: LgRecord::none(),
        }
    }

    /// An answer, for C.
    fn told(answer: &Answer) -> LgAnswer
        ensures { result ≡ c_told answer.now }
    {
        match answer {
            Answer::Status(None) => LgAnswer::bare(1),
            Answer::Status(Some(claim)) => LgAnswer {
                subject: LgRecord::of(claim),
                ..LgAnswer::bare(2)
            },
            Answer::Health {
                score,
                number,
                members,
            } => LgAnswer {
                incarnation: number.number(),
                score: *score,
                members: *members,
                ..LgAnswer::bare(3)
            },
        }
    }

    /// The answer, if there is one, for C.
    fn of(answer: &Option<Answer>) -> LgAnswer
        ensures { result ≡ c_answer answer.now }
    {
        match answer {
            Some(answer) => LgAnswer::told(answer),
            None => LgAnswer::bare(0),
        }
    }
}

/// Packets to be sent, for C.
fn c_sends(sends: &[Outgoing]) -> ArrayVec<LgSend, MAX_SENDS>
    requires { length sends.now ≤ MAX_SENDS }
    ensures { result.items ≡ map c_send sends.now }
{
    let mut row = ArrayVec::new();
    for outgoing in sends {
        row.push(LgSend::of(outgoing));
    }
    row
}

/// Records, for C.
pub(crate) fn c_records<const N: usize>(records: &[Record]) -> ArrayVec<LgRecord, N>
    requires { length records.now ≤ N }
    ensures { result.items ≡ map c_record records.now }
{
    let mut row = ArrayVec::new();
    for claim in records {
        row.push(LgRecord::of(claim));
    }
    row
}

/// Names, for C.
fn c_names(names: &[Name]) -> ArrayVec<LgName, MAX_FORGOTTEN>
    requires { length names.now ≤ MAX_FORGOTTEN }
    ensures { result.items ≡ map c_name names.now }
{
    let mut row = ArrayVec::new();
    for name in names {
        row.push(LgName::of(name));
    }
    row
}

/// Writes a row over the first places of another.
pub(crate) fn put<T: Copy>(row: &[T], out: &mut [T]) -> u32
    requires fits { length row.now ≤ length out.old }
    requires few { length row.now < 2 ^ 32 }
    ensures written { out.new ≡ over row.now out.old }
    ensures count { result ≡ length row.now }
{
    out[..row.len()].copy_from_slice(row);
    row.len() as u32
}

impl LgReply {
    /// Replaces the reply by another.
    pub(crate) fn write(&mut self, reply: &Reply)
        ensures { self.new ≡ c_reply reply.now self.old }
    {
        self.next = reply.next;
        self.ousted = reply.ousted;
        self.fired = LgFired::of(&reply.fired);
        self.answer = LgAnswer::of(&reply.answer);
        self.sends_count = put(&c_sends(reply.sends.as_slice()), &mut self.sends);
        self.changed_count = put(&c_records::<MAX_CHANGED>(&reply.changed), &mut self.changed);
        self.forgotten_count = put(&c_names(&reply.forgotten), &mut self.forgotten);
    }
}
