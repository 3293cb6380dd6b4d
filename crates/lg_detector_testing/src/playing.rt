//! Plays steps on a detector. A case is a list of steps, all of them plain data. Whoever plays it asserts once that it
//! goes as it says, because each assert is a branch that the check proves.
use crate::happening::{Happens, event_of};
use crate::resuming::resume_each;
use arrayvec::ArrayVec;
use lg_detector::{
    Answer, Detector, Event, MAX_MEMBERS, NoMemory, Outgoing, Reply, Timer, TimerId,
};
use lg_packet::Version;
use lg_rules::{Addr, Record};
use lg_testing::bodies::{Says, body_of};
use lg_testing::says::{Member, Said, are_said, claim_of, far, is_said, named, names_of};
use lg_testing::{Due, at, incarnation, local, timer_of};
use std::alloc::Global;

/// A packet that is sent: its sender, the port that it goes to, its body and its claims.
pub type Goes<'a> = (Member, u16, Says, &'a [Said]);

/// Something that happens to a detector, or that is asked afterwards: of the reply to the last event, or of the
/// detector.
#[derive(Clone, Copy)]
pub enum Step<'a> {
    /// An event is accepted.
    Takes(Happens<'a>),
    /// An event isn't accepted. It is absorbed all the same.
    Refuses(Happens<'a>),
    /// These claims are heard at a moment, each in a Ping for z of its own.
    Hears(u64, &'a [Said]),
    /// A tick, with its whole reply: its moment, the timer that fires, the records that change and the next deadline.
    Ticks(u64, Due, &'a [Said], u64),
    /// An event is accepted, with its whole reply but for an answer: the timer that fires, the packets that are sent,
    /// the records that change and the next deadline. The packets are of version 3.
    Replies(Happens<'a>, Due, &'a [Goes<'a>], &'a [Said], u64),
    /// The timer that fired.
    Fired(Due),
    /// How many packets are sent.
    Sends(usize),
    /// One packet is sent: an Ack of b to port 1, with this number and these claims.
    Acks(u32, &'a [Said]),
    /// The packet at an index goes to a port, and has this body and these claims.
    Sent(usize, u16, Says, &'a [Said]),
    /// The first packet has a version, goes to a port, and has this body and these claims.
    SentIn(Version, u16, Says, &'a [Said]),
    /// The first packet has version 3 and a group, goes to a port, and has this body and these claims.
    SentOfGroup(Member, u16, Says, &'a [Said]),
    /// The first packet has a version, goes to port 7 of ::1, and has this body and these claims.
    SentFar(Version, Says, &'a [Said]),
    /// The first packet is a Ping of a member, with this number.
    Pings(u32, Member),
    /// The member that the start of a round chose.
    Chose(Option<Member>),
    /// The claim about a member that the first packet sends.
    Tells(Member, Option<Said>),
    /// The records that changed.
    Changed(&'a [Said]),
    /// How many records changed.
    Changes(usize),
    /// The names that were forgotten.
    Forgot(&'a [Member]),
    /// There is no answer.
    AnswersNothing,
    /// The answer is this record.
    Answers(Option<Said>),
    /// The answer is this score, number and count of members. The detector knows the first two without an event.
    AnswersHealth(u64, u32, u64),
    /// Whether b is ousted.
    Ousted(bool),
    /// The next deadline, by the reply.
    Next(u64),
    /// The next deadline, by the detector.
    Deadline(Option<u64>),
    /// The record of a member.
    Known(Member, Option<Said>),
    /// All records.
    Table(&'a [Said]),
    /// How many records there are.
    Members(usize),
    /// How many events came.
    Events(u64),
    /// The greatest moment handed in.
    Moment(u64),
}

/// Whether a packet is one of a member to an address, in a version, with this body and these claims, whatever its group
/// is.
fn is_sent_in(
    sender: Member,
    sent: &Outgoing,
    version: Version,
    to: Addr,
    says: &Says,
    said: &[Said],
) -> bool {
    sent.to == to
        && sent.packet.version == version
        && sent.packet.sender == named(sender)
        && sent.packet.body == body_of(says)
        && are_said(sent.packet.claims.as_slice(), said)
}

/// The same, and it has no group.
fn is_sent_by(
    sender: Member,
    sent: &Outgoing,
    version: Version,
    to: Addr,
    says: &Says,
    said: &[Said],
) -> bool {
    sent.packet.group == None && is_sent_in(sender, sent, version, to, says, said)
}

/// The same for a packet of b.
fn is_sent(sent: &Outgoing, version: Version, to: Addr, says: &Says, said: &[Said]) -> bool {
    is_sent_by("b", sent, version, to, says, said)
}

/// Whether these packets of version 3 are sent, in this order.
fn go_out(sends: &[Outgoing], goes: &[Goes<'_>]) -> bool {
    sends.len() == goes.len()
        && sends.iter().zip(goes.iter()).all(|(sent, (sender, port, says, said))| {
            is_sent_by(sender, sent, Version::Three, local(*port), says, said)
        })
}

/// Whether the packet at an index is what is said, in version 1.
fn sends(reply: &Reply, index: usize, port: u16, says: &Says, said: &[Said]) -> bool {
    match reply.sends.as_slice().get(index) {
        Some(sent) => is_sent(sent, Version::One, local(port), says, said),
        None => false,
    }
}

/// Whether the first packet is what is said.
fn begins(reply: &Reply, version: Version, to: Addr, says: &Says, said: &[Said]) -> bool {
    match reply.sends.as_slice().first() {
        Some(sent) => is_sent(sent, version, to, says, said),
        None => false,
    }
}

/// Whether the first packet is what is said, in version 3 and of a group.
fn begins_in(reply: &Reply, group: Member, to: Addr, says: &Says, said: &[Said]) -> bool {
    match reply.sends.as_slice().first() {
        Some(sent) => {
            sent.packet.group == Some(named(group))
                && is_sent_in("b", sent, Version::Three, to, says, said)
        }
        None => false,
    }
}

/// Whether the first packet is a Ping of a member, with this number.
fn pings(reply: &Reply, number: u32, member: Member) -> bool {
    match reply.sends.as_slice().first() {
        Some(sent) => sent.packet.body == body_of(&Says::Ping(number, member)),
        None => false,
    }
}

/// The claim about a member that the first packet of a reply sends.
fn told_of(reply: &Reply, member: Member) -> Option<Record> {
    let member = named(member);
    let sent = reply.sends.as_slice().first()?;
    sent.packet
        .claims
        .iter()
        .find(|claim| claim.name == member)
        .copied()
}

/// The records of all members.
pub fn table_of(detector: &Detector) -> ArrayVec<Record, MAX_MEMBERS> {
    let mut row = ArrayVec::new();
    detector.put_table(&mut row);
    row
}

/// Whether an event is accepted. If it is, its reply is written. If it isn't, it is absorbed all the same.
pub fn takes(detector: &mut Detector, event: &Event, reply: &mut Reply) -> bool {
    let accepted = detector.accepts(event);
    if accepted {
        detector.step(event, reply);
    } else {
        detector.absorb(event);
    }
    accepted
}

/// Whether each of these claims can be heard in a Ping of its own.
fn hears(detector: &mut Detector, now: u64, said: &[Said]) -> bool {
    let mut reply = Reply::default();
    let mut accepted = true;
    for one in said {
        let event = event_of(&Happens::Ping(now, 1, "z", &[*one]));
        accepted = takes(detector, &event, &mut reply) && accepted;
    }
    accepted
}

/// Whether nobody was forgotten but by the timer that fired.
fn has_forgotten(reply: &Reply) -> bool {
    match &reply.fired {
        Some(
            Timer {
                id: TimerId::Forget(name),
                ..
            },
        ) => reply.forgotten.as_slice() == [*name].as_slice(),
        _ => reply.forgotten.is_empty(),
    }
}

/// Whether the whole reply to a tick is what is said.
fn has_ticked(detector: &Detector, reply: &Reply, due: &Due, changed: &[Said], next: u64) -> bool {
    reply.fired == timer_of(due)
        && are_said(reply.changed.as_slice(), changed)
        && reply.next == next
        && detector.next_deadline() == Some(next)
        && reply.sends.len() == 0
        && has_forgotten(reply)
        && reply.answer == None
        && !reply.ousted
}

/// Whether the whole reply, but for its answer, is what is said.
fn has_replied(
    detector: &Detector,
    reply: &Reply,
    due: &Due,
    goes: &[Goes<'_>],
    changed: &[Said],
    next: u64,
) -> bool {
    reply.fired == timer_of(due)
        && go_out(reply.sends.as_slice(), goes)
        && are_said(reply.changed.as_slice(), changed)
        && has_forgotten(reply)
        && reply.next == next
        && detector.next_deadline() == Some(next)
        && !reply.ousted
}

/// Whether the last reply is what a step says.
fn is_replied(step: &Step<'_>, reply: &Reply) -> bool {
    match step {
        Step::Fired(due) => reply.fired == timer_of(due),
        Step::Sends(count) => reply.sends.len() == *count,
        Step::Acks(number, said) => {
            reply.sends.len() == 1 && sends(reply, 0, 1, &Says::Ack(*number), said)
        }
        Step::Sent(index, port, says, said) => sends(reply, *index, *port, says, said),
        Step::SentIn(version, port, says, said) => {
            begins(reply, *version, local(*port), says, said)
        }
        Step::SentOfGroup(group, port, says, said) => {
            begins_in(reply, *group, local(*port), says, said)
        }
        Step::SentFar(version, says, said) => begins(reply, *version, far(), says, said),
        Step::Pings(number, member) => pings(reply, *number, *member),
        Step::Chose(member) => reply.chosen() == member.map(named),
        Step::Tells(member, said) => is_said(told_of(reply, *member), said),
        Step::Changed(said) => are_said(reply.changed.as_slice(), said),
        Step::Changes(count) => reply.changed.len() == *count,
        Step::Forgot(members) => reply.forgotten.as_slice() == names_of(members).as_slice(),
        Step::AnswersNothing => reply.answer == None,
        Step::Answers(said) => { reply.answer == Some(Answer::Status(said.as_ref().map(claim_of))) }
        Step::AnswersHealth(score, number, members) => {
            reply.answer
                == Some(Answer::Health {
                    score: *score,
                    number: incarnation(*number),
                    members: *members,
                })
        }
        Step::Next(deadline) => reply.next == *deadline,
        _ => false,
    }
}

/// Plays a step. Returns whether it went as the step says.
fn plays(step: &Step<'_>, detector: &mut Detector, reply: &mut Reply) -> bool {
    match step {
        Step::Takes(happens) => takes(detector, &event_of(happens), reply),
        Step::Refuses(happens) => !takes(detector, &event_of(happens), reply),
        Step::Hears(now, said) => hears(detector, *now, said),
        Step::Ticks(now, due, changed, next) => {
            let tick = event_of(&Happens::Tick(*now));
            takes(detector, &tick, reply) && has_ticked(detector, reply, due, changed, *next)
        }
        Step::Replies(happens, due, goes, changed, next) => {
            takes(detector, &event_of(happens), reply)
                && has_replied(detector, reply, due, goes, changed, *next)
        }
        Step::Deadline(deadline) => detector.next_deadline() == *deadline,
        Step::Known(member, said) => is_said(detector.record_of(&named(member)), said),
        Step::Table(said) => are_said(table_of(detector).as_slice(), said),
        Step::Members(count) => table_of(detector).len() == *count,
        Step::Events(count) => detector.events() == *count,
        Step::Moment(moment) => detector.moment() == at(*moment),
        Step::AnswersHealth(score, number, _) => {
            let standing = detector.standing();
            is_replied(step, reply)
                && standing.score == *score
                && standing.number == incarnation(*number)
        }
        Step::Ousted(ousted) => reply.ousted == *ousted && detector.standing().ousted == *ousted,
        _ => is_replied(step, reply),
    }
}

/// Where a play goes another way than its case says.
#[derive(Debug, Drop)]
pub enum Mismatch<'a> {
    /// Memory was refused.
    NoMemory,
    /// At a step of the case, counted from 0, after which the last reply is this.
    Step(&'a str, usize, Reply),
    /// After a detector was resumed before a step of the case, counted from 0.
    Resumed(&'a str, usize),
}

impl<'a> From<NoMemory> for Mismatch<'a> {
    fn from(_: NoMemory) -> Self {
        Mismatch::NoMemory
    }
}

/// Plays the steps of a case on a detector, up to the first that doesn't go as it says.
pub fn play_on<'a>(
    detector: &mut Detector,
    case: &'a str,
    steps: &[Step<'_>],
) -> Result<(), Mismatch<'a>> {
    let mut reply = Reply::default();
    for (number, step) in steps.iter().enumerate() {
        if !plays(step, detector, &mut reply) {
            return Err(Mismatch::Step(case, number, reply));
        }
    }
    Ok(())
}

/// b, opened at 0.
pub fn opened(alloc: Global) -> Result<Detector, NoMemory> {
    let mut detector = Detector::blank(alloc)?;
    detector.absorb(&event_of(&Happens::Opens(0, &[])));
    Ok(detector)
}

/// A case: its name, and its steps.
pub type DetectorCase = (&'static str, &'static [Step<'static>]);

/// Plays each case on its own detector, to which nothing has happened.
pub fn play_blank(alloc: Global, cases: &[DetectorCase]) -> Result<(), Mismatch<'static>> {
    for (case, steps) in cases {
        play_on(&mut Detector::blank(alloc)?, case, steps)?;
    }
    Ok(())
}

/// Plays each case on its own b, opened at 0. Then resumes such a b at each place of the case.
pub fn play(alloc: Global, cases: &[DetectorCase]) -> Result<(), Mismatch<'static>> {
    for (case, steps) in cases {
        play_on(&mut opened(alloc)?, case, steps)?;
    }
    resume_each(alloc, &Some(Happens::Opens(0, &[])), cases)
}
