//! Agents of one place and of two. Each case is a list of calls and looks, with what each gives.
use super::calls::Happens::{Ask, Datagram, Health, Leave, Pull, Tick};
use super::calls::{Call, Heard};
use super::steps::Row;
use super::wanted::Want::{Alive, Healthy, KnowsC, Left, Number, Refused, Round, Sent};
use crate::playing::{Play, Shown, told};
use lg_agent::{CloseFault, Refusal};
use lg_agent_testing::{Case, Ending, Outcome};
use lg_packet::Fault;
use std::alloc::Global;
use std::rt;
use std::sync::Wait;
use std::thread::Threads;

/// The index of the first step that gave something else than it should, how many passes were given out later, and how
/// the agent ended.
pub type SeenIn = (Option<usize>, usize, Ending);

/// What was seen in a case of steps.
pub fn seen_in(outcome: &Outcome<Shown>) -> Option<SeenIn> {
    match &outcome.seen {
        Some(Shown::Steps(played)) => Some((played.wrong, outcome.later, outcome.ending)),
        _ => None,
    }
}

/// A case with this many places, whose agent knows this many others and has this limit on its history.
pub fn case<'a>(places: usize, others: u8, limit: u64, rows: &'a [Row]) -> Case<Play<'a>> {
    let mut case = Case::new(places, Play::Steps(rows));
    case.others = others;
    case.limit = limit;
    case
}

/// What is seen in a case.
pub fn play<R>(rt: &R, alloc: Global, case: Case<Play<'_>>) -> Option<SeenIn>
where
    R: Threads + Wait + rt::Clock + Sync,
{
    let outcome = told(rt, alloc, case).ok()?;
    seen_in(&outcome)
}

/// Each call of one pass, with a look after it that shows it. After the calls c is known, a round has begun, and b has
/// left.
const EACH_CALL: &[Row] = &[
    (0, Call::Event(Datagram(0, Heard::PingOfC)), Sent(1, 1, 0)),
    (0, Call::Version, Number(2)),
    (0, Call::Event(Tick(1, 0)), Round(2, 501)),
    (0, Call::Version, Number(3)),
    (0, Call::Event(Ask(2)), KnowsC(3, 501)),
    (0, Call::Version, Number(4)),
    (0, Call::Event(Health(3)), Healthy(4, 2, 501)),
    (0, Call::Version, Number(5)),
    (0, Call::Event(Pull(4)), Sent(5, 1, 501)),
    (0, Call::Version, Number(6)),
    (0, Call::Event(Leave(5, 0)), Sent(6, 1, 1005)),
    (0, Call::Version, Number(7)),
    (0, Call::StatusOf(b'b'), Left(b'b', 7000)),
    (0, Call::Members, Number(2)),
];

/// The history has at most two entries.
const FULL: &[Row] = &[
    (0, Call::Event(Health(1)), Healthy(1, 1, 0)),
    (0, Call::Event(Health(2)), Refused(Refusal::HistoryFull(2))),
];

/// A datagram of one byte.
const SHORT: &[Row] = &[(
    0,
    Call::Event(Datagram(1, Heard::OneByte)),
    Refused(Refusal::BadPacket(Fault::Short)),
)];

/// Looks, the first before a call and the others after it.
const LOOKS: &[Row] = &[
    (0, Call::Version, Number(1)),
    (0, Call::Event(Health(1)), Healthy(1, 1, 0)),
    (0, Call::Version, Number(2)),
    (0, Call::Deadline, Number(0)),
    (0, Call::Members, Number(1)),
    (0, Call::StatusOf(b'b'), Alive(b'b', 7000)),
];

/// Two calls of the first pass, and one of the second between them.
const THREE: &[Row] = &[
    (0, Call::Event(Health(1)), Healthy(1, 1, 0)),
    (1, Call::Event(Health(1)), Healthy(2, 1, 0)),
    (0, Call::Event(Health(1)), Healthy(3, 1, 0)),
];

/// One pass hears of c, and then another one looks and asks, in another thread.
const OF_C: &[Row] = &[
    (0, Call::Event(Datagram(10, Heard::PingOfC)), Sent(1, 1, 0)),
    (0, Call::StatusOf(b'c'), Alive(b'c', 7003)),
    (0, Call::Version, Number(2)),
    (1, Call::Version, Number(2)),
    (1, Call::StatusOf(b'c'), Alive(b'c', 7003)),
    (1, Call::Event(Ask(20)), KnowsC(2, 0)),
];

/// A call at 5000, and then a tick at 4000 in another thread: the round starts at 5000.
const EARLIER: &[Row] = &[
    (0, Call::Event(Health(5000)), Healthy(1, 2, 0)),
    (1, Call::Event(Tick(4000, 0)), Round(2, 5500)),
];

/// b leaves in version 3, and tells c by one packet. Its record is Left in the table that readers see. It leaves once
/// more, and tells nobody.
const LEAVES: &[Row] = &[
    (0, Call::StatusOf(b'b'), Alive(b'b', 7000)),
    (0, Call::Event(Leave(1, 0)), Sent(1, 1, 0)),
    (0, Call::StatusOf(b'b'), Left(b'b', 7000)),
    (0, Call::Version, Number(2)),
    (0, Call::Event(Leave(2, 0)), Sent(2, 0, 0)),
    (0, Call::StatusOf(b'b'), Left(b'b', 7000)),
];

/// A name, how many places the agent has and how many others it knows, the limit on its history, and the steps. Then
/// the fault of the first closing if what the first pass left is missing there, and the number of entries.
type AgentRow = (
    &'static str,
    usize,
    u8,
    u64,
    &'static [Row],
    Option<CloseFault>,
    u64,
);

const AGENTS: &[AgentRow] = &[
    ("each call", 1, 0, 20_000, EACH_CALL, None, 7),
    ("full", 1, 0, 2, FULL, None, 2),
    ("short", 1, 0, 20_000, SHORT, None, 1),
    ("looks", 1, 0, 20_000, LOOKS, None, 2),
    ("two passes", 2, 0, 20_000, THREE, None, 4),
    (
        "one is missing",
        2,
        0,
        20_000,
        THREE,
        Some(CloseFault::Missing),
        4,
    ),
    ("no call", 2, 0, 20_000, &[], None, 1),
    ("another hears", 2, 0, 20_000, OF_C, None, 3),
    ("an earlier moment", 2, 1, 20_000, EARLIER, None, 3),
];

/// What each call and look gives, to one pass and to two, and how their agents end.
#[test]
fn each_call_and_look(rt: HostRuntime) {
    for (name, places, others, limit, steps, fault, entries) in AGENTS {
        let mut case = case(*places, *others, *limit, steps);
        case.at_once = fault.is_none();
        let want = Some((None, 0, Ending::closed(*fault, *entries)));
        assert_eq!(rt; play(&rt, rt.alloc(), case), want, "{name}");
    }
}

/// A leave in version 3.
#[test]
fn leaves_its_group(rt: HostRuntime) {
    let mut case = case(1, 1, 20_000, LEAVES);
    case.wire = 3;
    let want = Some((None, 0, Ending::closed(None, 3)));
    assert_eq!(rt; play(&rt, rt.alloc(), case), want);
}
