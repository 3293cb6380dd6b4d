//! Both forms of a pass's calls: one returns its reply, and the other writes it over a reply that its caller keeps.
use super::calls::Happens::{self, Ask, Datagram, Health, Leave, Pull, Tick};
use super::calls::{Heard, make_call, make_call_into};
use crate::playing::{Play, Shown, told};
use lg_agent::{AgentName, Pass, Refusal, Spent};
use lg_agent_testing::{Case, Left, last_pass};
use lg_detector::Reply;
use lg_detector_testing::is_same_reply;
use lg_packet::Fault;
use std::alloc::Global;
use std::rt;
use std::sync::Wait;
use std::thread::Threads;

/// A form of the calls.
#[derive(Clone, Copy)]
pub enum Form {
    /// The call returns its reply.
    Returns,
    /// The call writes its reply over one that its caller keeps.
    Writes,
}

/// What a caller has after a call: the call's place or its refusal, and the reply to the last answered call.
#[derive(Drop)]
pub struct After {
    place: Result<u64, Refusal>,
    reply: Reply,
}

/// The most entries of the history: the opening and six calls.
const LIMIT: u64 = 7;

const FULL: Result<u64, Refusal> = Err(Refusal::HistoryFull(LIMIT));

/// Calls, each with its place or its refusal. Each call is answered once and refused once.
const ROWS: &[(Happens, Result<u64, Refusal>)] = &[
    (Datagram(0, Heard::PingOfC), Ok(1)),
    (
        Datagram(0, Heard::OneByte),
        Err(Refusal::BadPacket(Fault::Short)),
    ),
    (Tick(1, 0), Ok(2)),
    (Ask(2), Ok(3)),
    (Health(3), Ok(4)),
    (Pull(4), Ok(5)),
    (Leave(5, 0), Ok(6)),
    (Datagram(5, Heard::PingOfC), FULL),
    (Tick(600, 0), FULL),
    (Ask(600), FULL),
    (Health(600), FULL),
    (Pull(600), FULL),
    (Leave(600, 0), FULL),
];

/// A call that returns its reply, which is then kept.
fn call_and_keep<A: AgentName, R: Wait>(
    rt: &R,
    alloc: Global,
    pass: &mut Pass<'_, A>,
    happens: Happens,
    kept: &mut Reply,
) -> Result<u64, Refusal> {
    let receipt = make_call(rt, alloc, pass, happens)?;
    *kept = receipt.reply;
    Ok(receipt.place)
}

/// Makes the calls of the rows in one form, and tells what their caller has after each.
fn call_all<A: AgentName, R: Wait>(
    rt: &R,
    alloc: Global,
    pass: &mut Pass<'_, A>,
    form: Form,
) -> Vec<After> {
    let mut afters = Vec::new(alloc);
    let mut kept = Reply::default();
    for (happens, _) in ROWS {
        let place = match form {
            Form::Returns => call_and_keep(rt, alloc, pass, *happens, &mut kept),
            Form::Writes => make_call_into(rt, alloc, pass, *happens, &mut kept),
        };
        let reply = kept.copy();
        let _refused = afters.push(After { place, reply }).is_err();
    }
    afters
}

/// Makes the calls of the rows in one form, with the only pass.
pub fn run_form<A: AgentName, R: Wait>(
    rt: &R,
    alloc: Global,
    passes: Vec<Pass<'_, A>>,
    form: Form,
    spents: Vec<Spent<A>>,
) -> Left<A, Shown> {
    let Some(pass) = last_pass(passes) else {
        return Left::nothing(spents);
    };
    let mut pass = pass;
    let shown = Shown::Form(call_all(rt, alloc, &mut pass, form));
    Left::with(spents, pass.finish(), shown)
}

/// What the caller has after each call of a form, to an agent that knows nobody else. There is none if no agent was
/// opened.
fn played<R>(rt: &R, alloc: Global, form: Form) -> Vec<After>
where
    R: Threads + Wait + rt::Clock + Sync,
{
    let mut case = Case::new(1, Play::Form(form));
    case.limit = LIMIT;
    match told(rt, alloc, case) {
        Ok(outcome) => match outcome.seen {
            Some(Shown::Form(afters)) => afters,
            _ => Vec::new(alloc),
        },
        Err(_) => Vec::new(alloc),
    }
}

/// Whether two callers have the same after a call that has this place or this refusal.
fn are_same(one: &After, other: &After, place: Result<u64, Refusal>) -> bool {
    one.place == place && other.place == place && is_same_reply(&one.reply, &other.reply)
}

/// Two agents, one of which is called in each form, have the same places, refusals and replies. After a refused call
/// a caller has the reply that it had before.
#[test]
fn both_forms(rt: HostRuntime) {
    let returned = played(&rt, rt.alloc(), Form::Returns);
    let written = played(&rt, rt.alloc(), Form::Writes);
    for (index, (_, place)) in ROWS.iter().enumerate() {
        let met = match (returned.get(index), written.get(index)) {
            (Some(one), Some(other)) => are_same(one, other, *place),
            _ => false,
        };
        assert!(rt; met, "step {index}");
    }
}
