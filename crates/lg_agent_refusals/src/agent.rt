//! Agents with one pass: each call and look that is refused memory has changed nothing, and goes well the next time.
ghost use Rattle.std.specs.Prelude.{◌≡◌};

use Call::{Ack, Ask, Health, Leave, Members, Ping, Pull, Rotate, RotateInto, Tick, Version};
use arrayvec::ArrayVec;
use lg_agent::{Agent, AgentName, Closed, CutOff, Pass, Refusal, Spent, Unclosed};
use lg_packet::{Body, encode};
use lg_rules::Claim;
use lg_testing::{ack, alive, at, letter, local, packet, ping};
use lg_timing::{Config, Seed};
use lg_view::UnnamedBook;
use std::alloc::Global;
use std::marker::Brand;
use std::sync::Wait;

/// A call or a look of a pass. The first number of a call is its moment in milliseconds.
#[derive(Clone, Copy)]
enum Call {
    /// A Ping of a for b says that c is alive.
    Ping(u64),
    /// The Ack of the member named by a letter, with a number.
    Ack(u64, u8, u32),
    /// A tick whose words are all this one.
    Tick(u64, u32),
    /// The record of c is asked for.
    Ask(u64),
    Health(u64),
    /// The member at port 7001 is asked for its table.
    Pull(u64),
    /// b leaves.
    Leave(u64),
    /// The stored entries are cut off.
    Rotate,
    /// They are cut off and handed out.
    RotateInto,
    Version,
    Members,
}

/// A call, and what it gives: the position of its entry, how many entries were cut off, a version, or how many members
/// there are.
type Row = (Call, Result<u64, Refusal>);

/// b hears a packet from port 7001.
fn heard<A: AgentName, R: Wait>(
    rt: &R,
    alloc: Global,
    pass: &mut Pass<'_, A>,
    now: u64,
    sender: u8,
    body: Body,
    claims: &[Claim],
) -> Result<u64, Refusal> {
    let mut bytes = ArrayVec::new();
    encode(&packet(sender, body, claims), &mut bytes);
    let receipt = pass.datagram(rt, alloc, at(now), local(7001), bytes.as_slice())?;
    Ok(receipt.place)
}

/// How many entries a rotation hands out. `NoPlace` if it answers another number. If it is refused, nothing may be
/// handed out.
fn handed_out<A: AgentName, R: Wait>(
    rt: &R,
    alloc: Global,
    pass: &mut Pass<'_, A>,
) -> Result<u64, Refusal> {
    let mut into = CutOff::new(alloc);
    let answer = pass.rotate_into(rt, alloc, &mut into);
    let handed = into.entries().len() as u64;
    match answer {
        Ok(count) if count == handed => Ok(count),
        Err(refusal) if handed == 0 && into.before().is_none() => Err(refusal),
        _ => Err(Refusal::NoPlace),
    }
}

/// Makes a call.
fn make<A: AgentName, R: Wait>(
    rt: &R,
    alloc: Global,
    pass: &mut Pass<'_, A>,
    call: Call,
) -> Result<u64, Refusal> {
    match call {
        Ping(now) => heard(rt, alloc, pass, now, b'a', ping(7, b'b'), &[alive(b'c', 0)]),
        Ack(now, sender, number) => heard(rt, alloc, pass, now, sender, ack(number), &[]),
        Tick(now, word) => Ok(pass.tick(rt, alloc, at(now), [word; 8])?.place),
        Ask(now) => Ok(pass.ask(rt, alloc, at(now), &letter(b'c'))?.place),
        Health(now) => Ok(pass.health(rt, alloc, at(now))?.place),
        Pull(now) => Ok(pass.pull(rt, alloc, at(now), local(7001))?.place),
        Leave(now) => Ok(pass.leave(rt, alloc, at(now), [0; 8])?.place),
        Rotate => pass.rotate(rt, alloc),
        RotateInto => handed_out(rt, alloc, pass),
        Version => pass.version(),
        Members => Ok(pass.members(alloc)?.len() as u64),
    }
}

/// Whether a call gives what it should. If memory is refused, nothing may have changed, and it is made once more.
fn goes<A: AgentName, R: Wait>(rt: &R, alloc: Global, pass: &mut Pass<'_, A>, row: &Row) -> bool {
    let (call, want) = *row;
    let before = pass.version();
    match make(rt, alloc, pass, call) {
        Err(Refusal::NoMemory) => {
            pass.version() == before && make(rt, alloc, pass, call) == want
        }
        given => given == want,
    }
}

/// Makes the calls with the only pass of an agent. Returns what the pass leaves, if each call gave what it should. The
/// error is that no passes were given out, or that a call went otherwise.
fn spent<A: AgentName, R: Wait>(
    rt: &R,
    alloc: Global,
    agent: &mut Agent<A>,
    rows: &[Row],
) -> Result<Spent<A>, Refusal> {
    let Ok(passes) = agent.passes(alloc) else {
        return Err(Refusal::NoMemory);
    };
    let mut passes = passes;
    let Some(pass) = passes.pop() else {
        return Err(Refusal::NoPlace);
    };
    let mut pass = pass;
    for row in rows {
        if !goes(rt, alloc, &mut pass, row) {
            return Err(Refusal::NoPlace);
        }
    }
    Ok(pass.finish())
}

/// The configuration of b with this limit on its history. It knows so many of c, d and e.
fn config(limit: u64, others: u8) -> Config {
    let mut config = Config::new(letter(b'b'), local(7000));
    config.history_limit = limit;
    for index in 0..others.min(3) {
        if !config.seeds.is_full() {
            config.seeds.push(Seed {
                name: letter(b'c' + index),
                addr: local(7003),
            });
        }
    }
    config
}

/// Abandons an agent that wasn't closed.
fn abandon<A: AgentName, R: Wait>(rt: &R, unclosed: Unclosed<A>) -> Refusal {
    let Unclosed {
        fault: _,
        agent,
        spents: _,
    } = unclosed;
    agent.abandon(rt);
    Refusal::NoPlace
}

/// Opens an agent of one place at 0, makes the calls, and closes it. The error is that memory for the agent was
/// refused, or that something went otherwise than it should, such as a second pass.
fn closed<A: AgentName, R: Wait>(
    rt: &R,
    alloc: Global,
    book: UnnamedBook,
    places: usize,
    case: &Case,
) -> Result<Closed, Refusal>
    requires book { book.seen.book ≡ A.book }
    requires places { (places ≡ A.places) × (places ≡ 1) }
{
    let config = config(case.limit, case.others);
    let Ok(()) = config.check() else {
        return Err(Refusal::NoPlace);
    };
    let Ok(room) = Vec::with_capacity(alloc, 1) else {
        return Err(Refusal::NoMemory);
    };
    let mut spents = room;
    let mut agent = Agent::<A>::open(rt, alloc, book, at(0), config, places)?;
    let left = match spent(rt, alloc, &mut agent, case.rows) {
        Err(Refusal::NoMemory) => spent(rt, alloc, &mut agent, case.rows),
        left => left,
    };
    if let Ok(spent) = left {
        let _refused = spents.push(spent).is_err();
    }
    let has_more = match agent.passes(alloc) {
        Ok(passes) => !passes.is_empty(),
        Err(_) => false,
    };
    match agent.close(rt, spents) {
        Ok(closed) if !has_more => Ok(closed),
        Ok(_) => Err(Refusal::NoPlace),
        Err(unclosed) => Err(abandon(rt, unclosed)),
    }
}

/// An agent of b and its calls.
#[derive(Clone, Copy)]
struct Case {
    /// The limit on its history, and how many others it knows.
    limit: u64,
    others: u8,
    rows: &'static [Row],
}

/// What is left of an agent whose calls gave what they should.
fn told<R: Wait>(rt: &R, alloc: Global, case: &Case) -> Result<Closed, Refusal> {
    closed::<Brand, R>(rt, alloc, UnnamedBook::new(), 1, case)
}

/// The same. If memory for the agent is refused, it is opened once more.
fn told_at_last<R: Wait>(rt: &R, alloc: Global, case: &Case) -> Result<Closed, Refusal> {
    match told(rt, alloc, case) {
        Err(Refusal::NoMemory) => told(rt, alloc, case),
        other => other,
    }
}

/// Each call has its place, and is published then. After them c is known, a round has begun, and b has left.
const EACH_CALL: Case = Case {
    limit: 20_000,
    others: 0,
    rows: &[
        (Ping(0), Ok(1)),
        (Version, Ok(2)),
        (Tick(1, 0), Ok(2)),
        (Version, Ok(3)),
        (Ask(2), Ok(3)),
        (Version, Ok(4)),
        (Health(3), Ok(4)),
        (Version, Ok(5)),
        (Pull(4), Ok(5)),
        (Version, Ok(6)),
        (Leave(5), Ok(6)),
        (Version, Ok(7)),
        (Members, Ok(2)),
    ],
};

/// A history that is filled and rotated.
const FILLS_IT: Case = Case {
    limit: 3,
    others: 0,
    rows: &[
        (Health(1), Ok(1)),
        (Health(2), Ok(2)),
        (Health(3), Err(Refusal::HistoryFull(3))),
        (Rotate, Ok(3)),
        (Health(3), Ok(3)),
        (Version, Ok(4)),
        (Members, Ok(1)),
    ],
};

/// The same, where what is cut off is handed out.
const HANDS_OUT: Case = Case {
    limit: 3,
    others: 0,
    rows: &[
        (Health(1), Ok(1)),
        (Health(2), Ok(2)),
        (Health(3), Err(Refusal::HistoryFull(3))),
        (RotateInto, Ok(3)),
        (Health(3), Ok(3)),
        (RotateInto, Ok(1)),
        (RotateInto, Ok(0)),
        (Health(4), Ok(4)),
        (Version, Ok(5)),
        (Members, Ok(1)),
    ],
};

/// How many entries there are in the end of a case, and how many of them were cut off.
fn counted<R: Wait>(rt: &R, alloc: Global, case: &Case) -> Option<(u64, u64)> {
    let closed = told_at_last(rt, alloc, case).ok()?;
    Some((closed.count(), closed.base()))
}

/// A call that was refused memory has changed nothing.
#[test]
fn goes_on_after_refused_memory(rt: HostRuntime) {
    assert_eq!(rt; counted(&rt, rt.alloc(), &EACH_CALL), Some((7, 0)));
}

/// A rotation that was refused memory has cut nothing off, and the next one cuts off all that there is.
#[test]
fn rotates_after_refused_memory(rt: HostRuntime) {
    assert_eq!(rt; counted(&rt, rt.alloc(), &FILLS_IT), Some((4, 3)));
}

/// A rotation that was refused memory has handed nothing out, and the next one hands out all that there is.
#[test]
fn hands_out_after_refused_memory(rt: HostRuntime) {
    assert_eq!(rt; counted(&rt, rt.alloc(), &HANDS_OUT), Some((5, 4)));
}

/// Three rounds, which start at the positions 1, 4 and 7. The ticks between end a round. Each word picks one of those
/// that its round hasn't chosen yet, in the order of names.
const ROUNDS: Case = Case {
    limit: 20_000,
    others: 3,
    rows: &[
        (Tick(0, 4), Ok(1)),
        (Ack(10, b'd', 1), Ok(2)),
        (Tick(1000, 0), Ok(3)),
        (Tick(1000, 0), Ok(4)),
        (Ack(1010, b'c', 2), Ok(5)),
        (Tick(2000, 0), Ok(6)),
        (Tick(2000, 5), Ok(7)),
    ],
};

/// The same, with a rotation after four calls.
const ROUNDS_CUT: Case = Case {
    limit: 20_000,
    others: 3,
    rows: &[
        (Tick(0, 4), Ok(1)),
        (Ack(10, b'd', 1), Ok(2)),
        (Tick(1000, 0), Ok(3)),
        (Tick(1000, 0), Ok(4)),
        (Rotate, Ok(5)),
        (Ack(1010, b'c', 2), Ok(5)),
        (Tick(2000, 0), Ok(6)),
        (Tick(2000, 5), Ok(7)),
    ],
};

/// Whether the rounds from one position up to 8 chose the members named by these letters. None if memory was refused.
fn chose(alloc: Global, closed: &Closed, from: u64, letters: &[u8]) -> Option<bool> {
    let names = closed.choices(alloc, from, 8).ok()?;
    let mut same = names.len() == letters.len();
    for (name, byte) in names.iter().zip(letters) {
        same = same && *name == letter(*byte);
    }
    Some(same)
}

/// Choices that were refused memory leave the history as it is: they are told the next time.
#[test]
fn tells_choices_after_refused_memory(rt: HostRuntime) {
    for (case, from, letters) in [(ROUNDS, 0, b"dce".as_slice()), (ROUNDS_CUT, 4, b"e")] {
        let alloc = rt.alloc();
        let told = told_at_last(&rt, alloc, &case);
        let met = match &told {
            Ok(closed) => match chose(alloc, closed, from, letters) {
                None => chose(alloc, closed, from, letters),
                met => met,
            },
            Err(_) => None,
        };
        assert!(rt; met == Some(true), "from {from}");
    }
}
