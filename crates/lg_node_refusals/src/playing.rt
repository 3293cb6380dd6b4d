//! An agent of b at 127.0.0.1:7000, whose passes run loops of a node.
ghost use Rattle.std.specs.Prelude.{◌≡◌, ◌<◌, ◌≤◌};

use crate::loops::{Alone, AloneSeen, BothSeen, run_alone, run_both};
use lg_agent::{Agent, AgentName, Refusal, Spent, Unclosed};
use lg_testing::{at, letter, local};
use lg_timing::{Config, Seed};
use lg_view::UnnamedBook;
use std::alloc::Global;
use std::fs::Files;
use std::marker::Brand;
use std::rt;
use std::sync::Wait;
use std::thread::Threads;

/// What is done with the passes of an agent.
#[derive(Clone, Copy, Debug)]
pub enum Play {
    /// The only pass runs one loop.
    Alone(Alone),
    /// Four passes run both loops, and a watcher if there is to be one.
    Both(bool),
}

/// What was seen while an agent was open.
#[derive(Clone, Copy)]
pub enum Shown {
    Alone(AloneSeen),
    Both(BothSeen),
}

/// What was seen, how many entries there were in the end, and how many of them were cut off.
#[derive(Clone, Copy)]
pub struct Outcome {
    pub shown: Shown,
    pub entries: u64,
    pub base: u64,
}

/// An agent, and what is done with its passes.
#[derive(Clone, Copy, Debug)]
pub struct Case {
    /// The limit on its history.
    pub limit: u64,
    /// Whether it knows c, at port 7003.
    pub knows_c: bool,
    /// The version of what it sends.
    pub wire: u64,
    pub play: Play,
}

/// Adds what a pass left to a list that has room for it.
fn hand_in<A: AgentName>(spent: Spent<A>, spents: &mut Vec<Spent<A>>) {
    let _refused = spents.push(spent).is_err();
}

/// Plays all passes of an agent. Nothing is seen if memory for them is refused.
fn run<A, R>(
    rt: &R,
    alloc: Global,
    agent: &mut Agent<A>,
    spents: &mut Vec<Spent<A>>,
    play: Play,
) -> Option<Shown>
where
    A: AgentName + Send + Sync,
    R: Threads + Wait + Files + rt::Clock + AllocGlobal + Clone + Sync + Drop,
    R::File: Send,
    R::Dir: Send,
{
    let mut passes = agent.passes(alloc).ok()?;
    match play {
        Play::Alone(alone) => {
            let (seen, spent) = run_alone(rt, alloc, passes.pop()?, alone);
            hand_in(spent, spents);
            Some(Shown::Alone(seen))
        }
        Play::Both(follow) => {
            let (seen, [watcher, status, receiver, ticker]) = run_both(rt, alloc, passes, follow)?;
            hand_in(watcher, spents);
            hand_in(status, spents);
            hand_in(receiver, spents);
            hand_in(ticker, spents);
            Some(Shown::Both(seen))
        }
    }
}

/// The configuration of a case.
fn config_of(case: &Case) -> Config {
    let mut config = Config::new(letter(b'b'), local(7000));
    config.history_limit = case.limit;
    config.wire = case.wire;
    if case.knows_c {
        let (name, addr) = (letter(b'c'), local(7003));
        config.seeds.push(Seed { name, addr });
    }
    config
}

/// Abandons an agent that wasn't closed.
fn abandon<A: AgentName, R: Wait>(rt: &R, unclosed: Unclosed<A>) -> Refusal {
    let Unclosed {
        fault: _,
        agent,
        spents: _,
    } = unclosed;
    agent.abandon(rt);
    Refusal::NoPlace
}

/// Opens an agent, plays it, and closes it. If memory for its passes is refused, it is played once more. The error is
/// that memory for the agent was refused, or that something went otherwise than it should.
fn play_case<A, R>(
    rt: &R,
    alloc: Global,
    book: UnnamedBook,
    places: usize,
    case: &Case,
) -> Result<Outcome, Refusal>
where
    A: AgentName + Send + Sync,
    R: Threads + Wait + Files + rt::Clock + AllocGlobal + Clone + Sync + Drop,
    R::File: Send,
    R::Dir: Send,
    requires book { book.seen.book ≡ A.book }
    requires places { (places ≡ A.places) × (0 < places) × (places ≤ 32) }
{
    let config = config_of(case);
    let Ok(()) = config.check() else {
        return Err(Refusal::NoPlace);
    };
    let Ok(room) = Vec::with_capacity(alloc, places) else {
        return Err(Refusal::NoMemory);
    };
    let mut spents = room;
    let mut agent = Agent::<A>::open(rt, alloc, book, at(0), config, places)?;
    let shown = match run(rt, alloc, &mut agent, &mut spents, case.play) {
        None => run(rt, alloc, &mut agent, &mut spents, case.play),
        shown => shown,
    };
    match (agent.close(rt, spents), shown) {
        (Ok(closed), Some(shown)) => Ok(Outcome {
            shown,
            entries: closed.count(),
            base: closed.base(),
        }),
        (Ok(_), None) => Err(Refusal::NoPlace),
        (Err(unclosed), _) => Err(abandon(rt, unclosed)),
    }
}

/// What comes of a case.
fn told<R>(rt: &R, alloc: Global, case: &Case) -> Result<Outcome, Refusal>
where
    R: Threads + Wait + Files + rt::Clock + AllocGlobal + Clone + Sync + Drop,
    R::File: Send,
    R::Dir: Send,
{
    let places = match case.play {
        Play::Alone(_) => 1,
        Play::Both(_) => 4,
    };
    play_case::<Brand, R>(rt, alloc, UnnamedBook::new(), places, case)
}

/// The same. If memory for the agent was refused, it is tried once more.
pub fn told_at_last<R>(rt: &R, alloc: Global, case: &Case) -> Result<Outcome, Refusal>
where
    R: Threads + Wait + Files + rt::Clock + AllocGlobal + Clone + Sync + Drop,
    R::File: Send,
    R::Dir: Send,
{
    match told(rt, alloc, case) {
        Err(Refusal::NoMemory) => told(rt, alloc, case),
        other => other,
    }
}
