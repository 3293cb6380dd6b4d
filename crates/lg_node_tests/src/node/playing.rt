//! What loops of a node the passes of an agent run, and what is seen of them.
ghost use Rattle.std.specs.Prelude.{◌≡◌, ◌<◌, ◌≤◌};

use super::alone::{LoopSeen, Run, run_alone};
use super::both::{BothRun, BothSeen, run_both};
use super::finding::{Found, Search, run_search};
use super::keyed::{KeyedSeen, run_keyed};
use super::leaving::{LeavingSeen, run_leaving};
use super::rotating::{StreamSeen, run_stream};
use lg_agent::{Agent, AgentName, Refusal, Spent};
use lg_agent_testing::{Case, Left, Outcome, room};
use lg_view::UnnamedBook;
use std::alloc::Global;
use std::fs::Files;
use std::marker::Brand;
use std::rt;
use std::sync::Wait;
use std::thread::Threads;

/// What is done with the passes of an agent.
#[derive(Clone, Copy)]
pub enum Play {
    /// The last pass runs one loop of a node.
    Loop(Run),
    /// The second pass runs a ticking loop, and the first looks at this member's record then.
    Leave(Run),
    /// Four passes run both loops of a node, and a watcher if it is followed. A call of each link may fail.
    Both(BothRun),
    /// One loop of a node after the other: many datagrams, and then many ticks.
    Stream,
    /// The last pass runs a receiving loop over a keyed link.
    Keyed,
    /// The last pass runs a ticking loop that finds its group.
    Find(Search),
}

/// What was seen while an agent was open.
#[derive(Drop)]
pub enum Shown {
    Loop(LoopSeen),
    Leaving(LeavingSeen),
    Both(BothSeen),
    Stream(StreamSeen),
    Keyed(KeyedSeen),
    Found(Found),
}

/// Plays all passes of an agent, if they are given out.
fn run<A, R>(
    rt: &R,
    alloc: Global,
    agent: &mut Agent<A>,
    spents: Vec<Spent<A>>,
    play: Play,
) -> Left<A, Shown>
where
    A: AgentName + Send + Sync,
    R: Threads + Wait + Files + rt::Clock + AllocGlobal + Clone + Sync + Drop,
    R::File: Send,
    R::Dir: Send,
{
    let Ok(passes) = agent.passes(alloc) else {
        return Left::nothing(spents);
    };
    match play {
        Play::Loop(run) => run_alone(rt, alloc, passes, run, spents),
        Play::Leave(run) => run_leaving(rt, alloc, passes, run, spents),
        Play::Both(both) => run_both(rt, alloc, passes, both, spents),
        Play::Stream => run_stream(rt, alloc, passes, spents),
        Play::Keyed => run_keyed(rt, alloc, passes, spents),
        Play::Find(search) => run_search(rt, alloc, passes, search, spents),
    }
}

/// Opens an agent, plays it, and closes it.
fn play_case<A, R>(
    rt: &R,
    alloc: Global,
    book: UnnamedBook,
    places: usize,
    case: Case<Play>,
) -> Result<Outcome<Shown>, Refusal>
where
    A: AgentName + Send + Sync,
    R: Threads + Wait + Files + rt::Clock + AllocGlobal + Clone + Sync + Drop,
    R::File: Send,
    R::Dir: Send,
    requires book { book.seen.book ≡ A.book }
    requires places { (places ≡ A.places) × (0 < places) × (places ≤ 32) }
{
    let mut agent = case.open::<A, R>(rt, alloc, book, places)?;
    let left = run(rt, alloc, &mut agent, room(alloc, places), case.play);
    Ok(case.close(rt, alloc, agent, left))
}

/// What a case tells. The error is that the opening was refused. A number of places that no agent has gives `NoPlace`.
pub fn told<R>(rt: &R, alloc: Global, case: Case<Play>) -> Result<Outcome<Shown>, Refusal>
where
    R: Threads + Wait + Files + rt::Clock + AllocGlobal + Clone + Sync + Drop,
    R::File: Send,
    R::Dir: Send,
{
    let places = case.places;
    if places == 0 || places > 32 {
        return Err(Refusal::NoPlace);
    }
    play_case::<Brand, R>(rt, alloc, UnnamedBook::new(), places, case)
}
