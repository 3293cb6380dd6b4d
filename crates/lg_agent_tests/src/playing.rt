//! What is done with the passes of an agent, and what is seen of it.
ghost use Rattle.std.specs.Prelude.{◌≡◌, ◌<◌, ◌≤◌};

use crate::agent::forms::{After, Form, run_form};
use crate::agent::many::{Tally, Task, work_all};
use crate::agent::steps::{Played, Row, steps};
use lg_agent::{Agent, AgentName, Refusal, Spent};
use lg_agent_testing::{Case, Left, Outcome, room};
use lg_view::UnnamedBook;
use std::alloc::Global;
use std::marker::Brand;
use std::rt;
use std::sync::Wait;
use std::thread::Threads;

/// What is done with the passes of an agent.
#[derive(Clone, Copy)]
pub enum Play<'a> {
    /// Calls and looks, one after the other.
    Steps(&'a [Row]),
    /// Each pass has a task, in a thread of its own.
    Threads(&'a [Task]),
    /// Calls of one form.
    Form(Form),
}

/// What was seen while an agent was open.
#[derive(Drop)]
pub enum Shown {
    Steps(Played),
    /// What the calls of the threads came to.
    Threads(Tally),
    /// What the caller has after each call.
    Form(Vec<After>),
}

/// Plays all passes of an agent, if they are given out.
fn run<A, R>(
    rt: &R,
    alloc: Global,
    agent: &mut Agent<A>,
    spents: Vec<Spent<A>>,
    play: Play<'_>,
) -> Left<A, Shown>
where
    A: AgentName + Send + Sync,
    R: Threads + Wait + rt::Clock + Sync,
{
    let Ok(passes) = agent.passes(alloc) else {
        return Left::nothing(spents);
    };
    match play {
        Play::Steps(rows) => steps(rt, alloc, passes, rows, spents),
        Play::Threads(tasks) => work_all(rt, alloc, passes, tasks, spents),
        Play::Form(form) => run_form(rt, alloc, passes, form, spents),
    }
}

/// Opens an agent, plays it, and closes it.
fn play_case<A, R>(
    rt: &R,
    alloc: Global,
    book: UnnamedBook,
    places: usize,
    case: Case<Play<'_>>,
) -> Result<Outcome<Shown>, Refusal>
where
    A: AgentName + Send + Sync,
    R: Threads + Wait + rt::Clock + Sync,
    requires book { book.seen.book ≡ A.book }
    requires places { (places ≡ A.places) × (0 < places) × (places ≤ 32) }
{
    let mut agent = case.open::<A, R>(rt, alloc, book, places)?;
    let left = run(rt, alloc, &mut agent, room(alloc, places), case.play);
    Ok(case.close(rt, alloc, agent, left))
}

/// What a case tells. The error is that the opening was refused. A number of places that no agent has gives `NoPlace`.
pub fn told<R>(rt: &R, alloc: Global, case: Case<Play<'_>>) -> Result<Outcome<Shown>, Refusal>
where
    R: Threads + Wait + rt::Clock + Sync,
{
    let places = case.places;
    if places == 0 || places > 32 {
        return Err(Refusal::NoPlace);
    }
    play_case::<Brand, R>(rt, alloc, UnnamedBook::new(), places, case)
}
