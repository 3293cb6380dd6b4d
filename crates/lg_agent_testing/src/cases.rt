//! An agent that is opened, played and closed, and what is told of it. How its passes are played is each test's own.
ghost use Rattle.std.specs.Prelude.{◌≡◌, ◌<◌, ◌≤◌};

use crate::closing::{Ending, end};
use crate::opening::{config_from, open};
use crate::passes::Left;
use lg_agent::{Agent, AgentName, Refusal};
use lg_view::UnnamedBook;
use std::alloc::Global;
use std::sync::Wait;

/// An agent of b at 127.0.0.1:7000, and what is done with it.
#[derive(Clone, Copy)]
pub struct Case<P> {
    /// How many places it has, 1 to 32.
    pub places: usize,
    /// The limit on its history.
    pub limit: u64,
    /// How many of c, d and e it knows.
    pub others: u8,
    /// The port of c. Those of d and e follow.
    pub first_port: u16,
    /// The version of what it sends, 1 to 3.
    pub wire: u64,
    /// Whether everything is handed in at the first closing. If not, what the first pass left comes with the second.
    pub at_once: bool,
    /// What is done with its passes.
    pub play: P,
}

impl<P: Copy> Case<P> {
    /// An agent that knows nobody else, sends in version 1 and is closed at once, with room for 20,000 entries.
    pub fn new(places: usize, play: P) -> Case<P> {
        Case {
            places,
            limit: 20_000,
            others: 0,
            first_port: 7003,
            wire: 1,
            at_once: true,
            play,
        }
    }

    /// Opens the agent.
    pub fn open<A: AgentName, R: Wait>(
        self,
        rt: &R,
        alloc: Global,
        book: UnnamedBook,
        places: usize,
    ) -> Result<Agent<A>, Refusal>
        requires book { book.seen.book ≡ A.book }
        requires places { (places ≡ A.places) × (0 < places) × (places ≤ 32) }
    {
        let mut config = config_from(self.limit, self.others, self.first_port);
        config.wire = self.wire;
        open::<A, R>(rt, alloc, book, config, places)
    }

    /// Closes the agent, after its passes left this.
    pub fn close<A: AgentName, R: Wait, S: Drop>(
        self,
        rt: &R,
        alloc: Global,
        agent: Agent<A>,
        left: Left<A, S>,
    ) -> Outcome<S> {
        let mut agent = agent;
        let Left { spents, seen } = left;
        let later = match agent.passes(alloc) {
            Ok(passes) => passes.len(),
            Err(_) => 0,
        };
        Outcome {
            seen,
            later,
            ending: end(rt, alloc, agent, spents, self.at_once),
        }
    }
}

/// What a case tells.
#[derive(Drop)]
pub struct Outcome<S> {
    /// What was seen while the agent was open, if the passes were given out.
    pub seen: Option<S>,
    /// How many passes were given out after all had been.
    pub later: usize,
    pub ending: Ending,
}
