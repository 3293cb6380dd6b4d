//! What the passes of an agent leave.
use lg_agent::{AgentName, Pass, Spent};
use std::alloc::Global;

/// What the passes left, and what was seen.
#[derive(Drop)]
pub struct Left<A: AgentName, S> {
    pub spents: Vec<Spent<A>>,
    /// What was seen, unless the passes weren't given out.
    pub seen: Option<S>,
}

impl<A: AgentName, S: Drop> Left<A, S> {
    /// What these passes left, and no more. Nothing was seen.
    pub fn nothing(spents: Vec<Spent<A>>) -> Left<A, S> {
        Left { spents, seen: None }
    }

    /// What was seen, and one more of what the passes left.
    pub fn with(spents: Vec<Spent<A>>, spent: Spent<A>, seen: S) -> Left<A, S> {
        let mut spents = spents;
        let _refused = spents.push(spent).is_err();
        let seen = Some(seen);
        Left { spents, seen }
    }

    /// The same, with two more.
    pub fn with_both(spents: Vec<Spent<A>>, both: (Spent<A>, Spent<A>), seen: S) -> Left<A, S> {
        let (one, two) = both;
        let mut spents = spents;
        let _refused = spents.push(one).is_err();
        Left::with(spents, two, seen)
    }
}

/// A list with room for what this many passes leave. If memory is refused, it is asked for once more.
pub fn room<A: AgentName>(alloc: Global, places: usize) -> Vec<Spent<A>> {
    match Vec::with_capacity(alloc, places) {
        Ok(list) => list,
        Err(_) => Vec::with_capacity(alloc, places).unwrap_or(Vec::new(alloc)),
    }
}

/// The last pass.
pub fn last_pass<'a, A: AgentName>(passes: Vec<Pass<'a, A>>) -> Option<Pass<'a, A>> {
    let mut passes = passes;
    passes.pop()
}

/// The first two passes of an agent of two places.
pub fn both_passes<'a, A: AgentName>(
    passes: Vec<Pass<'a, A>>,
) -> Option<(Pass<'a, A>, Pass<'a, A>)> {
    let mut passes = passes;
    let second = passes.pop()?;
    let first = passes.pop()?;
    Some((first, second))
}
