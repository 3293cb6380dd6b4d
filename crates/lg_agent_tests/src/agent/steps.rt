//! Calls and looks of one pass or of two, one after the other, each with what it should give.
use super::calls::{Call, Seen, step};
use super::leaving::{LeftBy, left_by};
use super::wanted::Want;
use crate::playing::Shown;
use lg_agent::{AgentName, Pass, Spent};
use lg_agent_testing::Left;
use std::alloc::Global;
use std::sync::Wait;
use std::thread::{Threads, join};

/// The index of a pass, what it does, and what that should give.
pub type Row = (usize, Call, Want);

/// What a step of a pass, counted from 0, gives. A step of the second pass is made in another thread, if one can be
/// started.
fn step_of<A: AgentName + Send + Sync, R: Threads + Wait + Sync>(
    rt: &R,
    alloc: Global,
    first: &mut Pass<'_, A>,
    second: &mut Option<Pass<'_, A>>,
    who: usize,
    call: Call,
) -> Seen {
    match (who, second) {
        (0, _) => step(rt, alloc, first, call),
        (1, Some(pass)) => join(rt, || step(rt, alloc, pass, call), || ()).0,
        _ => Seen::Wrong,
    }
}

/// Makes the calls and looks in order, up to the first that gives something else than it should. Returns its index.
fn first_wrong<A: AgentName + Send + Sync, R: Threads + Wait + Sync>(
    rt: &R,
    alloc: Global,
    first: &mut Pass<'_, A>,
    second: &mut Option<Pass<'_, A>>,
    rows: &[Row],
) -> Option<usize> {
    for (index, (who, call, want)) in rows.iter().enumerate() {
        let seen = step_of(rt, alloc, first, second, *who, *call);
        if !want.is(&seen) {
            return Some(index);
        }
    }
    None
}

/// What the steps of a case gave, and what its passes left.
#[derive(Clone, Copy)]
pub struct Played {
    /// The index of the first step that gave something else than it should. A pass that has another seat than its
    /// own counts as a step behind the last one.
    pub wrong: Option<usize>,
    /// What the two passes left.
    pub left: [LeftBy; 2],
}

impl Played {
    /// What these steps gave, of this count, and what the passes left.
    fn of(wrong: Option<usize>, count: usize, left: [LeftBy; 2]) -> Played {
        let wrong = if left[0].is_of(1) && left[1].is_of(2) {
            wrong
        } else {
            Some(count)
        };
        Played { wrong, left }
    }
}

/// The first pass, and the second one if there are two.
fn first_and_second<'a, A: AgentName>(
    passes: Vec<Pass<'a, A>>,
) -> Option<(Pass<'a, A>, Option<Pass<'a, A>>)> {
    let mut passes = passes;
    let second = if passes.len() == 2 {
        passes.pop()
    } else {
        None
    };
    let first = passes.pop()?;
    Some((first, second))
}

/// Hands in what a pass left. Returns what that is.
fn hand_in<A: AgentName>(spent: Spent<A>, spents: &mut Vec<Spent<A>>) -> LeftBy {
    let left = left_by(&spent);
    let _refused = spents.push(spent).is_err();
    left
}

/// Plays the rows with an agent of two places or of one, and finishes the passes, the last one first. Each pass has
/// to have its seat.
pub fn steps<A: AgentName + Send + Sync, R: Threads + Wait + Sync>(
    rt: &R,
    alloc: Global,
    passes: Vec<Pass<'_, A>>,
    rows: &[Row],
    spents: Vec<Spent<A>>,
) -> Left<A, Shown> {
    let Some((first, second)) = first_and_second(passes) else {
        return Left::nothing(spents);
    };
    let (mut first, mut second, mut spents) = (first, second, spents);
    let wrong = first_wrong(rt, alloc, &mut first, &mut second, rows);
    let two = match second {
        Some(pass) => hand_in(pass.finish(), &mut spents),
        None => LeftBy::nothing(2),
    };
    let one = hand_in(first.finish(), &mut spents);
    let seen = Some(Shown::Steps(Played::of(wrong, rows.len(), [one, two])));
    Left { spents, seen }
}
