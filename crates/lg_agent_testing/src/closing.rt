//! How an agent ends.
use lg_agent::{Agent, AgentName, CloseFault, Closed, Spent, Unclosed};
use lg_detector::{Detector, Reply};
use lg_detector_testing::is_same_reply;
use std::alloc::Global;
use std::sync::Wait;

/// How an agent ended.
#[derive(Clone, Copy, Debug, PartialEq, Eq)]
pub struct Ending {
    /// Why it wasn't closed at first, if it wasn't.
    pub fault: Option<CloseFault>,
    /// How many entries there were when it was closed, if it was.
    pub entries: Option<u64>,
    /// How many of them were cut off.
    pub base: Option<u64>,
    /// Up to which entry a detector gave the same replies as the history. The detector is a fresh one, or one that is
    /// resumed from the summary of the entries that were cut off.
    pub replayed: Option<u64>,
}

impl Ending {
    /// An agent that was closed with this many entries, none of which was cut off. A first closing may have been
    /// refused.
    pub fn closed(fault: Option<CloseFault>, entries: u64) -> Ending {
        Ending {
            fault,
            entries: Some(entries),
            base: Some(0),
            replayed: Some(entries),
        }
    }

    /// An agent that wasn't closed, for this reason.
    fn unclosed(fault: CloseFault) -> Ending {
        Ending {
            fault: Some(fault),
            entries: None,
            base: None,
            replayed: None,
        }
    }

    /// An agent that was closed with this history, perhaps after a first closing was refused.
    fn of(alloc: Global, fault: Option<CloseFault>, closed: &Closed) -> Ending {
        Ending {
            fault,
            entries: Some(closed.count()),
            base: Some(closed.base()),
            replayed: replayed(alloc, closed),
        }
    }
}

/// A detector after the entries that were cut off.
fn resumed(alloc: Global, closed: &Closed) -> Option<Detector> {
    match closed.summary() {
        Some(summary) => Detector::resume(alloc, summary).ok(),
        None => Detector::blank(alloc).ok(),
    }
}

/// Up to which entry a detector gives the replies of the history to its events. The detector begins after the entries
/// that were cut off.
fn replayed(alloc: Global, closed: &Closed) -> Option<u64> {
    let mut detector = resumed(alloc, closed)?;
    let mut reply = Reply::default();
    let mut same = closed.base();
    for entry in closed.history() {
        let event = entry.event();
        if !detector.accepts(&event) {
            break;
        }
        detector.step(&event, &mut reply);
        if !is_same_reply(&reply, &entry.reply()) {
            break;
        }
        same = same.wrapping_add(1);
    }
    Some(same)
}

/// Closes an agent. What its contract says isn't carried further.
pub fn close<A: AgentName, R: Wait>(
    rt: &R,
    agent: Agent<A>,
    spents: Vec<Spent<A>>,
) -> Result<Closed, Unclosed<A>> {
    agent.close(rt, spents)
}

/// Abandons an agent that wasn't closed. Returns why it wasn't.
pub fn abandon<A: AgentName, R: Wait>(rt: &R, unclosed: Unclosed<A>) -> CloseFault {
    let Unclosed {
        fault,
        agent,
        spents: _,
    } = unclosed;
    agent.abandon(rt);
    fault
}

/// Closes an agent. If what the first pass left is to come later, it is kept back, and a second closing gets it.
pub(crate) fn end<A: AgentName, R: Wait>(
    rt: &R,
    alloc: Global,
    agent: Agent<A>,
    spents: Vec<Spent<A>>,
    at_once: bool,
) -> Ending {
    let mut spents = spents;
    let later = if at_once { None } else { spents.pop() };
    match close(rt, agent, spents) {
        Ok(closed) => Ending::of(alloc, None, &closed),
        Err(unclosed) => end_again(rt, alloc, unclosed, later),
    }
}

/// Closes an agent again, with one more of what the passes left, if there is one.
fn end_again<A: AgentName, R: Wait>(
    rt: &R,
    alloc: Global,
    unclosed: Unclosed<A>,
    later: Option<Spent<A>>,
) -> Ending {
    let Unclosed {
        fault,
        agent,
        spents,
    } = unclosed;
    let mut spents = spents;
    if let Some(spent) = later {
        let _refused = spents.push(spent).is_err();
    }
    match close(rt, agent, spents) {
        Ok(closed) => Ending::of(alloc, Some(fault), &closed),
        Err(unclosed) => Ending::unclosed(abandon(rt, unclosed)),
    }
}
