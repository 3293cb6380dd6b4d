//! The end of a node, after its threads: it reads the members and closes its agent.
//!
//! Defined in: `specs/Meaning/Nodes.antt`, `lg_agent/specs/Meaning/Closing.antt`.
//! Tested in: `lg_node_tests/src/node/asking.rt`, `cases/nodes`.
ghost use Rattle.std.specs.Prelude.{◌≡◌, ◌+◌, ◌^◌, ◌<◌, ◌≤◌, ◌⊎◌, ◌∷◌, [], MatchResult};
ghost use Rattle.std.specs.Vec.{vec_capacity};
ghost use Rattle.lg_detector.specs.Meaning.Step.{view_after};
ghost use Rattle.lg_agent.specs.declared.refusal.Refusal.TheVariants.{NoMemory, NoView};
ghost use Rattle.lg_agent.specs.Meaning.Calls.{IsLook};
ghost use Rattle.lg_agent.specs.Meaning.Closing.{IsClosed, IsRefusedClosing};

use crate::following::WatcherLeft;
use crate::node::NodeEnd;
use crate::start::{Commons, PLACES};
use crate::threads::Joined;
use lg_agent::{Agent, AgentName, CloseFault, Closed, Pass, Refusal, Spent, Unclosed};
use lg_follow::Watched;
use lg_rules::Record;
use lg_status_server::Served;
use lg_turns::{Ended, LoopEnd};
use std::alloc::Global;
use std::rt;
use std::sync::Wait;

/// What the passes of a node leave, its ends, and the members.
#[derive(Drop)]
pub(crate) struct Left<A: AgentName> {
    pub(crate) received: LoopEnd,
    pub(crate) ticked: LoopEnd,
    pub(crate) members: Result<Vec<Record>, Refusal>,
    pub(crate) watched: Option<Watched>,
    pub(crate) served: Option<Served>,
    pub(crate) receiver: Spent<A>,
    pub(crate) ticker: Spent<A>,
    pub(crate) reader: Spent<A>,
    pub(crate) status: Spent<A>,
    pub(crate) recorder: Spent<A>,
}

/// What the passes of a node leave, with its ends, after its threads. The members are read by the watcher's pass. The
/// packets to the seeds that weren't sent count among the ticking loop's. The writer and the stream of faults are given
/// back too.
pub(crate) fn leave<'p, 'w, 'f, A: AgentName, L: Drop, W, F>(
    alloc: Global,
    joined: Joined<'p, 'f, L, A, WatcherLeft<'_, 'w, A, W>, F, Pass<'p, A>>,
    unsent: u64,
) -> (Left<A>, (&'w mut W, &'f mut F))
    ensures received { result.0.received ≡ joined.entry.1.1.0.0.end }
    ensures ticked { record result.0.ticked { unsent = joined.entry.1.1.0.1.end.unsent } ≡ joined.entry.1.1.0.1.end }
    ensures counted { joined.entry.1.1.0.1.end.unsent + unsent < 2 ^ 64
        → result.0.ticked.unsent ≡ joined.entry.1.1.0.1.end.unsent + unsent }
    ensures passes { (result.0.receiver ≡ joined.entry.1.1.0.0.spent) × (result.0.ticker ≡ joined.entry.1.1.0.1.spent)
        × (result.0.status ≡ joined.entry.1.0.0) × (result.0.recorder ≡ joined.entry.1.1.1) }
    ensures watched { result.0.watched ≡ joined.entry.0.1.1 }
    ensures served { result.0.served ≡ joined.entry.1.0.1.1 }
    ensures read { MatchResult result.0.members
        (λ records. (records.items ≡ view_after result.0.reader.seen) × IsLook joined.entry.0.0 result.0.reader)
        (λ r. ((r ≡ NoView) ⊎ (r ≡ NoMemory)) × (result.0.reader ≡ joined.entry.0.0)) }
    ensures writer { result.1.0 ≡ joined.entry.0.1.0 }
    ensures faults { result.1.1 ≡ joined.entry.1.0.1.0 }
{
    let (watcher, (server, (both, recorder))) = joined;
    let (watcher, (writer, watched)) = watcher;
    let (status, (faults, served)) = server;
    let (received, ticked) = both;
    let mut watcher = watcher;
    let (receiver, received) = without_link(received);
    let (ticker, mut ticked) = without_link(ticked);
    ticked.unsent = ticked.unsent.saturating_add(unsent);
    let members = watcher.members(alloc);
    let left = Left {
        received,
        ticked,
        members,
        watched,
        served,
        receiver,
        ticker,
        reader: watcher.finish(),
        status: status.finish(),
        recorder: recorder.finish(),
    };
    (left, (writer, faults))
}

/// What a loop gave back, without its link.
fn without_link<A: AgentName, L: Drop>(ended: Ended<L, A>) -> (Spent<A>, LoopEnd)
    ensures spent { result.0 ≡ ended.spent }
    ensures end { result.1 ≡ ended.end }
{
    let Ended { link, spent, end } = ended;
    drop(link);
    (spent, end)
}

/// Closes the agent of a node, with a list that has enough capacity for what its passes leave. What its threads shared
/// says how long its clock stood still, and is let go.
pub(crate) fn close<A: AgentName, R: Wait + rt::Clock>(
    rt: &R,
    agent: Agent<A>,
    left: Left<A>,
    room: Vec<Spent<A>>,
    commons: Commons<'_, R>,
) -> NodeEnd
    requires { (room.items ≡ []) × (PLACES ≤ vec_capacity room) }
    ensures received { result.received ≡ left.received }
    ensures ticked { result.ticked ≡ left.ticked }
    ensures members { result.members ≡ left.members }
    ensures watched { result.watched ≡ left.watched }
    ensures served { result.served ≡ left.served }
    ensures closed { MatchResult result.closed
        (λ c. IsClosed A.places c
        (left.receiver ∷ left.ticker ∷ left.reader ∷ left.status ∷ left.recorder ∷ []))
        (λ f. IsRefusedClosing A.places
        (left.receiver ∷ left.ticker ∷ left.reader ∷ left.status ∷ left.recorder ∷ []) f) }
{
    let Left {
        received,
        ticked,
        members,
        watched,
        served,
        receiver,
        ticker,
        reader,
        status,
        recorder,
    } = left;
    let stood_still = commons.stood_still();
    drop(commons);
    let mut spents = room;
    spents.push_reserved(receiver);
    spents.push_reserved(ticker);
    spents.push_reserved(reader);
    spents.push_reserved(status);
    spents.push_reserved(recorder);
    NodeEnd {
        received,
        ticked,
        members,
        watched,
        served,
        closed: close_agent(rt, agent, spents),
        stood_still,
    }
}

/// Closes an agent with what its passes left, or gives it up if that is refused.
fn close_agent<A: AgentName, R: Wait>(
    rt: &R,
    agent: Agent<A>,
    spents: Vec<Spent<A>>,
) -> Result<Closed, CloseFault>
    ensures { MatchResult result (λ c. IsClosed A.places c spents.items)
        (λ f. IsRefusedClosing A.places spents.items f) }
{
    match agent.close(rt, spents) {
        Ok(closed) => Ok(closed),
        Err(unclosed) => {
            let Unclosed {
                fault,
                agent,
                spents,
            } = unclosed;
            drop(spents);
            agent.abandon(rt);
            Err(fault)
        }
    }
}
