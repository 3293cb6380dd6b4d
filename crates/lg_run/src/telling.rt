//! What is told of how a node ended.
//!
//! Defined in: `specs/Meaning/Telling.antt`, `specs/Meaning/Running.antt`.
//! Tested in: `lg_command_tests/src/launch/order.rt`.
ghost use Rattle.std.specs.Prelude.{◌≡◌, unwrap_or, Ok};
ghost use Rattle.std.specs.Option.{option_map};
ghost use Rattle.lg_turns.specs.declared.ending.Why.TheVariants.{Stopped};
ghost use Rattle.lg_run.specs.declared.told.Told.{Told as OneTold};
ghost use Rattle.lg_run.specs.Meaning.Running.{table_at_end};
ghost use Rattle.lg_run.specs.Meaning.Telling.{ending, finished, run_told};

use crate::told::Told;
use lg_node::{NodeEnd, NodeFault, Why};
use lg_rules::Record;
use lg_text::RunFault;

/// The records of the table that is to be written, if one is to be.
pub(crate) fn table_of(ran: &Result<NodeEnd, NodeFault>) -> Option<&[Record]>
    ensures { option_map (λ records. records.now) result ≡ table_at_end ran.now }
{
    let Ok(end) = ran else {
        return None;
    };
    if !wants_table(first_end(end)) {
        return None;
    }
    match &end.members {
        Ok(records) => Some(records.as_slice()),
        Err(_) => None,
    }
}

impl Told {
    /// What is told of a node that was run, given how its table was written. That counts only if the table was to be
    /// written.
    ///
    /// The first end that isn't [`Why::Stopped`] is told, the receiving loop's before the ticking loop's. If there is
    /// none, or it is [`Why::Ousted`], the table was to be written. Then the first of these is told before the end:
    /// that the members were refused, that the writing failed, that the agent wasn't closed. A node that ended before
    /// its loops is told as [`Told::Link`] if its socket couldn't be bound, as [`Told::Status`] if its status server
    /// couldn't be, as [`Told::Refused`] if the clock couldn't be read, and otherwise as its refusal.
    pub fn of(ran: &Result<NodeEnd, NodeFault>, written: Result<(), RunFault>) -> Told
        ensures { result ≡ run_told ran.now written }
    {
        match ran {
            Ok(end) => node_told(end, written),
            Err(NodeFault::Socket(_)) => Told::Link,
            Err(NodeFault::Status(_)) => Told::Status,
            Err(NodeFault::Clock) => Told::Refused,
            Err(NodeFault::Refused(refusal)) => Told::from(*refusal),
        }
    }
}

/// What is told of a node that began its loops.
fn node_told(end: &NodeEnd, written: Result<(), RunFault>) -> Told
    ensures { result ≡ run_told (Ok end.now) written }
{
    let why = first_end(end);
    if !wants_table(why) {
        return end_told(why);
    }
    late_fault(end, written).unwrap_or(end_told(why))
}

/// The first end that isn't [`Why::Stopped`]. The receiving loop's end comes before the ticking loop's.
fn first_end(end: &NodeEnd) -> Why
    ensures { ending Stopped result ≡ ending end.now.received.why end.now.ticked.why }
{
    match end.received.why {
        Why::Stopped => end.ticked.why,
        why => why,
    }
}

/// Whether the table is to be written after such an end.
fn wants_table(why: Why) -> bool
    ensures { result ≡ (ending Stopped why).writes }
{
    matches!(why, Why::Stopped | Why::Ousted)
}

/// What went wrong after the loops, if anything did: the members were refused, their table wasn't written, or the agent
/// wasn't closed.
fn late_fault(end: &NodeEnd, written: Result<(), RunFault>) -> Option<Told>
    ensures { (told : OneTold) → unwrap_or result told ≡ finished end.now.members written end.now.closed told }
{
    match (&end.members, written, &end.closed) {
        (Err(refusal), _, _) => Some(Told::from(*refusal)),
        (Ok(_), Err(fault), _) => Some(Told::from(fault)),
        (Ok(_), Ok(()), Err(_)) => Some(Told::Close),
        (Ok(_), Ok(()), Ok(_)) => None,
    }
}

/// What is told of an end, if nothing went wrong after it.
fn end_told(why: Why) -> Told
    ensures { result ≡ (ending Stopped why).told }
{
    match why {
        Why::Stopped => Told::Done,
        Why::Ousted => Told::Ousted,
        Why::LinkFailed => Told::Link,
        Why::Refused(refusal) => Told::from(refusal),
        Why::ReadBound => Told::Turns,
    }
}
