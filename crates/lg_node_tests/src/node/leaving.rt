//! Ticking loops at whose end the member leaves its group, or doesn't. Each is told to stop by its end time.
use super::alone::{BOUND, Calls, LoopSeen, Run, Want, run_pass};
use super::clocks::Pauses;
use super::links::{Call, Spelled};
use super::playing::{Play, Shown, told};
use lg_agent::{AgentName, Pass, Spent};
use lg_agent_testing::{Case, Left, Outcome, both_passes};
use lg_node::Why;
use lg_rules::Status;
use lg_testing::letter;
use std::alloc::Global;
use std::sync::Wait;

/// What a loop did, and the status of the member's own record in the table that readers see then.
#[derive(Drop)]
pub struct LeavingSeen {
    seen: LoopSeen,
    own: Option<Status>,
}

/// Runs the loop with the second pass. The first looks at the member's own record then.
pub fn run_leaving<A: AgentName, R: Wait>(
    rt: &R,
    alloc: Global,
    passes: Vec<Pass<'_, A>>,
    run: Run,
    spents: Vec<Spent<A>>,
) -> Left<A, Shown> {
    let Some((looker, ticker)) = both_passes(passes) else {
        return Left::nothing(spents);
    };
    let (seen, spent) = run_pass(rt, alloc, ticker, run);
    let mut looker = looker;
    let own = match looker.status_of(&letter(b'b')) {
        Ok(Some(record)) => Some(record.status),
        _ => None,
    };
    let seen = Shown::Leaving(LeavingSeen { seen, own });
    Left::with_both(spents, (looker.finish(), spent), seen)
}

/// An agent of two places with this run, which knows c, or nobody, and sends in version 3.
fn case(run: Run, others: u8) -> Case<Play> {
    let mut case = Case::new(2, Play::Leave(run));
    case.others = others;
    case.wire = 3;
    case
}

/// The Gossip of b that says that it has left, for c.
const LEFT: Call = Call::Send {
    what: Spelled::LeftOfB,
    port: 7003,
    sent: true,
};

/// The same, if it isn't sent.
const UNSENT: Call = Call::Send {
    what: Spelled::LeftOfB,
    port: 7003,
    sent: false,
};

/// The first Ping of b, for c, which also says that b has come.
const PING: Call = Call::Send {
    what: Spelled::Other,
    port: 7003,
    sent: true,
};

/// A loop that is stopped after this many turns, of which `count` pause for 20 ms each, with these calls of its link,
/// and after this many entries.
fn stopped(turns: u64, count: u64, calls: &[Call], entries: u64) -> Want<'_> {
    Want {
        why: Why::Stopped,
        dropped: 0,
        unsent: 0,
        turns,
        received: 0,
        failures: 0,
        pauses: Pauses {
            count,
            longest: if count == 0 { 0 } else { 20 },
            sum: count.wrapping_mul(20),
        },
        calls: Calls::Are(calls),
        entries,
        base: 0,
        rotations: 0,
    }
}

/// The same, if its one packet wasn't sent.
fn lost(want: Want<'_>) -> Want<'_> {
    let mut want = want;
    want.unsent = 1;
    want.failures = 1;
    want
}

/// The same, but it ends by its bound.
fn bounded(want: Want<'_>) -> Want<'_> {
    let mut want = want;
    want.why = Why::ReadBound;
    want
}

/// A loop that leaves at 0 and whose link fails at its first call.
fn failing() -> Case<Play> {
    let mut run = Run::leaving(0);
    run.script.fails_at = 1;
    case(run, 1)
}

/// A loop that leaves at 0 and lingers for 100 ms.
fn lingering() -> Case<Play> {
    let mut run = Run::leaving(0);
    run.lingers_ms = 100;
    case(run, 1)
}

/// A loop that leaves at 20, whose history has room for the opening and one tick.
fn short() -> Case<Play> {
    let mut case = case(Run::leaving(20), 1);
    case.limit = 2;
    case
}

/// Whether a loop did what it should, and the member's own record is this then.
fn is(outcome: &Outcome<Shown>, want: &Want<'_>, own: Status) -> bool {
    match &outcome.seen {
        Some(Shown::Leaving(found)) => {
            want.is_met(&found.seen, &outcome.ending) && found.own == Some(own)
        }
        _ => false,
    }
}

#[test]
fn leaving_loops(rt: HostRuntime) {
    let (left, unsent, both) = ([LEFT], [UNSENT], [PING, LEFT]);
    let rows = [
        (
            "leaves",
            case(Run::leaving(0), 1),
            stopped(1, 0, &left, 2),
            Status::Left,
        ),
        (
            "stays",
            case(Run::ticking(0), 1),
            stopped(0, 0, &[], 1),
            Status::Alive,
        ),
        // A tick at 0, a pause, and the leave.
        (
            "ticks first",
            case(Run::leaving(20), 1),
            stopped(3, 1, &both, 3),
            Status::Left,
        ),
        (
            "knows nobody",
            case(Run::leaving(0), 0),
            stopped(1, 0, &[], 2),
            Status::Left,
        ),
        (
            "isn't sent",
            failing(),
            lost(stopped(1, 0, &unsent, 2)),
            Status::Left,
        ),
        (
            "full",
            short(),
            stopped(3, 1, &both, 3).behind(2),
            Status::Left,
        ),
        // The leave, a tick at 0 that probes nobody, and five pauses.
        (
            "lingers",
            lingering(),
            stopped(7, 5, &left, 3),
            Status::Left,
        ),
        // The moment until which it runs doesn't come. It ticks at 0 and 1000, and doesn't leave.
        (
            "bound",
            case(Run::leaving(1_000_000), 0),
            bounded(stopped(BOUND, 98, &[], 3)),
            Status::Alive,
        ),
    ];
    for (name, case, want, own) in rows {
        let outcome = told(&rt, rt.alloc(), case);
        let met = outcome
            .as_ref()
            .is_ok_and(|outcome| is(outcome, &want, own));
        assert!(rt; met, "{name}");
    }
}
