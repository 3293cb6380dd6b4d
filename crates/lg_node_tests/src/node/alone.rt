//! One loop of a node, of at most a hundred turns. A run says what the loop meets, and a row what is seen of it.
ghost use Rattle.std.specs.Prelude.{◌≤◌};

use super::clocks::{FixedDice, MemoryClock, Pauses};
use super::links::{Call, MemoryLink, QUIET, Script};
use super::loops::{Noted, shared, ticks_until};
use super::playing::{Play, Shown};
use arrayvec::ArrayVec;
use lg_agent::{AgentName, Pass, Spent};
use lg_agent_testing::{Case, Ending, Left, Outcome, last_pass};
use lg_loops::NodeLoops;
use lg_node::{Counters, Ended, LoopEnd, MAX_TURNS, ReceivingLoop, Shared, Side, TickingLoop, Why};
use lg_testing::at;
use std::alloc::Global;
use std::sync::Wait;
use std::sync::atomic::AtomicBool;
use std::sync::atomic::Ordering::SeqCst;

/// How many turns a loop may make.
pub(super) const BOUND: u64 = 100;

/// Which loop runs.
#[derive(Clone, Copy)]
pub enum Loop {
    /// The receiving one.
    Receiving,
    /// The ticking one, until a moment.
    Ticking { until: u64 },
}

/// What a loop meets.
#[derive(Clone, Copy)]
pub struct Run {
    pub runs: Loop,
    /// The moment of a call before the loop, if there is one.
    pub called_at: Option<u64>,
    /// The moment at which the loop begins.
    pub now: u64,
    /// Whether the member leaves at the end of the ticking loop, and for how long that lingers then, in milliseconds.
    pub leaves: bool,
    pub lingers_ms: u64,
    /// What the link does.
    pub script: Script,
}

impl Run {
    /// The receiving loop with a link that does this.
    pub(super) fn receiving(script: Script) -> Run {
        Run {
            runs: Loop::Receiving,
            called_at: None,
            now: 0,
            leaves: false,
            lingers_ms: 0,
            script,
        }
    }

    /// The ticking loop from 0 to a moment.
    pub(super) fn ticking(until: u64) -> Run {
        Run {
            runs: Loop::Ticking { until },
            called_at: None,
            now: 0,
            leaves: false,
            lingers_ms: 0,
            script: QUIET,
        }
    }

    /// The same, but the member leaves then, and the loop doesn't linger.
    pub(super) fn leaving(until: u64) -> Run {
        let mut run = Run::ticking(until);
        run.leaves = true;
        run
    }

    /// An agent of one place with this run.
    pub(super) fn case(self) -> Case<Play> {
        Case::new(1, Play::Loop(self))
    }
}

/// What a loop counted for the status server.
#[derive(Clone, Copy, PartialEq, Eq)]
pub struct Counted {
    /// Packets that were sent, and packets that weren't.
    pub sent: u64,
    pub unsent: u64,
    /// Rotations of the history.
    pub rotations: u64,
    /// Calls that were refused, for another reason than the bytes of a datagram.
    pub refused: u64,
}

impl Counted {
    /// What these counters have counted.
    fn of(counters: &Counters) -> Counted {
        let counts = counters.counts();
        Counted {
            sent: counts.sent,
            unsent: counts.unsent,
            rotations: counts.history_rotations,
            refused: counts.calls_refused,
        }
    }
}

/// What a loop did.
#[derive(Drop)]
pub struct LoopSeen {
    /// How it ended.
    pub end: LoopEnd,
    /// What it counted.
    pub counted: Counted,
    /// The first calls of its link, how many waited for a datagram, and how many failed.
    pub calls: ArrayVec<Call, 16>,
    pub received: u64,
    pub failures: u64,
    /// The pauses of its clock.
    pub pauses: Pauses,
    /// Whether the other loops are told to stop.
    pub stop: bool,
    /// How many calls of its pass were answered.
    pub answered: usize,
}

/// Runs the loop with a pass. The random words of a ticking loop are all 0.
fn run_loop<'a, A: AgentName, R: Wait>(
    shared: &Shared<'_, R, MemoryClock>,
    side: Side<'_, MemoryLink<'a>, A>,
    run: &Run,
) -> Ended<MemoryLink<'a>, A>
    requires { shared.now.bound ≤ MAX_TURNS }
{
    match run.runs {
        Loop::Receiving => NodeLoops::receive_loop(shared, side),
        Loop::Ticking { until } => {
            let dice = FixedDice { word: 0 };
            let mut plan = ticks_until(at(until));
            plan.leaves = run.leaves;
            plan.interval_ms = run.lingers_ms;
            NodeLoops::tick_loop(shared, side, dice, plan)
        }
    }
}

/// Makes the call before the loop, if there is one, and runs the loop with a pass.
pub(super) fn run_pass<A: AgentName, R: Wait>(
    rt: &R,
    alloc: Global,
    pass: Pass<'_, A>,
    run: Run,
) -> (LoopSeen, Spent<A>) {
    let mut pass = pass;
    if let Some(moment) = run.called_at {
        let _refused = pass.health(rt, alloc, at(moment)).is_err();
    }
    let stop = AtomicBool::new(false);
    let clock = MemoryClock::new(run.now);
    let link = MemoryLink::new(run.script, &stop);
    let noted = Noted::new(false);
    let shared = shared(rt, alloc, &clock, &stop, &noted, BOUND, false);
    let Ended { link, spent, end } = run_loop(&shared, Side { pass, link }, &run);
    let seen = LoopSeen {
        end,
        counted: Counted::of(&noted.counters),
        received: link.received,
        failures: link.failures,
        calls: link.calls,
        pauses: clock.pauses(),
        stop: stop.load(SeqCst),
        answered: spent.made() as usize,
    };
    (seen, spent)
}

/// Runs the loop with the last pass.
pub fn run_alone<A: AgentName, R: Wait>(
    rt: &R,
    alloc: Global,
    passes: Vec<Pass<'_, A>>,
    run: Run,
    spents: Vec<Spent<A>>,
) -> Left<A, Shown> {
    let Some(pass) = last_pass(passes) else {
        return Left::nothing(spents);
    };
    let (seen, spent) = run_pass(rt, alloc, pass, run);
    Left::with(spents, spent, Shown::Loop(seen))
}

/// What the calls of a link should be.
#[derive(Clone, Copy)]
pub(super) enum Calls<'a> {
    /// These calls. A link keeps its first 16.
    Are(&'a [Call]),
    /// Only packets. Each flag says whether a packet was sent.
    Sent(&'a [bool]),
}

/// Whether each call handed over a packet, which was sent or not, as these say.
fn are_sent(calls: &[Call], wanted: &[bool]) -> bool {
    calls.len() == wanted.len()
        && calls.iter().zip(wanted).all(|(call, want)| match call {
            Call::Receive { .. } => false,
            Call::Send { sent, .. } => sent == want,
        })
}

/// Whether a call handed over a packet that was sent.
fn is_sent(call: &Call) -> bool {
    matches!(call, Call::Send { sent: true, .. })
}

impl<'a> Calls<'a> {
    /// How many packets were sent.
    fn sent(self) -> usize {
        match self {
            Calls::Are(wanted) => wanted.iter().filter(|call| is_sent(call)).count(),
            Calls::Sent(wanted) => wanted.iter().filter(|sent| **sent).count(),
        }
    }

    /// Whether the calls are what they should be.
    fn are(self, calls: &[Call]) -> bool {
        match self {
            Calls::Are(wanted) => calls == wanted,
            Calls::Sent(wanted) => are_sent(calls, wanted),
        }
    }
}

/// How a loop should end, how many receivings and failures of its link there should be, and how many entries.
#[derive(Clone, Copy)]
pub(super) struct Want<'a> {
    pub(super) why: Why,
    pub(super) dropped: u64,
    pub(super) unsent: u64,
    pub(super) turns: u64,
    pub(super) received: u64,
    pub(super) failures: u64,
    pub(super) pauses: Pauses,
    pub(super) calls: Calls<'a>,
    pub(super) entries: u64,
    /// How many of these were cut off, and by how many rotations.
    pub(super) base: u64,
    pub(super) rotations: u64,
}

impl<'a> Want<'a> {
    /// The same, if this many entries were cut off by one rotation.
    pub(super) fn behind(self, base: u64) -> Want<'a> {
        let mut want = self;
        want.base = base;
        want.rotations = 1;
        want
    }

    /// What the loop should count. No call is refused.
    fn counted(&self) -> Counted {
        Counted {
            sent: self.calls.sent() as u64,
            unsent: self.unsent,
            rotations: self.rotations,
            refused: 0,
        }
    }

    /// Whether an outcome is what it should be.
    pub(super) fn is(&self, outcome: &Outcome<Shown>) -> bool {
        match &outcome.seen {
            Some(Shown::Loop(seen)) => self.is_met(seen, &outcome.ending),
            _ => false,
        }
    }

    /// Whether a loop did what it should, and its agent ended so. Whatever the end, the others are told to stop.
    pub(super) fn is_met(&self, seen: &LoopSeen, ending: &Ending) -> bool {
        let end = LoopEnd {
            why: self.why,
            dropped: self.dropped,
            unsent: self.unsent,
            turns: self.turns,
        };
        seen.end == end
            && seen.counted == self.counted()
            && seen.received == self.received
            && seen.failures == self.failures
            && seen.pauses == self.pauses
            && self.calls.are(seen.calls.as_slice())
            && seen.stop
            && ending.fault.is_none()
            && ending.entries == Some(self.entries)
            && ending.base == Some(self.base)
            && ending.replayed == Some(self.entries)
    }
}
