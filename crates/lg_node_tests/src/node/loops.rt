//! The loops of a node over a clock in memory. What their contracts say isn't carried further.
ghost use Rattle.std.specs.Prelude.{◌≡◌, ◌≤◌};

use super::clocks::{FixedDice, MemoryClock};
use arrayvec::ArrayVec;
use lg_agent::{AgentName, Pass};
use lg_loops::NodeLoops;
use lg_node::{
    ChangeSignal, Counters, Ended, Link, MAX_TURNS, Plan, ReceivingLoop, ResolvedSeeds, Shared,
    Side, TickingLoop,
};
use lg_rules::Name;
use lg_testing::{at, local};
use lg_timing::Moment;
use std::alloc::Global;
use std::sync::Wait;
use std::sync::atomic::AtomicBool;

/// How long a turn waits at most, in milliseconds.
pub(super) const WAIT_MS: u64 = 20;

/// What the loops of a test note for others.
#[derive(Drop)]
pub(super) struct Noted {
    pub(super) page_heard: AtomicBool,
    pub(super) counters: Counters,
    pub(super) changes: ChangeSignal,
    pub(super) resolved: ResolvedSeeds,
}

impl Noted {
    /// Nothing is noted so far, but perhaps that a Page was heard.
    pub(super) fn new(page_heard: bool) -> Noted {
        Noted {
            page_heard: AtomicBool::new(page_heard),
            counters: Counters::new(Name::default(), at(0)),
            changes: ChangeSignal::new(),
            resolved: ResolvedSeeds::new(),
        }
    }
}

/// What a loop of at most `bound` turns shares with nobody. If it is endless, it counts them anew and goes on. One flag
/// tells either loop to stop.
pub(super) fn shared<'a, R>(
    rt: &'a R,
    alloc: Global,
    clock: &'a MemoryClock,
    stop: &'a AtomicBool,
    noted: &'a Noted,
    bound: u64,
    endless: bool,
) -> Shared<'a, R, MemoryClock>
    ensures { result.bound ≡ bound }
{
    Shared {
        rt,
        alloc,
        clock,
        stop,
        over: stop,
        page_heard: &noted.page_heard,
        group: None,
        counters: &noted.counters,
        changes: &noted.changes,
        signal: None,
        bound,
        endless,
        wait_ms: WAIT_MS,
        pause_ms: WAIT_MS,
        deadlines: noted.resolved.deadlines(),
        resolved: &noted.resolved,
        recorder: None,
    }
}

/// Runs a receiving loop of at most `bound` turns.
pub(super) fn receive<A: AgentName, R: Wait, L: Link>(
    rt: &R,
    alloc: Global,
    pass: Pass<'_, A>,
    link: L,
    clock: &MemoryClock,
    stop: &AtomicBool,
    bound: u64,
) -> Ended<L, A>
    requires { bound ≤ MAX_TURNS }
{
    let noted = Noted::new(false);
    let shared = shared(rt, alloc, clock, stop, &noted, bound, false);
    NodeLoops::receive_loop(&shared, Side { pass, link })
}

/// A plan of ticks alone, until a moment. The member doesn't leave then. If it does all the same, it doesn't linger.
pub(super) fn ticks_until(until: Moment) -> Plan {
    Plan {
        name: Name::default(),
        own: local(7000),
        fixed: ArrayVec::new(),
        seeds: ArrayVec::new(),
        learns: false,
        interval_ms: 0,
        pull_ms: 0,
        until,
        leaves: false,
    }
}

/// Runs a ticking loop of at most `bound` turns until a moment. Its random words are all 0.
pub(super) fn tick<A: AgentName, R: Wait, L: Link>(
    rt: &R,
    alloc: Global,
    pass: Pass<'_, A>,
    link: L,
    clock: &MemoryClock,
    until: u64,
    stop: &AtomicBool,
    bound: u64,
) -> Ended<L, A>
    requires { bound ≤ MAX_TURNS }
{
    let noted = Noted::new(false);
    let shared = shared(rt, alloc, clock, stop, &noted, bound, false);
    let dice = FixedDice { word: 0 };
    NodeLoops::tick_loop(&shared, Side { pass, link }, dice, ticks_until(at(until)))
}
