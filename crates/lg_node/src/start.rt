//! The start of a node, from its clock to its loops, and its end. Its sockets are bound by then.
//!
//! [`open_and_serve`] opens the agent ([`open_node`]) and closes it ([`close`]). Between these the passes are handed
//! out and the seeds are asked ([`begin`]), all threads run ([`join_recorded`]), and the members are read ([`leave`]).
//! What is let go at the end of a block is proved field by field, each time anew, and what a call takes isn't. So large
//! values are handed to a call here, to `drop` if there is no other.
//!
//! Defined in: `specs/Meaning/Starts.antt`, `specs/Meaning/Nodes.antt`, `lg_turns/specs/Meaning/NodeLinks.antt`.
//! Tested in: `lg_node_tests/src/node/asking.rt`, `cases/nodes`.
ghost use Rattle.std.specs.Prelude.{◌≡◌, ◌≤◌, ◌⊎◌, ◌∷◌, [], ℕ, false, length, All, is_some};
ghost use Rattle.std.specs.Prelude.{IfErr, IfOk, IfSome, OnErr};
ghost use Rattle.std.specs.Vec.{vec_capacity};
ghost use Rattle.lg_timing.specs.Meaning.Config.{IsChecked};
ghost use Rattle.lg_detector.specs.declared.event.Event.TheVariants.{Open};
ghost use Rattle.lg_agent.specs.declared.refusal.Refusal.TheVariants.{NoMemory, NoPlace};
ghost use Rattle.lg_http.specs.Meaning.Slots.{AreFree, slots_of};
ghost use Rattle.lg_node.specs.Meaning.Nodes.{IsEarly, IsRun, TellsServed};
ghost use Rattle.lg_node.specs.Meaning.Starts.{stall_of, turn_wait};

use crate::beginning::begin;
use crate::closing::{close, leave};
use crate::following::Watching;
use crate::node::{NodeEnd, NodeFault, Settings};
use crate::serving::StatusServer;
use crate::threads::{RecorderSide, join_recorded};
use lg_agent::{Agent, AgentName, Refusal, Spent};
use lg_clock::{Clock, SteadyClock};
use lg_counters::Counters;
use lg_http::Signal;
use lg_rules::Name;
use lg_text::FaultStream;
use lg_timing::{Config, Moment};
use lg_turns::{
    ChangeSignal, MAX_TURNS, NodeRecorder, ReceivingLoop, RecorderSignal, ResolvedSeeds, SeedAsker,
    Shared, TickingLoop,
};
use lg_view::UnnamedBook;
use std::alloc::Global;
use std::fs::Files;
use std::io::Write;
use std::net::UdpSocket;
use std::rt;
use std::sync::Wait;
use std::sync::atomic::AtomicBool;
use std::thread::Threads;

/// The least stall of a clock that isn't the machine's, in milliseconds.
const MIN_STALL_MS: u64 = 25;

/// The longest pause of a node's ticking loop, in milliseconds (this project's choice). A nearer deadline ends it
/// early, and so does the end of the node.
const MAX_PAUSE_MS: u64 = 1000;

/// How many passes a node has: one for the receiving loop, one for the ticking loop, one that asks the seeds and then
/// watches, one for the status server, and one for the recorder.
pub(crate) const PLACES: usize = 5;

/// What a node is set up with, when its ticking loop ends, what stops it earlier, and its sockets.
#[derive(Drop)]
pub(crate) struct Setup<'n, 's, O> {
    /// Which loops it has.
    pub(crate) loops: O,
    /// From it the node takes all its memory.
    pub(crate) alloc: Global,
    pub(crate) config: &'n Config,
    pub(crate) settings: &'n Settings,
    pub(crate) until: Moment,
    pub(crate) stop: &'n AtomicBool,
    /// Which addresses the hosts among the seeds are found to have.
    pub(crate) resolved: &'n ResolvedSeeds,
    pub(crate) socket: &'s UdpSocket,
    /// By which the status server is woken, if there is one.
    pub(crate) signal: Option<&'s Signal>,
}

/// Opens a node over its socket, serves until one of its loops ends, and closes it.
pub(crate) fn open_and_serve<'s, A, O, R, K, W, F>(
    rt: &R,
    book: UnnamedBook,
    setup: &Setup<'_, 's, O>,
    status: Option<StatusServer<'s, '_, R>>,
    recorder: Option<K>,
    writer: &mut W,
    faults: &mut F,
) -> Result<NodeEnd, NodeFault>
where
    A: AgentName + Send + Sync,
    O: SeedAsker + TickingLoop + ReceivingLoop + Copy + Send,
    R: Wait + Threads + Files + rt::Clock + AllocGlobal + Clone + Sync + Drop,
    R::File: Send,
    R::Dir: Send,
    K: NodeRecorder + Send + Drop,
    W: Write + Send,
    F: FaultStream + Send,
    requires book { book.seen.book ≡ A.book }
    requires places { A.places ≡ PLACES }
    requires config { IsChecked setup.now.config.now }
    requires free { IfSome status (λ status. AreFree (slots_of status.server)) }
    requires serving { is_some status ≡ is_some setup.now.settings.now.status }
    ensures ran { IfOk result (IsRun setup.now.config.now setup.now.settings.now setup.now.until
        (W.contents writer.old) (W.contents writer.new) (is_some recorder)) }
    ensures refused { IfErr result (IsEarly setup.now.config.now) }
    ensures alone { setup.now.settings.now.follow ≡ false → writer.new ≡ writer.old }
    ensures unwritten { OnErr result (writer.new ≡ writer.old) }
    ensures told { IfOk result (λ e. TellsServed e.served (F.reported faults.old) (F.reported faults.new)) }
    ensures untold { OnErr result (faults.new ≡ faults.old) }
{
    let (mut agent, room, commons) = match open_node::<A, O, R>(rt, setup, book) {
        Ok(opened) => opened,
        Err(fault) => {
            drop(status);
            drop(recorder);
            return Err(fault);
        }
    };
    let stall = stall_of(setup.settings);
    let shared = Shared {
        rt,
        alloc: setup.alloc,
        clock: &commons.clock,
        stop: setup.stop,
        over: &commons.over,
        page_heard: &commons.page_heard,
        group: setup.config.group,
        counters: &commons.counters,
        changes: &commons.changes,
        signal: setup.signal,
        bound: MAX_TURNS,
        endless: true,
        wait_ms: wait_of(setup.config, stall),
        pause_ms: MAX_PAUSE_MS,
        deadlines: setup.resolved.deadlines(),
        resolved: setup.resolved,
        recorder: commons.signal_of(recorder.is_some()),
    };
    let ready = match begin(&shared, &mut agent, setup, status) {
        Ok(ready) => ready,
        Err(refusal) => {
            drop(recorder);
            return Err(give_up(rt, agent, room, commons, refusal));
        }
    };
    let unsent = ready.unsent;
    let recorder = RecorderSide {
        signal: &commons.recorder,
        pass: ready.recorder,
        recorder,
    };
    let watching = Watching::new(&shared, setup.settings.follow, ready.asker, writer);
    let joined = join_recorded(
        &shared,
        ready.sides,
        ready.server,
        watching,
        faults,
        recorder,
    );
    let (left, (writer, faults)) = leave(setup.alloc, joined, unsent);
    take_back(writer);
    take_back(faults);
    Ok(close(rt, agent, left, room, commons))
}

/// What a node owns and its threads share: its clock, what they count, and by what they tell each other.
#[derive(Drop)]
pub(crate) struct Commons<'r, R> {
    clock: SteadyClock<'r, R>,
    counters: Counters,
    over: AtomicBool,
    page_heard: AtomicBool,
    changes: ChangeSignal,
    recorder: RecorderSignal,
}

impl<'r, R: Wait + rt::Clock> Commons<'r, R> {
    /// What a node begins with whose clock this is, at this moment, and whose configuration is this.
    fn new(clock: SteadyClock<'r, R>, config: &Config, start: Moment) -> Commons<'r, R>
        ensures { result.counters.name ≡ config.now.name }
    {
        Commons {
            clock,
            counters: Counters::new(config.name, start),
            over: AtomicBool::new(false),
            page_heard: AtomicBool::new(false),
            changes: ChangeSignal::new(),
            recorder: RecorderSignal::new(config.history_limit),
        }
    }

    /// The signal of the recorder, if there is one.
    fn signal_of(&self, records: bool) -> Option<&RecorderSignal> {
        records.then_some(&self.recorder)
    }

    /// How many milliseconds the clock has left out.
    pub(crate) fn stood_still(&self) -> u64 {
        self.clock.stood_still()
    }
}

/// What a node works with from its opening on: its agent, a list with enough capacity for what its passes leave, and
/// what its threads share.
type Opened<'r, A, R> = (Agent<A>, Vec<Spent<A>>, Commons<'r, R>);

/// Opens a node: reads its clock, and opens its agent with the passes of a node.
fn open_node<'r, A: AgentName, O, R: Wait + rt::Clock>(
    rt: &'r R,
    setup: &Setup<'_, '_, O>,
    book: UnnamedBook,
) -> Result<Opened<'r, A, R>, NodeFault>
    requires book { book.seen.book ≡ A.book }
    requires places { A.places ≡ PLACES }
    requires config { IsChecked setup.now.config.now }
    ensures name { IfOk result (λ o. o.0.name ≡ setup.now.config.now.name) }
    ensures count { IfOk result (λ o. length o.0.told ≡ PLACES) }
    ensures told { IfOk result (λ o. (start : ℕ)
        × All (λ seen. seen ≡ Open start setup.now.config.now ∷ []) o.0.told) }
    ensures room { IfOk result (λ o. (o.1.items ≡ []) × (PLACES ≤ vec_capacity o.1)) }
    ensures counted { IfOk result (λ o. o.2.counters.name ≡ setup.now.config.now.name) }
    ensures refused { IfErr result (IsEarly setup.now.config.now) }
{
    let clock = match SteadyClock::new(rt, stall_of(setup.settings)) {
        Ok(clock) => clock,
        Err(_) => {
            drop(book);
            return Err(NodeFault::Clock);
        }
    };
    let start = clock.now();
    match open_agent::<A, O, R>(rt, setup, book, start) {
        Ok((agent, room)) => Ok((agent, room, Commons::new(clock, setup.config, start))),
        Err(refusal) => {
            drop(clock);
            Err(NodeFault::Refused(refusal))
        }
    }
}

/// An agent that is opened at a moment with the passes of a node, and a list with enough capacity for what these leave.
/// The error is that memory was refused, or that there was no reader for a pass.
fn open_agent<A: AgentName, O, R: Wait>(
    rt: &R,
    setup: &Setup<'_, '_, O>,
    book: UnnamedBook,
    start: Moment,
) -> Result<(Agent<A>, Vec<Spent<A>>), Refusal>
    requires book { book.seen.book ≡ A.book }
    requires places { A.places ≡ PLACES }
    requires config { IsChecked setup.now.config.now }
    ensures name { IfOk result (λ o. o.0.name ≡ setup.now.config.now.name) }
    ensures told { IfOk result (λ o. (length o.0.told ≡ PLACES)
        × All (λ seen. seen ≡ Open start setup.now.config.now ∷ []) o.0.told) }
    ensures room { IfOk result (λ o. (o.1.items ≡ []) × (PLACES ≤ vec_capacity o.1)) }
    ensures refused { IfErr result (λ e. (e ≡ NoMemory) ⊎ (e ≡ NoPlace)) }
{
    let room = match Vec::with_capacity(setup.alloc, PLACES) {
        Ok(room) => room,
        Err(_) => {
            drop(book);
            return Err(Refusal::NoMemory);
        }
    };
    match Agent::<A>::open(rt, setup.alloc, book, start, setup.config.copy(), PLACES) {
        Ok(agent) => Ok((agent, room)),
        Err(refusal) => {
            drop(room);
            Err(refusal)
        }
    }
}

/// Gives up a node that was opened, since something was refused. Gives its fault.
fn give_up<A: AgentName, R: Wait + rt::Clock>(
    rt: &R,
    agent: Agent<A>,
    room: Vec<Spent<A>>,
    commons: Commons<'_, R>,
    refusal: Refusal,
) -> NodeFault
    ensures { result ≡ NodeFault.Refused refusal }
{
    drop(room);
    drop(commons);
    agent.abandon(rt);
    NodeFault::Refused(refusal)
}

/// Does nothing. By this use a returned reference stays tied to the parameter that lent it.
fn take_back<T>(returned: &mut T)
    ensures { returned.new ≡ returned.old }
{}

/// The stall of a node's clock, in milliseconds: the `stall_ms` of its settings, but at least 25. With a `stall_ms` of
/// 0 the clock is the machine's, and this is 0.
fn stall_of(settings: &Settings) -> u64
    ensures { result ≡ stall_of settings.now.stall_ms }
{
    match settings.stall_ms {
        0 => 0,
        stall_ms => stall_ms.max(MIN_STALL_MS),
    }
}

/// How long a turn of a node waits at most, in milliseconds: a tenth of the configuration's `timeout_ms`, but at least
/// 5 and at most 50, and at most half the stall of its clock, if there is one.
fn wait_of(config: &Config, stall: u64) -> u64
    ensures { result ≡ turn_wait config.now.timeout_ms stall }
{
    let wait = (config.timeout_ms / 10).clamp(5, 50);
    match stall {
        0 => wait,
        _ => wait.min(stall / 2),
    }
}
