//! All threads of a node: both loops, and beside them a watcher and a status server if they are wanted.
//!
//! ```text
//! thread           started by     begins                    ends                                     joined by
//! ticking loop     the caller     as the caller's own       at its time, the stop flag or a fault
//! watcher          ticking loop   first, if it follows      when the loops have ended, or at its     ticking loop
//!                                                           writer's fault
//! status server    ticking loop   then, if there is one     when the loops have ended, or it failed  ticking loop
//! recorder         ticking loop   then, if it records       when the loops have ended                ticking loop
//! receiving loop   ticking loop   behind these              at the ticking loop's end or a fault     ticking loop
//! writer           the program    before, if it follows     when all is written, or at its fault     nobody
//! reader           the program    before, if the end of     when the input has ended, or failed      nobody
//!                                 the input ends the node
//! resolver         the program    before, if hosts are      never                                    nobody
//!                                 among the seeds
//! ```
//!
//! The first five are of one scope: `tick_beside` (`beside.rt`) starts and joins them, whatever they do. What a thread
//! does is told in one place: `Watching` (`following.rt`), `Serving` (`serving.rt`), `Recording` (`recording.rt`),
//! `Receiving` (`receiving.rt`) and `tick_loop` (of `lg_loops`). The last three are the program's: the writer of what a
//! followed node tells (`lg_cli/src/output.rt`), the reader of the input whose end is to end the node
//! (`lg_cli/src/node.rt`), and the resolver of the hosts among the seeds (`lg_resolve`, which `lg_run` starts). The end
//! of the program cuts them off.
//!
//! The receiving loop sets the stop flag when it ends, at which the ticking one ends, and this one sets the flag that
//! it is over, at which the receiving one ends. So a member that leaves is still heard and answered while its ticking
//! loop lingers. When both have ended, the watcher is woken, which sees that it is over, and the server is told to
//! stop.
//!
//! Defined in: `specs/Meaning/Nodes.antt`, `lg_turns/specs/Meaning/Turns.antt`, `lg_turns/specs/Meaning/Pulling.antt`,
//! `lg_turns/specs/Meaning/BothLoops.antt`.
//! Tested in: `lg_node_tests/src/node/both.rt`, `lg_node_refusals/src/refused_memory.rt`, `cases/nodes`,
//! `cases/groups`, `cases/status`.
ghost use Rattle.std.specs.Prelude.{◌≡◌, ◌≤◌, is_some, IfSome};
ghost use Rattle.lg_http.specs.Meaning.Slots.{AreFree, slots_of};
ghost use Rattle.lg_node.specs.Meaning.Nodes.{RecordsIf, ServesIf, TellsServed};
ghost use Rattle.lg_turns.specs.Meaning.BothLoops.{BothRan};
ghost use Rattle.lg_turns.specs.Meaning.Turns.{line};
ghost use Rattle.lg_turns.specs.Meaning.Words.{DrawsEight};

use crate::beside::{Ticks, tick_beside};
use crate::node::Settings;
use crate::parts::Work;
use crate::receiving::{Receiving, end_of};
use crate::recording::Recording;
use crate::serving::{ServerLeft, Serving, StatusServer, signal_of};
use left_right::Absorb;
use lg_agent::{AgentName, Pass};
use lg_clock::Clock;
use lg_detector::Event;
use lg_http::Signal;
use lg_text::FaultStream;
use lg_timing::Config;
use lg_turns::{
    Ended, Link, MAX_TURNS, NodeRecorder, PcgDice, Plan, ReceivingLoop, RecorderSignal, Shared,
    Side, TickingLoop,
};
use lg_view::{Published, Update};
use std::fs::Files;
use std::rt;
use std::sync::Wait;
use std::thread::Threads;

/// What both loops give back, the receiving one first.
pub type Both<L, A> = (Ended<L, A>, Ended<L, A>);

/// What the threads of a node give back: what the watcher's work gave, what the status server left, what both loops
/// gave back, and what the recorder's work gave.
pub type Joined<'p, 'f, L, A, T, F, Q> = (T, (ServerLeft<'p, 'f, A, F>, (Both<L, A>, Q)));

/// What both loops work with.
#[derive(Drop)]
pub struct Sides<'l, 't, L, A: AgentName, O>
where
    Published<A>: Absorb<Update<A>, State = [Event; 0]>,
{
    /// Which loops these are.
    pub loops: O,
    /// The side of the receiving loop.
    pub receiver: Side<'l, L, A>,
    /// The side of the ticking loop.
    pub ticker: Side<'t, L, A>,
    /// The dice of the ticking loop.
    pub dice: PcgDice,
    /// What the ticking loop does besides its ticks.
    pub plan: Plan,
}

impl<'l, 't, L, A: AgentName, O> Sides<'l, 't, L, A, O> {
    /// These sides of these loops, with these dice and this plan.
    pub fn of(
        loops: O,
        receiver: Side<'l, L, A>,
        ticker: Side<'t, L, A>,
        dice: PcgDice,
        plan: Plan,
    ) -> Sides<'l, 't, L, A, O>
        ensures receiver { result.receiver ≡ receiver.entry }
        ensures ticker { result.ticker ≡ ticker.entry }
        ensures dice { result.dice ≡ dice }
        ensures plan { result.plan ≡ plan }
    {
        Sides {
            loops,
            receiver,
            ticker,
            dice,
            plan,
        }
    }
}

/// What the status server works with: what it shows, its pass, and the server, if there is one.
#[derive(Drop)]
pub struct ServerSide<'p, 'n, 's, 'r, A: AgentName, R>
where
    Published<A>: Absorb<Update<A>, State = [Event; 0]>,
{
    /// The configuration of the node.
    pub config: &'n Config,
    /// What the node is told besides, some of which the server shows.
    pub settings: &'n Settings,
    /// Its pass.
    pub pass: Pass<'p, A>,
    /// The server, if there is one.
    pub server: Option<StatusServer<'s, 'r, R>>,
}

/// Runs both loops as [`join_threads`] says, with this work of the watcher, of the status server and of the recorder.
///
/// The caller of [`join_recorded`] makes the watcher's work, [`join_recorded`] makes the recorder's, [`join_threads`]
/// makes the server's, and this function makes the receiving loop's. The checker can't prove a function that makes two
/// of them.
fn loops_with<A, O, R, L, C, V, T, X, U, Z, Q>(
    shared: &Shared<'_, R, C>,
    sides: Sides<'_, '_, L, A, O>,
    signal: Option<&Signal>,
    watching: V,
    serving: X,
    recording: Z,
) -> (Both<L, A>, (T, (U, Q)))
where
    A: AgentName + Send + Sync,
    O: TickingLoop + ReceivingLoop + Copy + Send,
    R: Wait + Threads + Sync,
    L: Link + Send + Drop,
    C: Clock + Sync,
    V: Work<T> + Send + Drop,
    T: Send + Drop,
    X: Work<U> + Send + Drop,
    U: Send + Drop,
    Z: Work<Q> + Send + Drop,
    Q: Send + Drop,
    requires bound { shared.now.bound ≤ MAX_TURNS }
    requires watches { V.needs watching }
    requires serves { X.needs serving }
    requires records { Z.needs recording }
    ensures watched { V.gives watching result.1.0 }
    ensures served { X.gives serving result.1.1.0 }
    ensures recorded { Z.gives recording result.1.1.1 }
    ensures ran { BothRan shared.now.wait_ms DrawsEight sides.entry.dice sides.entry.plan L.tells shared.now.bound
        shared.now.endless (line (L.log sides.entry.receiver.link) (L.failed sides.entry.receiver.link))
        (line (L.log result.0.0.link) (L.failed result.0.0.link)) sides.entry.receiver.pass
        result.0.0.spent result.0.0.end
        (line (L.log sides.entry.ticker.link) (L.failed sides.entry.ticker.link))
        (line (L.log result.0.1.link) (L.failed result.0.1.link)) sides.entry.ticker.pass
        result.0.1.spent result.0.1.end }
{
    let ticks = Ticks {
        loops: sides.loops,
        side: sides.ticker,
        dice: sides.dice,
        plan: sides.plan,
    };
    let Side { pass, link } = sides.receiver;
    let receiving = Receiving {
        loops: sides.loops,
        shared,
        pass,
        link,
    };
    let done = tick_beside(
        shared, signal, ticks, receiving, watching, serving, recording,
    );
    let received = end_of(done.received, done.had_thread);
    (
        (received, done.ticked),
        (done.watched, (done.served, done.recorded)),
    )
}

/// Runs the threads of a node in a scope of their own, and waits until all have ended: the receiving loop in one of its
/// own, and the ticking loop in this thread. If the work of a watcher is wanted ([`Watching`](crate::Watching)), it is
/// done in a thread of its own, and so is that of a recorder. If there is a status server, it serves in a thread of its
/// own, until the loops have ended. One that ends by itself is reported on `faults` when it ends.
///
/// If no thread can be started for the receiving loop, the flag that it is over is set before either loop begins. The
/// receiving loop then ends with [`Why::Refused`](crate::Why::Refused), since memory was refused. The ticking one makes
/// no turn and ends with [`Why::Stopped`](crate::Why::Stopped), and this member doesn't leave its group. If none can be
/// started for the watcher or the recorder, it does its work when the loops have ended. A status server for which none
/// can be started is told to stop before it begins.
///
/// Gives back what the watcher's work gave, what the server left, both ends of the loops, and what the recorder's work
/// gave.
pub fn join_threads<'l, 'p, 'f, A, O, R, L, C, V, T, F, Z, Q>(
    shared: &Shared<'_, R, C>,
    sides: Sides<'l, 'l, L, A, O>,
    server: ServerSide<'p, '_, '_, '_, A, R>,
    watching: V,
    faults: &'f mut F,
    recording: Z,
) -> Joined<'p, 'f, L, A, T, F, Q>
where
    A: AgentName + Send + Sync,
    O: TickingLoop + ReceivingLoop + Copy + Send,
    R: Wait + Threads + Files + rt::Clock + AllocGlobal + Clone + Sync + Drop,
    R::File: Send,
    R::Dir: Send,
    L: Link + Send + Drop,
    C: Clock + Sync,
    V: Work<T> + Send + Drop,
    T: Send + Drop,
    F: FaultStream + Send,
    Z: Work<Q> + Send + Drop,
    Q: Send + Drop,
    requires bound { shared.now.bound ≤ MAX_TURNS }
    requires watches { V.needs watching }
    requires records { Z.needs recording }
    requires free { IfSome server.server (λ status. AreFree (slots_of status.server)) }
    requires name { shared.now.counters.now.name ≡ server.config.now.name }
    ensures watched { V.gives watching result.0 }
    ensures recorded { Z.gives recording result.1.1.1 }
    ensures faults { result.1.0.1.0.ghost_name ≡ faults.entry.ghost_name }
    ensures served { ServesIf (is_some server.entry.server) server.entry.config.now server.entry.settings.now
        server.entry.pass result.1.0.0 result.1.0.1.1 }
    ensures told { TellsServed result.1.0.1.1 (F.reported faults.entry.now) (F.reported result.1.0.1.0.now) }
    ensures ran { BothRan shared.now.wait_ms DrawsEight sides.entry.dice sides.entry.plan L.tells shared.now.bound
        shared.now.endless (line (L.log sides.entry.receiver.link) (L.failed sides.entry.receiver.link))
        (line (L.log result.1.1.0.0.link) (L.failed result.1.1.0.0.link)) sides.entry.receiver.pass
        result.1.1.0.0.spent result.1.1.0.0.end
        (line (L.log sides.entry.ticker.link) (L.failed sides.entry.ticker.link))
        (line (L.log result.1.1.0.1.link) (L.failed result.1.1.0.1.link)) sides.entry.ticker.pass
        result.1.1.0.1.spent result.1.1.0.1.end }
{
    let signal = signal_of(&server.server);
    let serving = Serving {
        shared,
        config: server.config,
        settings: server.settings,
        server: server.server,
        pass: server.pass,
        faults,
    };
    let (both, (watched, (served, recorded))) = loops_with(
        shared, sides, signal, watching, serving, recording,
    );
    (watched, (served, (both, recorded)))
}

/// What a recorder works with: by what it is told that the node has ended, its pass, and the recorder, if there is one.
#[derive(Drop)]
pub(crate) struct RecorderSide<'p, 'x, A: AgentName, K>
where
    Published<A>: Absorb<Update<A>, State = [Event; 0]>,
{
    pub(crate) signal: &'x RecorderSignal,
    pub(crate) pass: Pass<'p, A>,
    pub(crate) recorder: Option<K>,
}

/// Runs the threads of a node as [`join_threads`] says, with this recorder, if there is one.
pub(crate) fn join_recorded<'l, 'p, 'f, A, O, R, L, C, V, T, F, K>(
    shared: &Shared<'_, R, C>,
    sides: Sides<'l, 'l, L, A, O>,
    server: ServerSide<'p, '_, '_, '_, A, R>,
    watching: V,
    faults: &'f mut F,
    recorder: RecorderSide<'p, '_, A, K>,
) -> Joined<'p, 'f, L, A, T, F, Pass<'p, A>>
where
    A: AgentName + Send + Sync,
    O: TickingLoop + ReceivingLoop + Copy + Send,
    R: Wait + Threads + Files + rt::Clock + AllocGlobal + Clone + Sync + Drop,
    R::File: Send,
    R::Dir: Send,
    L: Link + Send + Drop,
    C: Clock + Sync,
    V: Work<T> + Send + Drop,
    T: Send + Drop,
    F: FaultStream + Send,
    K: NodeRecorder + Send + Drop,
    requires bound { shared.now.bound ≤ MAX_TURNS }
    requires watches { V.needs watching }
    requires free { IfSome server.server (λ status. AreFree (slots_of status.server)) }
    requires name { shared.now.counters.now.name ≡ server.config.now.name }
    ensures watched { V.gives watching result.0 }
    ensures recorded { RecordsIf (is_some recorder.entry.recorder) recorder.entry.pass result.1.1.1 }
    ensures faults { result.1.0.1.0.ghost_name ≡ faults.entry.ghost_name }
    ensures served { ServesIf (is_some server.entry.server) server.entry.config.now server.entry.settings.now
        server.entry.pass result.1.0.0 result.1.0.1.1 }
    ensures told { TellsServed result.1.0.1.1 (F.reported faults.entry.now) (F.reported result.1.0.1.0.now) }
    ensures ran { BothRan shared.now.wait_ms DrawsEight sides.entry.dice sides.entry.plan L.tells shared.now.bound
        shared.now.endless (line (L.log sides.entry.receiver.link) (L.failed sides.entry.receiver.link))
        (line (L.log result.1.1.0.0.link) (L.failed result.1.1.0.0.link)) sides.entry.receiver.pass
        result.1.1.0.0.spent result.1.1.0.0.end
        (line (L.log sides.entry.ticker.link) (L.failed sides.entry.ticker.link))
        (line (L.log result.1.1.0.1.link) (L.failed result.1.1.0.1.link)) sides.entry.ticker.pass
        result.1.1.0.1.spent result.1.1.0.1.end }
{
    let RecorderSide {
        signal,
        pass,
        recorder,
    } = recorder;
    let recording = Recording::new(shared, signal, recorder, pass);
    join_threads(shared, sides, server, watching, faults, recording)
}
