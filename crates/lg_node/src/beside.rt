//! The threads of a node, whatever they do beside the ticking loop: the work of the receiving loop, of a watcher, of a
//! status server and of a recorder.
//!
//! This work is a type parameter each, since the checker looks through all types that a thread is handed, and those of
//! a pass lead to the whole agent.
//!
//! Defined in: `lg_turns/specs/Meaning/Turns.antt`, `lg_turns/specs/Meaning/Pulling.antt`.
//! Tested in: `lg_node_tests/src/node/both.rt`, `lg_node_refusals/src/refused_memory.rt`.
ghost use Rattle.std.specs.Prelude.{◌≡◌, ◌≤◌, true, false};
ghost use Rattle.lg_turns.specs.Meaning.Pulling.{Ticking};
ghost use Rattle.lg_turns.specs.Meaning.Turns.{line, unstarted, MadeNoTurn};
ghost use Rattle.lg_turns.specs.Meaning.Words.{DrawsEight};

use crate::parts::{Does, Work, join_or_do, start_if};
use left_right::Absorb;
use lg_agent::AgentName;
use lg_clock::Clock;
use lg_detector::Event;
use lg_http::Signal;
use lg_turns::{Ended, Link, MAX_TURNS, PcgDice, Plan, Shared, Side, TickingLoop};
use lg_view::{Published, Update};
use std::sync::Wait;
use std::sync::atomic::Ordering::SeqCst;
use std::thread;
use std::thread::Threads;

/// Tells those who look that the loops have ended.
fn tell_ended<R: Wait, C>(shared: &Shared<'_, R, C>, signal: Option<&Signal>) {
    shared.changes.set(shared.rt);
    if let Some(signal) = signal {
        signal.stop();
    }
    if let Some(recorder) = shared.recorder {
        recorder.end(shared.rt);
    }
}

/// What the ticking loop gives back if the receiving one has no thread, so that nobody would hear for it.
fn without_turn<L, A: AgentName>(side: Side<'_, L, A>, dice: PcgDice, plan: Plan) -> Ended<L, A>
    ensures link { result.link ≡ side.entry.link }
    ensures spent { result.spent ≡ side.entry.pass }
    ensures end { result.end ≡ unstarted }
{
    drop(dice);
    drop(plan);
    side.unstarted()
}

/// What the ticking loop works with.
#[derive(Drop)]
pub(crate) struct Ticks<'t, L, A: AgentName, O>
where
    Published<A>: Absorb<Update<A>, State = [Event; 0]>,
{
    /// Which loops these are.
    pub(crate) loops: O,
    pub(crate) side: Side<'t, L, A>,
    pub(crate) dice: PcgDice,
    pub(crate) plan: Plan,
}

/// What was done side by side.
#[derive(Drop)]
pub(crate) struct Done<E, F, T, U, Q> {
    /// What the receiving loop's work gave.
    pub(crate) received: E,
    /// Whether a thread could be started for it. If not, it was done once it was told that the loops are over.
    pub(crate) had_thread: bool,
    /// What the ticking loop gave back.
    pub(crate) ticked: F,
    /// What the watcher's work gave.
    pub(crate) watched: T,
    /// What the status server's work gave.
    pub(crate) served: U,
    /// What the recorder's work gave.
    pub(crate) recorded: Q,
}

/// Runs the ticking loop in this thread, and does the other work beside it, each piece in a thread of its own. All are
/// of one scope. The watcher's, the server's and the recorder's are started first, if they are wanted. When both loops
/// have ended, those who look are told so, and so is the recorder. The work of these three, if no thread is wanted or
/// could be started for it, is done here after that.
///
/// If no thread can be started for the receiving loop, the flag that the loops are over is set first, its work is done
/// here, and the ticking loop makes no turn.
pub(crate) fn tick_beside<A, O, R, L, C, Y, E, V, T, X, U, Z, Q>(
    shared: &Shared<'_, R, C>,
    signal: Option<&Signal>,
    ticks: Ticks<'_, L, A, O>,
    receiving: Y,
    watching: V,
    serving: X,
    recording: Z,
) -> Done<E, Ended<L, A>, T, U, Q>
where
    A: AgentName + Send + Sync,
    O: TickingLoop + Copy,
    R: Wait + Threads + Sync,
    L: Link + Send + Drop,
    C: Clock + Sync,
    Y: Work<E> + Send + Drop,
    E: Send + Drop,
    V: Work<T> + Send + Drop,
    T: Send + Drop,
    X: Work<U> + Send + Drop,
    U: Send + Drop,
    Z: Work<Q> + Send + Drop,
    Q: Send + Drop,
    requires bound { shared.now.bound ≤ MAX_TURNS }
    requires receives { Y.needs receiving }
    requires watches { V.needs watching }
    requires serves { X.needs serving }
    requires records { Z.needs recording }
    ensures received { Y.gives receiving result.received }
    ensures heard { result.had_thread ≡ true → Ticking DrawsEight ticks.entry.dice ticks.entry.plan L.tells
        shared.now.bound shared.now.endless (line (L.log ticks.entry.side.link) (L.failed ticks.entry.side.link))
        (line (L.log result.ticked.link) (L.failed result.ticked.link)) ticks.entry.side.pass
        result.ticked.spent result.ticked.end }
    ensures unheard { result.had_thread ≡ false → MadeNoTurn
        (line (L.log ticks.entry.side.link) (L.failed ticks.entry.side.link))
        (line (L.log result.ticked.link) (L.failed result.ticked.link)) ticks.entry.side.pass
        result.ticked.spent result.ticked.end }
    ensures watched { V.gives watching result.watched }
    ensures served { X.gives serving result.served }
    ensures recorded { Z.gives recording result.recorded }
{
    let (side, dice, plan) = (ticks.side, ticks.dice, ticks.plan);
    thread::scope(
        thread::scope_env(),
        shared.rt,
        move |scope| -> Done<E, Ended<L, A>, T, U, Q>
            requires bound { shared.now.bound ≤ MAX_TURNS }
            requires work { Y.needs receiving × V.needs watching × X.needs serving × Z.needs recording }
            ensures received { Y.gives receiving result.received }
            ensures heard { result.had_thread ≡ true → Ticking DrawsEight dice plan L.tells shared.entry.now.bound
                shared.entry.now.endless (line (L.log side.entry.link) (L.failed side.entry.link))
                (line (L.log result.ticked.link) (L.failed result.ticked.link)) side.entry.pass result.ticked.spent
                result.ticked.end }
            ensures unheard { result.had_thread ≡ false → MadeNoTurn
                (line (L.log side.entry.link) (L.failed side.entry.link)) (line (L.log result.ticked.link)
                (L.failed result.ticked.link)) side.entry.pass result.ticked.spent result.ticked.end }
            ensures watched { V.gives watching result.watched }
            ensures served { X.gives serving result.served }
            ensures recorded { Z.gives recording result.recorded }
        {
            let watching = start_if(scope, Does::of(&watching), move || watching.work());
            let serving = start_if(scope, Does::of(&serving), move || serving.work());
            let recording = start_if(scope, Does::of(&recording), move || recording.work());
            let receiving = start_if(scope, Does::of(&receiving), move || receiving.work());
            let had_thread = receiving.0.is_ok();
            let ticked = if had_thread {
                O::tick_loop(shared, side, dice, plan)
            } else {
                shared.over.store(true, SeqCst);
                without_turn(side, dice, plan)
            };
            let received = join_or_do(shared.rt, receiving);
            tell_ended(shared, signal);
            Done {
                received,
                had_thread,
                ticked,
                watched: join_or_do(shared.rt, watching),
                served: join_or_do(shared.rt, serving),
                recorded: join_or_do(shared.rt, recording),
            }
        },
    )
}
