//! A watcher that tells what a node learns, in a thread beside the loops.
//!
//! Defined in: `specs/Meaning/Nodes.antt`, `lg_follow/specs/Meaning/Sights.antt`.
//! Tested in: `lg_node_tests/src/node/both.rt`, `lg_node_refusals/src/refused_memory.rt`, `cases/nodes`,
//! `cases/groups`.
ghost use Rattle.std.specs.Prelude.{◌≡◌, false};
ghost use Rattle.lg_node.specs.Meaning.Nodes.{WatchesIf};

use crate::parts::Work;
use left_right::Absorb;
use lg_agent::{AgentName, Pass};
use lg_clock::Clock;
use lg_detector::Event;
use lg_follow::{News, Watched, watch};
use lg_turns::{ChangeSignal, Shared};
use lg_view::{Published, Update};
use std::io::Write;
use std::rt;
use std::sync::Wait;

/// What a watcher beside the loops waits for. The loops set the signal when a record has changed, and it is set once
/// more when both have ended.
#[derive(Drop)]
struct LoopNews<'a, R> {
    rt: &'a R,
    changes: &'a ChangeSignal,
}

impl<R: Wait + rt::Clock> News for LoopNews<'_, R> {
    fn wait(&self, most_ms: Option<u64>) {
        match most_ms {
            None => self.changes.wait(self.rt),
            Some(ms) => self.changes.wait_at_most(self.rt, ms),
        }
    }
}

/// Watches with a pass until the loops are over, or the writer fails, if the node is followed. Otherwise it does
/// nothing. A writer that fails ends the watcher alone. Gives both back, with how the watcher ended.
pub(crate) fn watch_if<'p, 'w, A, R, C, W>(
    shared: &Shared<'_, R, C>,
    followed: bool,
    pass: Pass<'p, A>,
    writer: &'w mut W,
) -> WatcherLeft<'p, 'w, A, W>
where
    A: AgentName,
    R: Wait + rt::Clock,
    C: Clock,
    W: Write,
    ensures same { result.1.0.ghost_name ≡ writer.entry.ghost_name }
    ensures watched { WatchesIf followed pass.entry result.0 (W.contents writer.entry.now)
        (W.contents result.1.0.now) result.1.1 }
    ensures alone { followed ≡ false → result.1.0.now ≡ writer.entry.now }
{
    if !followed {
        return (pass, (writer, None));
    }
    let mut pass = pass;
    let news = LoopNews {
        rt: shared.rt,
        changes: shared.changes,
    };
    let watched = watch(
        shared.alloc,
        shared.clock,
        &news,
        shared.over,
        &mut pass,
        writer,
    );
    (pass, (writer, Some(watched)))
}

/// What a watcher leaves: its pass, its writer, and how it ended, if the node was followed.
pub type WatcherLeft<'p, 'w, A, W> = (Pass<'p, A>, (&'w mut W, Option<Watched>));

/// The work of a watcher: with what it watches, if the node is followed.
#[derive(Drop)]
pub struct Watching<'x, 'a, 'p, 'w, A: AgentName, R, C, W>
where
    Published<A>: Absorb<Update<A>, State = [Event; 0]>,
{
    shared: &'x Shared<'a, R, C>,
    followed: bool,
    pass: Pass<'p, A>,
    writer: &'w mut W,
}

impl<'x, 'a, 'p, 'w, A: AgentName, R, C, W> Watching<'x, 'a, 'p, 'w, A, R, C, W> {
    /// The work of a watcher with this pass, which tells on the writer what the node learns, if the node is followed.
    pub fn new(
        shared: &'x Shared<'a, R, C>,
        followed: bool,
        pass: Pass<'p, A>,
        writer: &'w mut W,
    ) -> Watching<'x, 'a, 'p, 'w, A, R, C, W>
        ensures followed { result.followed ≡ followed }
        ensures pass { result.pass ≡ pass.entry }
        ensures writer { result.writer ≡ writer.entry }
    {
        Watching {
            shared,
            followed,
            pass,
            writer,
        }
    }
}

impl<'x, 'a, 'p, 'w, A, R, C, W> Work<WatcherLeft<'p, 'w, A, W>>
    for Watching<'x, 'a, 'p, 'w, A, R, C, W>
where
    A: AgentName,
    R: Wait + rt::Clock,
    C: Clock,
    W: Write,
{
    ghost needs = { λ w. Unit {0} };

    ghost gives = { λ w r. (r.1.0.ghost_name ≡ w.writer.ghost_name)
        × WatchesIf w.followed w.pass r.0 (W.contents w.writer.now) (W.contents r.1.0.now) r.1.1
        × (w.followed ≡ false → r.1.0.now ≡ w.writer.now) };

    fn is_wanted(&self) -> bool {
        self.followed
    }

    fn work(self) -> WatcherLeft<'p, 'w, A, W> {
        watch_if(self.shared, self.followed, self.pass, self.writer)
    }
}
