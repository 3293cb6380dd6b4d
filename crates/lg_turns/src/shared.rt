//! What a loop takes: what the loops of a node share, and its own side.
//!
//! Defined in: this file, `specs/Meaning/Turns.antt`.
//! Tested in: `lg_node_tests/src/node/both.rt`.
ghost use Rattle.std.specs.Prelude.{◌≡◌};
ghost use Rattle.lg_turns.specs.Meaning.Turns.{unstarted};

use crate::changes::ChangeSignal;
use crate::ending::{Ended, LoopEnd, Why};
use crate::recording::RecorderSignal;
use crate::resolved::ResolvedSeeds;
use left_right::Absorb;
use lg_agent::{AgentName, Pass};
use lg_clock::DeadlineSignal;
use lg_counters::{Counters, Noted};
use lg_detector::{Event, Reply};
use lg_http::Signal;
use lg_rules::Name;
use lg_timing::Moment;
use lg_view::{Published, Update};
use std::alloc::Global;
use std::sync::Wait;
use std::sync::atomic::AtomicBool;
use std::sync::atomic::Ordering::SeqCst;

/// The most turns that a loop of a node makes before it counts them anew or ends: 1,000,000,000.
pub const MAX_TURNS: u64 = 1_000_000_000;

/// What the loops of a node share.
#[derive(Drop)]
pub struct Shared<'a, R, C> {
    /// The machine, whose threads and locks the loops use.
    pub rt: &'a R,
    /// From it each call takes its memory.
    pub alloc: Global,
    /// The clock.
    pub clock: &'a C,
    /// Whether the ticking loop is to stop. The receiving loop sets it too when it ends.
    pub stop: &'a AtomicBool,
    /// Whether the ticking loop has ended, which sets it. Then the receiving one ends, and those who look.
    pub over: &'a AtomicBool,
    /// Whether a Page was heard: then some member's table is known. The receiving loop sets it.
    pub page_heard: &'a AtomicBool,
    /// The group that the member belongs to, if it has one. What names another is counted.
    pub group: Option<Name>,
    /// What the loops count for the status server.
    pub counters: &'a Counters,
    /// Set when a record has changed, or a member was forgotten.
    pub changes: &'a ChangeSignal,
    /// By which the status server, if there is one, is woken when a record has changed, or a member was forgotten.
    pub signal: Option<&'a Signal>,
    /// How many turns each loop may make, at most [`MAX_TURNS`]. With 0 a loop ends at once, unless it is endless.
    pub bound: u64,
    /// Whether a loop that has made so many turns counts them anew and goes on.
    pub endless: bool,
    /// How long one turn of the receiving loop waits for a datagram at most, in milliseconds.
    pub wait_ms: u64,
    /// How long one turn of the ticking loop pauses at most, in milliseconds.
    pub pause_ms: u64,
    /// By which a pause of the ticking loop ends early. The receiving loop tells it the deadlines of its replies, and
    /// that the loop is to stop. Who resolves hosts tells it that there are addresses to learn.
    pub deadlines: &'a DeadlineSignal,
    /// Which addresses the hosts among the seeds were found to have.
    pub resolved: &'a ResolvedSeeds,
    /// By which the recorder, if the node is recorded, is woken: when many calls were answered, when the first that it
    /// hasn't recorded is a while ago, and when the node has ended.
    pub recorder: Option<&'a RecorderSignal>,
}

impl<'a, R: Wait, C> Shared<'a, R, C> {
    /// Adds what a call counts that was answered at a moment by this reply. If a record changed, or a member was
    /// forgotten, it wakes those who look at the agent for that: the status server, and the watcher of a node that is
    /// followed. The recorder of a node that is recorded is told of each call. Allocates nothing.
    pub fn note(&self, now: Moment, reply: &Reply, noted: &Noted) {
        self.counters.note(now, noted);
        if let Some(recorder) = self.recorder {
            recorder.note(self.rt, now, reply.next > now.milliseconds());
        }
        if reply.changed.len() == 0 && reply.forgotten.len() == 0 {
            return;
        }
        self.changes.set(self.rt);
        if let Some(signal) = self.signal {
            signal.published();
        }
    }
}

/// What one loop works with: the pass that it calls, and its link.
#[derive(Drop)]
pub struct Side<'a, L, A: AgentName>
where
    Published<A>: Absorb<Update<A>, State = [Event; 0]>,
{
    /// The pass.
    pub pass: Pass<'a, A>,
    /// The link.
    pub link: L,
}

impl<'a, L, A: AgentName> Side<'a, L, A> {
    /// A side with this pass and this link.
    pub fn new(pass: Pass<'a, A>, link: L) -> Side<'a, L, A>
        ensures pass { result.pass ≡ pass.entry }
        ensures link { result.link ≡ link }
    {
        Side { pass, link }
    }

    /// What the loop of this side gives back, with this end.
    pub fn ended(self, end: LoopEnd) -> Ended<L, A>
        ensures link { result.link ≡ self.entry.link }
        ensures spent { result.spent ≡ self.entry.pass }
        ensures end { result.end ≡ end }
    {
        let Side { pass, link } = self;
        Ended {
            link,
            spent: pass.finish(),
            end,
        }
    }

    /// Ends the loop of this side: sets the flag by which the other loop ends, and gives back what [`Side::ended`]
    /// does.
    pub fn end_loop(self, flag: &AtomicBool, end: LoopEnd) -> Ended<L, A>
        ensures link { result.link ≡ self.entry.link }
        ensures spent { result.spent ≡ self.entry.pass }
        ensures end { result.end ≡ end }
    {
        flag.store(true, SeqCst);
        self.ended(end)
    }

    /// What a ticking loop leaves that makes no turn, since no thread could be started for the receiving one: its end
    /// is [`Why::Stopped`] with no turns.
    pub fn unstarted(self) -> Ended<L, A>
        ensures link { result.link ≡ self.entry.link }
        ensures spent { result.spent ≡ self.entry.pass }
        ensures end { result.end ≡ unstarted }
    {
        self.ended(LoopEnd {
            why: Why::Stopped,
            dropped: 0,
            unsent: 0,
            turns: 0,
        })
    }
}
