//! How a node is recorded: what its start needs of a recorder, and what the loops and it tell each other.
//!
//! Defined in: `specs/Meaning/Recorders.antt`.
//! Tested in: `lg_node_tests/src/node/recording.rt`.
ghost use Rattle.lg_turns.specs.Meaning.Recorders.{OnlyRotated};

use crate::changes::ChangeSignal;
use crate::shared::Shared;
use lg_agent::{AgentName, Pass};
use lg_clock::Clock;
use lg_timing::Moment;
use std::rt;
use std::sync::Wait;
use std::sync::atomic::Ordering::SeqCst;
use std::sync::atomic::{AtomicBool, AtomicU64};

/// How long after the first call that it hasn't recorded yet a recorder is woken by another one, in milliseconds (this
/// project's choice). It is less than a recorder waits by itself: on many virtual machines a wait that ends by its own
/// time takes far more of the processor's time than one that another thread ends.
const WAKE_MS: u64 = 800;

/// The moment of no call: a node's clock never shows it.
const NEVER_MS: u64 = u64::MAX;

/// By which a recorder is woken: when many calls were answered, when the first that it hasn't recorded is a while ago,
/// and when the node has ended. Threads share it by reference. No call allocates.
#[derive(Drop)]
pub struct RecorderSignal {
    woken: ChangeSignal,
    /// How many calls were answered.
    calls: AtomicU64,
    /// After how many calls the recorder is woken, at least 1.
    every: u64,
    /// At which moment of the node's clock the first call was answered since the recorder woke last, in milliseconds.
    first_ms: AtomicU64,
    /// Whether the node has ended.
    ended: AtomicBool,
}

impl RecorderSignal {
    /// One for a node whose history has at most so many entries. It wakes its recorder whenever a quarter as many calls
    /// were answered, so that the history is cut off before it is full (this project's choice).
    pub fn new(history_limit: u64) -> RecorderSignal {
        RecorderSignal {
            woken: ChangeSignal::new(),
            calls: AtomicU64::new(0),
            every: (history_limit / 4).max(1),
            first_ms: AtomicU64::new(NEVER_MS),
            ended: AtomicBool::new(false),
        }
    }

    /// A call was answered at a moment. `is_rest` says that no timer of the detector is due after it. While one is, the
    /// ticking loop's next call needs the lock that the recorder needs too, so a late call alone doesn't wake it.
    pub fn note<R: Wait>(&self, rt: &R, now: Moment, is_rest: bool) {
        let every = self.every.max(1);
        let is_many = self.calls.fetch_add(1, SeqCst) % every == every - 1;
        let is_late = self.is_late(now);
        if is_many || (is_late && is_rest) {
            self.woken.set(rt);
        }
    }

    /// Whether the first call since the recorder woke last is a while ago. If there was none, this one is the first.
    fn is_late(&self, now: Moment) -> bool {
        let now_ms = now.milliseconds();
        let first_ms = self.first_ms.load(SeqCst);
        if first_ms == NEVER_MS {
            self.first_ms.store(now_ms, SeqCst);
            return false;
        }
        now_ms.saturating_sub(first_ms) >= WAKE_MS
    }

    /// The node has ended: its recorder is to record what is left, and to end.
    pub fn end<R: Wait>(&self, rt: &R) {
        self.ended.store(true, SeqCst);
        self.woken.set(rt);
    }

    /// Whether the node has ended.
    pub fn has_ended(&self) -> &AtomicBool {
        &self.ended
    }

    /// Waits until it is woken, for so many milliseconds at most. If it was woken since the last wait, this doesn't
    /// wait.
    pub fn wait_at_most<R: Wait + rt::Clock>(&self, rt: &R, ms: u64) {
        self.woken.wait_at_most(rt, ms);
        self.first_ms.store(NEVER_MS, SeqCst);
    }
}

/// Records what happens to a node.
pub trait NodeRecorder {
    /// Records with a pass of the node's agent until the signal says that the node has ended, and then once more. It
    /// rotates the history and makes no call. Gives the pass back.
    fn record<'p, A: AgentName, R: Wait + rt::Clock, C: Clock>(
        self,
        shared: &Shared<'_, R, C>,
        signal: &RecorderSignal,
        pass: Pass<'p, A>,
    ) -> Pass<'p, A>
        ensures { OnlyRotated pass.entry result };
}

/// The recorder of a node that isn't recorded. None is ever made by the program.
#[derive(Clone, Copy, Debug)]
pub struct Unrecorded;

impl NodeRecorder for Unrecorded {
    /// It records nothing.
    fn record<'p, A: AgentName, R: Wait + rt::Clock, C: Clock>(
        self,
        _shared: &Shared<'_, R, C>,
        _signal: &RecorderSignal,
        pass: Pass<'p, A>,
    ) -> Pass<'p, A> {
        pass
    }
}
