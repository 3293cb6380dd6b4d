//! A recorder of a node, in a thread beside the loops.
//!
//! When both loops have ended, the recorder is told so, and records what is left.
//!
//! Defined in: `specs/Meaning/Nodes.antt`, `lg_turns/specs/Meaning/Recorders.antt`.
//! Tested in: `lg_node_tests/src/node/recording.rt`, `cases/recordings`.
ghost use Rattle.std.specs.Prelude.{◌≡◌, is_some};
ghost use Rattle.lg_node.specs.Meaning.Nodes.{RecordsIf};

use crate::parts::Work;
use left_right::Absorb;
use lg_agent::{AgentName, Pass};
use lg_clock::Clock;
use lg_detector::Event;
use lg_turns::{NodeRecorder, RecorderSignal, Shared};
use lg_view::{Published, Update};
use std::sync::Wait;
use std::thread::Threads;
use std::{rt, thread};

/// Records with a pass until the node has ended, if it has a recorder. Otherwise it does nothing. Gives the pass back.
fn record_if<'p, A, R, C, K>(
    shared: &Shared<'_, R, C>,
    signal: &RecorderSignal,
    recorder: Option<K>,
    pass: Pass<'p, A>,
) -> Pass<'p, A>
where
    A: AgentName,
    R: Wait + rt::Clock,
    C: Clock,
    K: NodeRecorder,
    ensures { RecordsIf (is_some recorder) pass.entry result }
{
    match recorder {
        None => pass,
        Some(recorder) => recorder.record(shared, signal, pass),
    }
}

/// The work of a recorder: with what it records, if the node is recorded.
#[derive(Drop)]
pub(crate) struct Recording<'x, 'a, 'p, A: AgentName, R, C, K>
where
    Published<A>: Absorb<Update<A>, State = [Event; 0]>,
{
    shared: &'x Shared<'a, R, C>,
    signal: &'x RecorderSignal,
    recorder: Option<K>,
    pass: Pass<'p, A>,
}

impl<'x, 'a, 'p, A: AgentName, R, C, K> Recording<'x, 'a, 'p, A, R, C, K> {
    /// The work of a recorder with this pass, which is told by this signal that the node has ended.
    pub(crate) fn new(
        shared: &'x Shared<'a, R, C>,
        signal: &'x RecorderSignal,
        recorder: Option<K>,
        pass: Pass<'p, A>,
    ) -> Recording<'x, 'a, 'p, A, R, C, K>
        ensures recorder { result.recorder ≡ recorder }
        ensures pass { result.pass ≡ pass.entry }
    {
        Recording {
            shared,
            signal,
            recorder,
            pass,
        }
    }
}

impl<'x, 'a, 'p, A, R, C, K> Work<Pass<'p, A>> for Recording<'x, 'a, 'p, A, R, C, K>
where
    A: AgentName,
    R: Wait + rt::Clock,
    C: Clock,
    K: NodeRecorder,
{
    ghost use Rattle.std.specs.Prelude.{is_some};
    ghost use Rattle.lg_node.specs.Meaning.Nodes.{RecordsIf};

    ghost needs = { λ w. Unit {0} };

    ghost gives = { λ w r. RecordsIf (is_some w.recorder) w.pass r };

    fn is_wanted(&self) -> bool {
        self.recorder.is_some()
    }

    fn work(self) -> Pass<'p, A> {
        record_if(self.shared, self.signal, self.recorder, self.pass)
    }
}
