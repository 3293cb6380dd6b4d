//! A recorder of a node: it writes what the node does to the files of a folder.
//!
//! Defined in: `specs/Meaning/Sources.antt`, `lg_turns/specs/Meaning/Recorders.antt`.
//! Tested in: `lg_node_tests/src/node/recording.rt`, `cases/recordings`.

use crate::source::{EntrySource, Subject};
use lg_agent::{AgentName, Pass};
use lg_clock::Clock;
use lg_counters::{Counters, RecordedCounts};
use lg_recorder::{RecordFolder, RecordPace, Recorder, RecorderCounts, record_until};
use lg_text::FaultStream;
use lg_turns::{NodeRecorder, RecorderSignal, Shared};
use std::rt;
use std::sync::Wait;

/// Notes for the status server what was recorded, and waits for the signal of a node.
#[derive(Drop)]
struct SignalPace<'x, R> {
    rt: &'x R,
    counters: &'x Counters,
    signal: &'x RecorderSignal,
}

impl<R: Wait + rt::Clock> RecordPace for SignalPace<'_, R> {
    fn wait(&self, counts: RecorderCounts, most_ms: u64) {
        self.counters.note_recorded(RecordedCounts {
            entries: counts.entries,
            lost: counts.lost,
            bytes: counts.bytes,
            failures: counts.failures,
        });
        self.signal.wait_at_most(self.rt, most_ms);
    }
}

/// Records a node to a folder ([`record_until`]).
#[derive(Drop)]
pub struct NodeRecord<'n, F, T> {
    /// The folder.
    pub folder: F,
    /// Says which files are written.
    pub recorder: Recorder,
    /// Whose node it is.
    pub subject: Subject<'n>,
    /// A fault is reported here, the first since a batch was written whole.
    pub faults: T,
}

impl<'n, F: RecordFolder + Drop, T: FaultStream + Drop> NodeRecorder for NodeRecord<'n, F, T> {
    fn record<'p, A: AgentName, R: Wait + rt::Clock, C: Clock>(
        self,
        shared: &Shared<'_, R, C>,
        signal: &RecorderSignal,
        pass: Pass<'p, A>,
    ) -> Pass<'p, A> {
        let NodeRecord {
            mut folder,
            mut recorder,
            subject,
            mut faults,
        } = self;
        let mut pass = pass;
        let mut source = EntrySource::new(shared.rt, shared.alloc, shared.clock, subject);
        let pace = SignalPace {
            rt: shared.rt,
            counters: shared.counters,
            signal,
        };
        record_until(
            &mut recorder,
            &mut folder,
            &mut source,
            &mut pass,
            &pace,
            signal.has_ended(),
            &mut faults,
        );
        pass
    }
}
