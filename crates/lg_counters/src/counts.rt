//! What is read of the counters of a node.
//!
//! Defined in: this file.
//! Tested in: `lg_answers_tests/src/counting.rt`, `lg_answers_tests/src/answer.rt`.

/// How many datagrams a node dropped for one fault of their bytes.
#[derive(Clone, Copy, Debug, PartialEq, Eq)]
pub struct Drops {
    /// The fault's name, such as `Magic`. It has letters only, so that no byte needs an escape.
    pub fault: &'static str,
    /// How many datagrams had it.
    pub count: u64,
}

/// What the recorder of a node counts from its start on. Without one all are 0.
#[derive(Clone, Copy, Debug, Default, PartialEq, Eq)]
pub struct RecordedCounts {
    /// Entries that were written.
    pub entries: u64,
    /// Entries that were cut off and not written.
    pub lost: u64,
    /// Bytes that were written.
    pub bytes: u64,
    /// Batches of entries that weren't written whole.
    pub failures: u64,
}

/// What a node counts from its start on.
#[derive(Clone, Copy, Debug, Default, PartialEq, Eq)]
pub struct Counts {
    /// Datagrams that were received, those with a fault too.
    pub received: u64,
    /// Datagrams that were sent.
    pub sent: u64,
    /// Datagrams that couldn't be sent.
    pub unsent: u64,
    /// Probes that were begun, one a round.
    pub probes_begun: u64,
    /// Probes that no Ack ended in time.
    pub probes_failed: u64,
    /// Probes of other members that this member made as a helper.
    pub probes_helped: u64,
    /// Suspicions that were raised, of any member.
    pub suspicions_raised: u64,
    /// Suspicions of this member that it refuted.
    pub suspicions_refuted: u64,
    /// Members that were forgotten, those that became known again too.
    pub members_forgotten: u64,
    /// Entries that the history took, with those that rotations cut off.
    pub history_entries: u64,
    /// Rotations of the history.
    pub history_rotations: u64,
    /// Calls that were refused.
    pub calls_refused: u64,
    /// What was recorded.
    pub recorded: RecordedCounts,
}
