//! The metrics of a node that have one value each: one table of their names, helps, types and values.
//!
//! Defined in: `specs/Meaning/MetricTable.antt`.
//! Tested in: `lg_answers_tests/src/answer.rt`, `lg_answers_tests/src/metrics.rt`.
ghost use Rattle.std.specs.Prelude.{◌≡◌};
ghost use Rattle.lg_answers.specs.Meaning.MetricTable.{bit_of, metric_amount, metric_help, metric_name, metric_type};

use crate::snapshot::Snapshot;

/// A metric that has one value.
#[derive(Clone, Copy, Debug, PartialEq, Eq)]
pub(crate) enum Metric {
    /// The health score.
    HealthScore,
    /// The incarnation.
    Incarnation,
    /// Whether this member is ousted.
    Ousted,
    /// Events.
    Events,
    /// When the last event came.
    LastEvent,
    /// How long the node has run.
    Uptime,
    /// How long it stood still.
    StoodStill,
    /// Datagrams received.
    Received,
    /// Datagrams sent.
    Sent,
    /// Datagrams that couldn't be sent.
    Unsent,
    /// Probes begun.
    ProbesBegun,
    /// Probes failed.
    ProbesFailed,
    /// Probes made as a helper.
    ProbesHelped,
    /// Suspicions raised.
    SuspicionsRaised,
    /// Suspicions refuted.
    SuspicionsRefuted,
    /// Members forgotten.
    MembersForgotten,
    /// Entries of the history.
    HistoryEntries,
    /// Rotations of the history.
    HistoryRotations,
    /// Calls refused.
    CallsRefused,
    /// Entries recorded.
    RecordedEntries,
    /// Bytes recorded.
    RecordedBytes,
    /// Entries that weren't recorded.
    RecordingLost,
    /// Batches that weren't recorded whole.
    RecordingFailures,
}

/// All of them, in the order in which they are shown.
pub(crate) const METRICS: [Metric; 23] = [
    Metric::HealthScore,
    Metric::Incarnation,
    Metric::Ousted,
    Metric::Events,
    Metric::LastEvent,
    Metric::Uptime,
    Metric::StoodStill,
    Metric::Received,
    Metric::Sent,
    Metric::Unsent,
    Metric::ProbesBegun,
    Metric::ProbesFailed,
    Metric::ProbesHelped,
    Metric::SuspicionsRaised,
    Metric::SuspicionsRefuted,
    Metric::MembersForgotten,
    Metric::HistoryEntries,
    Metric::HistoryRotations,
    Metric::CallsRefused,
    Metric::RecordedEntries,
    Metric::RecordedBytes,
    Metric::RecordingLost,
    Metric::RecordingFailures,
];

/// The value of a metric: a number, or a time in milliseconds, which is shown in seconds.
#[derive(Clone, Copy, Debug, PartialEq, Eq)]
pub(crate) enum Amount {
    /// A number.
    Number(u64),
    /// A time in milliseconds.
    Milliseconds(u64),
}

/// 1 if something is so, or else 0.
fn bit_of(truth: bool) -> u64
    ensures { result ≡ bit_of truth }
{
    if truth { 1 } else { 0 }
}

impl Metric {
    /// The name, by the conventions of Prometheus: with its unit, and `_total` at the end of a counter.
    pub(crate) fn name(self) -> &'static str
        ensures { result.now ≡ metric_name self }
    {
        match self {
            Metric::HealthScore => "lg_health_score",
            Metric::Incarnation => "lg_incarnation",
            Metric::Ousted => "lg_ousted",
            Metric::Events => "lg_events_total",
            Metric::LastEvent => "lg_last_event_seconds",
            Metric::Uptime => "lg_uptime_seconds",
            Metric::StoodStill => "lg_stood_still_seconds_total",
            Metric::Received => "lg_datagrams_received_total",
            Metric::Sent => "lg_datagrams_sent_total",
            Metric::Unsent => "lg_datagrams_unsent_total",
            Metric::ProbesBegun => "lg_probes_begun_total",
            Metric::ProbesFailed => "lg_probes_failed_total",
            Metric::ProbesHelped => "lg_probes_helped_total",
            Metric::SuspicionsRaised => "lg_suspicions_raised_total",
            Metric::SuspicionsRefuted => "lg_suspicions_refuted_total",
            Metric::MembersForgotten => "lg_members_forgotten_total",
            Metric::HistoryEntries => "lg_history_entries_total",
            Metric::HistoryRotations => "lg_history_rotations_total",
            Metric::CallsRefused => "lg_calls_refused_total",
            Metric::RecordedEntries => "lg_recorded_entries_total",
            Metric::RecordedBytes => "lg_recorded_bytes_total",
            Metric::RecordingLost => "lg_recording_lost_entries_total",
            Metric::RecordingFailures => "lg_recording_failures_total",
        }
    }

    /// What it is, in words.
    pub(crate) fn help(self) -> &'static str
        ensures { result.now ≡ metric_help self }
    {
        match self {
            Metric::HealthScore => "Health score of this member, 0 at best.",
            Metric::Incarnation => "Incarnation of this member.",
            Metric::Ousted => "Whether this member is ousted: 1 if it is.",
            Metric::Events => "Events that the members are after.",
            Metric::LastEvent => "Moment of the last event, by the clock of the node.",
            Metric::Uptime => "Time since the start of the node.",
            Metric::StoodStill => "Time in which the node stood still.",
            Metric::Received => "Datagrams received, those with a fault too.",
            Metric::Sent => "Datagrams sent.",
            Metric::Unsent => "Datagrams that could not be sent.",
            Metric::ProbesBegun => "Probes begun, one a round.",
            Metric::ProbesFailed => "Probes that no Ack ended in time.",
            Metric::ProbesHelped => "Probes made for other members.",
            Metric::SuspicionsRaised => "Suspicions raised, of any member.",
            Metric::SuspicionsRefuted => "Suspicions of this member that it refuted.",
            Metric::MembersForgotten => "Members forgotten, those that became known again too.",
            Metric::HistoryEntries => "Entries that the history took.",
            Metric::HistoryRotations => "Rotations of the history.",
            Metric::CallsRefused => "Calls that were refused.",
            Metric::RecordedEntries => "Entries recorded.",
            Metric::RecordedBytes => "Bytes recorded.",
            Metric::RecordingLost => "Entries that were to be recorded and were not.",
            Metric::RecordingFailures => "Batches of entries that were not recorded whole.",
        }
    }

    /// Its type: a counter only grows from the start of the node on.
    pub(crate) fn type_name(self) -> &'static str
        ensures { result.now ≡ metric_type self }
    {
        match self {
            Metric::HealthScore
            | Metric::Incarnation
            | Metric::Ousted
            | Metric::LastEvent
            | Metric::Uptime => "gauge",
            _ => "counter",
        }
    }

    /// Its value in a look.
    pub(crate) fn amount(self, snapshot: &Snapshot) -> Amount
        ensures { result ≡ metric_amount self snapshot.now }
    {
        match self {
            Metric::HealthScore => Amount::Number(snapshot.score),
            Metric::Incarnation => Amount::Number(u64::from(snapshot.incarnation.number())),
            Metric::Ousted => Amount::Number(bit_of(snapshot.ousted)),
            Metric::Events => Amount::Number(snapshot.version),
            Metric::LastEvent => Amount::Milliseconds(snapshot.last_event_ms),
            Metric::Uptime => Amount::Milliseconds(snapshot.uptime_ms),
            Metric::StoodStill => Amount::Milliseconds(snapshot.stood_still_ms),
            Metric::Received => Amount::Number(snapshot.counts.received),
            Metric::Sent => Amount::Number(snapshot.counts.sent),
            Metric::Unsent => Amount::Number(snapshot.counts.unsent),
            Metric::ProbesBegun => Amount::Number(snapshot.counts.probes_begun),
            Metric::ProbesFailed => Amount::Number(snapshot.counts.probes_failed),
            Metric::ProbesHelped => Amount::Number(snapshot.counts.probes_helped),
            Metric::SuspicionsRaised => Amount::Number(snapshot.counts.suspicions_raised),
            Metric::SuspicionsRefuted => Amount::Number(snapshot.counts.suspicions_refuted),
            Metric::MembersForgotten => Amount::Number(snapshot.counts.members_forgotten),
            Metric::HistoryEntries => Amount::Number(snapshot.counts.history_entries),
            Metric::HistoryRotations => Amount::Number(snapshot.counts.history_rotations),
            Metric::CallsRefused => Amount::Number(snapshot.counts.calls_refused),
            Metric::RecordedEntries => Amount::Number(snapshot.counts.recorded.entries),
            Metric::RecordedBytes => Amount::Number(snapshot.counts.recorded.bytes),
            Metric::RecordingLost => Amount::Number(snapshot.counts.recorded.lost),
            Metric::RecordingFailures => Amount::Number(snapshot.counts.recorded.failures),
        }
    }
}
