//! What the loops of a node count while they run.
//!
//! Defined in: `specs/Meaning/Faults.antt`.
//! Tested in: `lg_answers_tests/src/counting.rt`, `lg_answers_tests/src/showing.rt`, `cases/status`.
ghost use Rattle.std.specs.Prelude.{◌≡◌, ◌<◌, [], get_or};
ghost use Rattle.lg_counters.specs.Meaning.Faults.{AreOfFaults, fault_name, fault_names};

use crate::counts::{Counts, Drops, RecordedCounts};
use crate::noted::Noted;
use lg_packet::Fault;
use lg_rules::Name;
use lg_timing::Moment;
use std::sync::atomic::AtomicU64;
use std::sync::atomic::Ordering::Relaxed;

/// For how many faults datagrams are dropped: ten of the bytes of a packet, two of a datagram that isn't sealed as a
/// keyed link wants it, and one of a packet of another group.
pub const FAULTS: usize = 13;

/// The index of a datagram that isn't sealed in the version of the keyed link.
const UNSIGNED: usize = 10;

/// The index of a datagram that isn't sealed with one of the keys.
const FORGED: usize = 11;

/// The index of a packet of another group.
const OTHER_GROUP: usize = 12;

/// What a node counts from its start on. Threads share it by reference. No call waits, and none allocates. A count that
/// has come to 2^64 - 1 goes on from 0.
#[derive(Drop)]
pub struct Counters {
    name: Name,
    received: AtomicU64,
    sent: AtomicU64,
    unsent: AtomicU64,
    probes_begun: AtomicU64,
    probes_failed: AtomicU64,
    probes_helped: AtomicU64,
    suspicions_raised: AtomicU64,
    suspicions_refuted: AtomicU64,
    members_forgotten: AtomicU64,
    entries: AtomicU64,
    rotations: AtomicU64,
    refused: AtomicU64,
    recorded: AtomicU64,
    recording_lost: AtomicU64,
    recorded_bytes: AtomicU64,
    recording_failures: AtomicU64,
    last_event: AtomicU64,
    /// For each fault, in the order in which [`Counters::drops`] names them.
    dropped: [AtomicU64; FAULTS],
}

/// Adds to a count. An event mostly adds nothing to most of them, and then nothing is written.
fn add(count: &AtomicU64, more: u64) {
    if more > 0 {
        count.fetch_add(more, Relaxed);
    }
}

impl Counters {
    /// The counts of a node whose member has this name. The opening is its first event.
    pub fn new(name: Name, opened: Moment) -> Counters
        ensures { result.name ≡ name }
    {
        Counters {
            name,
            received: AtomicU64::new(0),
            sent: AtomicU64::new(0),
            unsent: AtomicU64::new(0),
            probes_begun: AtomicU64::new(0),
            probes_failed: AtomicU64::new(0),
            probes_helped: AtomicU64::new(0),
            suspicions_raised: AtomicU64::new(0),
            suspicions_refuted: AtomicU64::new(0),
            members_forgotten: AtomicU64::new(0),
            entries: AtomicU64::new(1),
            rotations: AtomicU64::new(0),
            refused: AtomicU64::new(0),
            recorded: AtomicU64::new(0),
            recording_lost: AtomicU64::new(0),
            recorded_bytes: AtomicU64::new(0),
            recording_failures: AtomicU64::new(0),
            last_event: AtomicU64::new(opened.milliseconds()),
            dropped: [
                AtomicU64::new(0),
                AtomicU64::new(0),
                AtomicU64::new(0),
                AtomicU64::new(0),
                AtomicU64::new(0),
                AtomicU64::new(0),
                AtomicU64::new(0),
                AtomicU64::new(0),
                AtomicU64::new(0),
                AtomicU64::new(0),
                AtomicU64::new(0),
                AtomicU64::new(0),
                AtomicU64::new(0),
            ],
        }
    }

    /// The name of the node's member.
    pub fn name(&self) -> Name
        ensures { result ≡ self.now.name }
    {
        self.name
    }

    /// A datagram was received.
    pub fn note_received(&self) {
        add(&self.received, 1);
    }

    /// A datagram was dropped, since its bytes have this fault.
    pub fn note_dropped(&self, fault: Fault) {
        add(&self.dropped[index_of(fault)], 1);
    }

    /// A datagram was received and dropped by a keyed link, since it isn't sealed.
    pub fn note_unsigned(&self) {
        self.note_received();
        add(&self.dropped[UNSIGNED], 1);
    }

    /// A datagram was received and dropped by a keyed link, since it isn't sealed with one of the keys.
    pub fn note_forged(&self) {
        self.note_received();
        add(&self.dropped[FORGED], 1);
    }

    /// A packet was heard that isn't of the member's group. It does nothing.
    pub fn note_other_group(&self) {
        add(&self.dropped[OTHER_GROUP], 1);
    }

    /// A call was refused, for another reason than the bytes of a datagram.
    pub fn note_refused(&self) {
        add(&self.refused, 1);
    }

    /// The history was rotated.
    pub fn note_rotated(&self) {
        add(&self.rotations, 1);
    }

    /// The recorder has counted so much from the start of the node on, in place of what it had counted before.
    pub fn note_recorded(&self, counts: RecordedCounts) {
        self.recorded.store(counts.entries, Relaxed);
        self.recording_lost.store(counts.lost, Relaxed);
        self.recorded_bytes.store(counts.bytes, Relaxed);
        self.recording_failures.store(counts.failures, Relaxed);
    }

    /// A call was answered at this moment, which makes one entry of the history. Each part of what it counts is added
    /// by itself.
    pub fn note(&self, now: Moment, noted: &Noted) {
        let tally = noted.tally;
        add(&self.entries, 1);
        add(&self.sent, noted.sent);
        add(&self.unsent, noted.unsent);
        add(&self.probes_begun, u64::from(tally.probe_begun));
        add(&self.probes_failed, u64::from(tally.probe_failed));
        add(&self.probes_helped, u64::from(tally.probe_helped));
        add(&self.suspicions_raised, tally.suspicions_raised as u64);
        add(&self.suspicions_refuted, u64::from(tally.refuted));
        add(&self.members_forgotten, tally.members_forgotten as u64);
        self.last_event.store(now.milliseconds(), Relaxed);
    }

    /// The counts as they are now, each read by itself.
    pub fn counts(&self) -> Counts {
        Counts {
            received: self.received.load(Relaxed),
            sent: self.sent.load(Relaxed),
            unsent: self.unsent.load(Relaxed),
            probes_begun: self.probes_begun.load(Relaxed),
            probes_failed: self.probes_failed.load(Relaxed),
            probes_helped: self.probes_helped.load(Relaxed),
            suspicions_raised: self.suspicions_raised.load(Relaxed),
            suspicions_refuted: self.suspicions_refuted.load(Relaxed),
            members_forgotten: self.members_forgotten.load(Relaxed),
            history_entries: self.entries.load(Relaxed),
            history_rotations: self.rotations.load(Relaxed),
            calls_refused: self.refused.load(Relaxed),
            recorded: RecordedCounts {
                entries: self.recorded.load(Relaxed),
                lost: self.recording_lost.load(Relaxed),
                bytes: self.recorded_bytes.load(Relaxed),
                failures: self.recording_failures.load(Relaxed),
            },
        }
    }

    /// The moment of the last event, in milliseconds.
    pub fn last_event(&self) -> u64 {
        self.last_event.load(Relaxed)
    }

    /// A row for each fault: how many datagrams were dropped for it, each read by itself. The faults of a packet come
    /// in the order of their numbers, then those of a datagram that isn't sealed, and then that of a packet of another
    /// group.
    pub fn drops(&self) -> [Drops; FAULTS]
        ensures { AreOfFaults result }
    {
        let [
            short,
            magic,
            version,
            kind,
            name,
            count,
            claim_kind,
            incarnation,
            trailing,
            family,
            unsigned,
            forged,
            other_group,
        ] = &self.dropped;
        [
            drops_of("Short", short),
            drops_of("Magic", magic),
            drops_of("Version", version),
            drops_of("Kind", kind),
            drops_of("Name", name),
            drops_of("Count", count),
            drops_of("ClaimKind", claim_kind),
            drops_of("Incarnation", incarnation),
            drops_of("Trailing", trailing),
            drops_of("Family", family),
            drops_of("Unsigned", unsigned),
            drops_of("Forged", forged),
            drops_of("OtherGroup", other_group),
        ]
    }
}

/// How many datagrams were dropped for a fault, as its count is read.
fn drops_of(fault: &'static str, count: &AtomicU64) -> Drops
    ensures { result.fault.now ≡ fault.now }
{
    Drops {
        fault,
        count: count.load(Relaxed),
    }
}

/// The index of a fault in the order of their numbers.
fn index_of(fault: Fault) -> usize
    ensures range { result < FAULTS }
    ensures named { get_or fault_names result [] ≡ fault_name fault }
{
    match fault {
        Fault::Short => 0,
        Fault::Magic => 1,
        Fault::Version => 2,
        Fault::Kind => 3,
        Fault::Name => 4,
        Fault::Count => 5,
        Fault::ClaimKind => 6,
        Fault::Incarnation => 7,
        Fault::Trailing => 8,
        Fault::Family => 9,
    }
}
