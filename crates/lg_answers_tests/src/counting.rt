//! What a node counts: the datagrams that a keyed link drops, packets of other groups, and the calls of two loops at
//! once.

use lg_answers::Counts;
use lg_counters::{Counters, Noted, RecordedCounts, Tally};
use lg_packet::Fault;
use lg_rules::Name;
use lg_testing::at;
use std::thread::join;

/// Datagrams that aren't sealed count as received, and each by its fault. A packet of another group is counted as such
/// alone, since its datagram was counted before. The opening is the first event, and none of these is one.
#[test]
fn counts_unsealed_datagrams(rt: HostRuntime) {
    let counters = Counters::new(Name::default(), at(7));
    counters.note_unsigned();
    counters.note_forged();
    counters.note_forged();
    counters.note_other_group();
    assert_eq!(rt; (counters.counts().received, counters.last_event()), (3, 7));
    let drops = counters.drops();
    for (fault, want) in [
        ("Trailing", 0),
        ("Unsigned", 1),
        ("Forged", 2),
        ("OtherGroup", 1),
    ] {
        let met = drops
            .iter()
            .any(|row| row.fault == fault && row.count == want);
        assert!(rt; met, "{fault}");
    }
}

/// How many calls each of two threads counts.
const CALLS: u64 = 10_000;

/// What is counted of each call.
const NOTED: Noted = Noted {
    sent: 2,
    unsent: 3,
    tally: Tally {
        probe_begun: true,
        probe_failed: true,
        probe_helped: true,
        suspicions_raised: 4,
        refuted: true,
        members_forgotten: 5,
    },
};

/// Counts the calls of one thread, each with a datagram that is received and dropped, a rotation and a refused call.
fn count_calls(counters: &Counters) {
    for _ in 0..CALLS {
        counters.note_received();
        counters.note_dropped(Fault::Magic);
        counters.note_rotated();
        counters.note_refused();
        counters.note(at(5), &NOTED);
    }
}

/// What a recorder has counted.
const RECORDED: RecordedCounts = RecordedCounts {
    entries: 7,
    lost: 2,
    bytes: 900,
    failures: 1,
};

/// What two threads count at once adds up: no count of one is lost to the other.
#[test]
fn counts_of_two_threads_add_up(rt: HostRuntime) {
    let counters = Counters::new(Name::default(), at(0));
    join(&rt, || count_calls(&counters), || count_calls(&counters));
    counters.note_recorded(RecordedCounts::default());
    counters.note_recorded(RECORDED);
    let calls = 2 * CALLS;
    let want = Counts {
        received: calls,
        sent: 2 * calls,
        unsent: 3 * calls,
        probes_begun: calls,
        probes_failed: calls,
        probes_helped: calls,
        suspicions_raised: 4 * calls,
        suspicions_refuted: calls,
        members_forgotten: 5 * calls,
        history_entries: calls + 1,
        history_rotations: calls,
        calls_refused: calls,
        recorded: RECORDED,
    };
    assert_eq!(rt; counters.counts(), want);
    assert_eq!(rt; counters.last_event(), 5);
    let magic = counters
        .drops()
        .iter()
        .any(|row| row.fault == "Magic" && row.count == calls);
    assert!(rt; magic);
}
