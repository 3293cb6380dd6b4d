//! Which changes a ring keeps, which of them are behind a version, and how one ring catches up with another.
use lg_changes::{Altered, Behind, Change, Changes, MAX_CHANGES};
use lg_testing::{alive, at, failed, letter, suspect};
use std::alloc::{AllocError, Global};

/// A ring after so many changes. The first is after one event, and each is that a is alive at one incarnation more.
fn ring_after(alloc: Global, changes: u32) -> Result<Changes, AllocError> {
    let mut ring = Changes::new(alloc)?;
    for number in 1..=changes {
        let version = u64::from(number);
        ring.keep_changed(version, at(version), &[alive(b'a', number)]);
    }
    Ok(ring)
}

/// Whether a change is the one of a number.
fn is_of(change: &Change, number: u32) -> bool {
    change.version == u64::from(number)
        && change.moment == at(u64::from(number))
        && change.altered == Altered::Recorded(alive(b'a', number))
}

/// Whether changes are those from one number to the one before another.
fn are_from(changes: &[Change], first: u32, end: u32) -> bool {
    changes.len() == (first..end).count()
        && changes
            .iter()
            .zip(first..end)
            .all(|(change, number)| is_of(change, number))
}

/// The number of the first of some changes, and the one behind the last. None if one of them is no longer kept.
type Wanted = Option<(u32, u32)>;

/// How many changes there are, a version, and the changes behind it.
const ROWS: &[(u32, u64, Wanted)] = &[
    (0, 0, Some((1, 1))),
    (3, 1, Some((2, 4))),
    (3, 3, Some((4, 4))),
    (3, 9, Some((4, 4))),
    (1024, 0, Some((1, 1025))),
    (1025, 0, None),
    (1025, 1, Some((2, 1026))),
    (1025, 1024, Some((1025, 1026))),
    (1025, 1025, Some((1026, 1026))),
    (3000, 1975, None),
    (3000, 1976, Some((1977, 3001))),
];

/// Whether these are the changes behind a version in a ring.
fn has_after(alloc: Global, ring: &Changes, version: u64, wanted: Wanted) -> bool {
    match (ring.after(alloc, version), wanted) {
        (Ok(None), None) => true,
        (Ok(Some(found)), Some((first, end))) => are_from(&found, first, end),
        _ => false,
    }
}

/// 1,024 changes are kept, and one more forgets the oldest. A ring that forgot a change behind a version says so.
#[test]
fn keeps_the_newest(rt: HostRuntime) {
    for row in ROWS {
        let (changes, version, wanted) = *row;
        let is_met = ring_after(rt.alloc(), changes).is_ok_and(|ring| has_after(
            rt.alloc(),
            &ring,
            version,
            wanted,
        ));
        assert!(rt; is_met, "{row:?}");
    }
    assert!(rt; MAX_CHANGES == 1024);
}

/// The version of the newest change, after so many. It is kept if older changes are forgotten.
#[test]
fn knows_the_newest(rt: HostRuntime) {
    for changes in [0, 1, 3, 1024, 1025, 3000] {
        let ring = ring_after(rt.alloc(), changes);
        let is_met = ring
            .as_ref()
            .is_ok_and(|ring| ring.last_version() == u64::from(changes));
        assert!(rt; is_met, "{changes}");
    }
}

/// Four events: by the first c is alive, the second changes nothing, and by the third a is suspected and c has failed.
/// By the fourth c is forgotten, and then e, and d is alive.
fn after_four_events(alloc: Global) -> Result<Changes, AllocError> {
    let mut ring = Changes::new(alloc)?;
    ring.keep_changed(30, at(4000), &[alive(b'c', 2)]);
    ring.keep_forgotten(35, at(4500), &[]);
    ring.keep_changed(35, at(4500), &[]);
    ring.keep_changed(41, at(5120), &[suspect(b'a', 0, b'c'), failed(b'c', 2)]);
    ring.keep_forgotten(50, at(9000), &[letter(b'c'), letter(b'e')]);
    ring.keep_changed(50, at(9000), &[alive(b'd', 1)]);
    Ok(ring)
}

/// What was altered at a version and a moment.
fn change(version: u64, milliseconds: u64, altered: Altered) -> Change {
    Change {
        version,
        moment: at(milliseconds),
        altered,
    }
}

/// The changes of one event have its version and its moment, and are in the order of its names and its records.
#[test]
fn keeps_each_change(rt: HostRuntime) {
    let wanted = [
        change(30, 4000, Altered::Recorded(alive(b'c', 2))),
        change(41, 5120, Altered::Recorded(suspect(b'a', 0, b'c'))),
        change(41, 5120, Altered::Recorded(failed(b'c', 2))),
        change(50, 9000, Altered::Forgotten(letter(b'c'))),
        change(50, 9000, Altered::Forgotten(letter(b'e'))),
        change(50, 9000, Altered::Recorded(alive(b'd', 1))),
    ];
    for (version, passed) in [(0, 0), (29, 0), (30, 1), (40, 1), (41, 3), (49, 3), (50, 6)] {
        let found = after_four_events(rt.alloc()).and_then(|ring| ring.after(rt.alloc(), version));
        let is_met = match &found {
            Ok(Some(found)) => found.iter().eq(wanted.iter().skip(passed)),
            _ => false,
        };
        assert!(rt; is_met, "{version}: {found:?}");
    }
}

/// What a ring after so many changes has behind a version.
fn behind(alloc: Global, changes: u32, version: u64) -> Result<Behind, AllocError> {
    let ring = ring_after(alloc, changes)?;
    ring.behind(alloc, version)
}

/// A ring has all changes behind a version, or a copy of itself if it forgot one of them.
#[test]
fn has_all_behind_or_a_copy(rt: HostRuntime) {
    for row in ROWS {
        let (changes, version, wanted) = *row;
        let is_met = match (behind(rt.alloc(), changes, version), wanted) {
            (Ok(Behind::All(found)), Some((first, end))) => are_from(&found, first, end),
            (Ok(Behind::Missed(copy)), None) => copy.last_version() == u64::from(changes),
            _ => false,
        };
        assert!(rt; is_met, "{row:?}");
    }
}

/// A ring after so many changes that caught up with one after more.
fn caught_up(alloc: Global, fewer: u32, more: u32) -> Result<Changes, AllocError> {
    let newer = ring_after(alloc, more)?;
    let mut ring = ring_after(alloc, fewer)?;
    let found = newer.behind(alloc, u64::from(fewer))?;
    ring.catch_up(found);
    Ok(ring)
}

/// A ring that caught up keeps the newest 1,024 of all changes, also if the other ring forgot some that it lacked.
#[test]
fn catches_up(rt: HostRuntime) {
    let rows = [
        (3, 5, 0, Some((1, 6))),
        (3, 5, 2, Some((3, 6))),
        (3, 5, 4, Some((5, 6))),
        (3, 5, 5, Some((6, 6))),
        (5, 5, 0, Some((1, 6))),
        (0, 1024, 0, Some((1, 1025))),
        (1, 1025, 0, None),
        (1, 1025, 1, Some((2, 1026))),
        (1020, 1030, 5, None),
        (1020, 1030, 6, Some((7, 1031))),
        (0, 1025, 0, None),
        (0, 1025, 1, Some((2, 1026))),
        (3, 3000, 3, None),
        (3, 3000, 1975, None),
        (3, 3000, 1976, Some((1977, 3001))),
        (3, 3000, 3000, Some((3001, 3001))),
    ];
    for row in rows {
        let (fewer, more, version, wanted) = row;
        let is_met = caught_up(rt.alloc(), fewer, more).is_ok_and(|ring| {
            ring.last_version() == u64::from(more) && has_after(rt.alloc(), &ring, version, wanted)
        });
        assert!(rt; is_met, "{row:?}");
    }
}
