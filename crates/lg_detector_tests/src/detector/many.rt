//! More names than a table holds.
use crate::playing::{opened, play_on};
use lg_detector::MAX_MEMBERS;
use lg_detector_testing::Happens::Ping;
use lg_detector_testing::Step::{self, Acks, Changed, Changes, Known, Members, Takes};
use lg_rules::Record;
use lg_testing::says::Said::{self, Alive, Numbered};
use lg_testing::says::claim_of;

/// Six members, the one with the greatest number first.
fn six_below(end: u32) -> [Said; 6] {
    [1, 2, 3, 4, 5, 6].map(|back| Numbered(end.saturating_sub(back)))
}

/// There is no room for a, and the record of c is raised. There was no room for the four names that came last either.
const NO_MORE_ROOM: &[Step<'static>] = &[
    Members(MAX_MEMBERS),
    Takes(Ping(0, 3, "b", &[Alive("a", 0), Alive("c", 3)])),
    Changed(&[Alive("c", 3)]),
    Members(MAX_MEMBERS),
    Known("a", None),
    Acks(
        3,
        &[
            Alive("c", 3),
            Numbered(4),
            Numbered(5),
            Numbered(6),
            Numbered(7),
            Numbered(8),
        ],
    ),
];

/// In a full table a record that is there can still change.
#[test]
fn changes_where_there_is_room(rt: HostRuntime) {
    let mut detector = opened(&rt, rt.alloc());
    let before = [Takes(Ping(0, 1, "c", &[Alive("c", 2)]))];
    play_on(&rt, &mut detector, "before", &before);
    for packet in 0..43 {
        let six = six_below(258 - 6 * packet);
        let steps = [Takes(Ping(0, 2, "c", &six))];
        play_on(&rt, &mut detector, "six members", &steps);
    }
    play_on(&rt, &mut detector, "no more room", NO_MORE_ROOM);
}

/// Whether these records are those of b and of the numbered members from 45 on.
fn are_first_names(records: &[Record]) -> bool {
    records.len() == MAX_MEMBERS
        && records.first().copied() == Some(claim_of(&Alive("b", 0)))
        && (45..300)
            .zip(records.iter().skip(1))
            .all(|(number, record)| *record == claim_of(&Numbered(number)))
}

/// Of 300 names those that came first are known.
#[test]
fn knows_the_first_names(rt: HostRuntime) {
    let mut detector = opened(&rt, rt.alloc());
    for packet in 0..50 {
        let changes = match packet {
            0..42 => 6,
            42 => 3,
            _ => 0,
        };
        let six = six_below(300 - 6 * packet);
        let steps = [Takes(Ping(0, 1, "c", &six)), Changes(changes)];
        play_on(&rt, &mut detector, "six members", &steps);
    }
    let table = detector.table(rt.alloc()).expect(&rt, "there is memory");
    assert!(rt; are_first_names(table.as_slice()), "{table:?}");
}
