//! Tables that tell that a member failed, heard by a member with version 3. Such a claim only accuses a member that
//! isn't gone here.
use crate::playing::{blank, play_blank, play_on, resume_each};
use lg_detector_testing::DetectorCase;
use lg_detector_testing::Happens::{FromIn, Health, In, Opens, PullAt, TickBy};
use lg_detector_testing::Setting::{self, Alpha, Confirmations, GossipMs, Own, Seed, Wire};
use lg_detector_testing::Step::{AnswersHealth, Changed, Deadline, Replies, Takes};
use lg_packet::Version::{self, One, Three, Two};
use lg_testing::Due::{Direct, Nothing, RoundEnd, RoundStart};
use lg_testing::bodies::Says::{self, Gossip, Page, Ping, PullFirst, Request};
use lg_testing::says::Member;
use lg_testing::says::Said::{self, Alive, AliveAt, Failed, FailedAt, Left, Suspect, SuspectAt};
use std::alloc::Global;
use std::process::Abort;

/// Who tells what in which packet to b, which knows that c is alive at 3, and the records that change. One packet comes
/// after another.
const ROWS: &[(Member, Says, &[Said], &[Said])] = &[
    ("a", Page, &[FailedAt("c", 2, 8)], &[]),
    (
        "a",
        Page,
        &[FailedAt("c", 3, 8)],
        &[SuspectAt("c", 3, "a", 8)],
    ),
    ("a", Page, &[FailedAt("c", 3, 8)], &[]),
    (
        "a",
        Page,
        &[FailedAt("c", 4, 8)],
        &[SuspectAt("c", 4, "a", 8)],
    ),
    ("a", Gossip, &[Failed("c", 4)], &[Failed("c", 4)]),
    ("a", Page, &[Failed("c", 4)], &[]),
    ("a", Page, &[Failed("c", 5)], &[Failed("c", 5)]),
    (
        "a",
        Page,
        &[Alive("c", 6), Failed("c", 6), Failed("c", 7)],
        &[Suspect("c", 7, "a")],
    ),
    ("c", Page, &[Failed("c", 7)], &[Failed("c", 7)]),
    ("a", Page, &[Failed("e", 0)], &[Failed("e", 0)]),
    ("a", Page, &[Failed("b", 0)], &[Alive("b", 1)]),
];

/// Plays the rows in packets of a version.
fn plays_rows(rt: &impl Abort, alloc: Global, version: Version) {
    let mut detector = blank(rt, alloc);
    let opened = [
        Takes(Opens(0, &[Wire(3)])),
        Takes(In(0, Three, "a", Gossip, &[Alive("c", 3)])),
    ];
    play_on(rt, &mut detector, "opened", &opened);
    for (sender, says, said, changed) in ROWS {
        let steps = [Takes(In(1, version, sender, *says, said)), Changed(changed)];
        play_on(rt, &mut detector, "a row", &steps);
    }
    let health = [Takes(Health(1)), AnswersHealth(0, 1, 1)];
    play_on(rt, &mut detector, "health", &health);
}

/// That c left is taken as it is. With `wire` 2 a table's failure is, too.
const AS_TOLD: &[DetectorCase] = &[
    (
        "a table says that c left",
        &[
            Takes(Opens(0, &[Wire(3), Seed("c", 7000)])),
            Takes(In(1, Three, "a", Page, &[Left("c", 0)])),
            Changed(&[Left("c", 0)]),
        ],
    ),
    (
        "a table is heard with wire 2",
        &[
            Takes(Opens(0, &[Wire(2), Seed("c", 7000)])),
            Takes(In(1, Three, "a", Page, &[Failed("c", 0)])),
            Changed(&[Failed("c", 0)]),
        ],
    ),
];

/// a knows b, c and d, and one accusation more brings the end of a suspicion nearer.
const A: &[Setting] = &[
    Own("a", 7001),
    Wire(3),
    GossipMs(0),
    Alpha(1),
    Confirmations(1),
    Seed("b", 7002),
    Seed("c", 7003),
    Seed("d", 7004),
];

/// The tables of c and of d, which both took b as failed.
const OF_C: &[Said] = &[
    AliveAt("a", 7001),
    FailedAt("b", 0, 7002),
    AliveAt("c", 7003),
];

const OF_D: &[Said] = &[
    AliveAt("a", 7001),
    FailedAt("b", 0, 7002),
    AliveAt("d", 7004),
];

/// What helpers are told with the request, and what b is told.
const NEWS: &[Said] = &[SuspectAt("b", 0, "d", 7002), AliveAt("a", 7001)];

const NEWS_TO_B: &[Said] = &[
    SuspectAt("b", 0, "c", 7002),
    SuspectAt("d", 0, "a", 7004),
    AliveAt("a", 7001),
];

/// The table of c makes a suspect b, accused by c. The same table again changes nothing. That of d accuses b too, so
/// that the suspicion is over sooner.
const ACCUSES: &[DetectorCase] = &[(
    "two tables",
    &[
        Takes(Opens(0, A)),
        Replies(
            TickBy(0, [2, 0, 0, 0, 0, 0, 0, 0]),
            RoundStart(0),
            &[("a", 7004, Ping(1, "d"), &[AliveAt("a", 7001)])],
            &[],
            500,
        ),
        Replies(
            PullAt(30, 7003),
            Nothing,
            &[("a", 7003, PullFirst, &[AliveAt("a", 7001)])],
            &[],
            500,
        ),
        Replies(
            FromIn(30, Three, "c", 7003, Page, OF_C),
            Nothing,
            &[],
            &[SuspectAt("b", 0, "c", 7002)],
            500,
        ),
        Replies(
            FromIn(40, Three, "c", 7003, Page, OF_C),
            Nothing,
            &[],
            &[],
            500,
        ),
        Replies(
            FromIn(50, Three, "d", 7004, Page, OF_D),
            Nothing,
            &[],
            &[],
            500,
        ),
        Replies(
            TickBy(500, [0; 8]),
            Direct(500),
            &[
                ("a", 7002, Request(1, "d", 7004), NEWS),
                ("a", 7003, Request(1, "d", 7004), NEWS),
            ],
            &[],
            1000,
        ),
        Replies(
            TickBy(1000, [0; 8]),
            RoundEnd(1000),
            &[],
            &[SuspectAt("d", 0, "a", 7004)],
            1000,
        ),
        Replies(
            TickBy(1000, [0; 8]),
            RoundStart(1000),
            &[("a", 7002, Ping(2, "b"), NEWS_TO_B)],
            &[],
            1030,
        ),
        Deadline(Some(1030)),
    ],
)];

/// Tables are heard in the same way whatever their version is.
#[test]
fn tables_only_accuse(rt: HostRuntime) {
    for version in &[One, Two, Three] {
        plays_rows(&rt, rt.alloc(), *version);
    }
    play_blank(&rt, rt.alloc(), AS_TOLD);
}

#[test]
fn two_tables_accuse(rt: HostRuntime) {
    play_blank(&rt, rt.alloc(), ACCUSES);
    resume_each(&rt, rt.alloc(), &None, ACCUSES);
}
