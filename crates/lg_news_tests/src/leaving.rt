//! Leaves: whom they are told to, and what they drop.
mod having_left;
mod repeating;

use crate::playing::{play_blank, resume_each};
use lg_detector_testing::DetectorCase;
use lg_detector_testing::Happens::{Ack, First, FromIn, Health, Leave, LeaveBy, Opens};
use lg_detector_testing::Setting::{GossipMs, Indirect, Own, Seed, Wire};
use lg_detector_testing::Step::{
    AnswersHealth, Changed, Known, Next, Replies, Sends, SentIn, Table, Takes, Ticks,
};
use lg_packet::Version::{One, Three, Two};
use lg_testing::Due::{Direct, Nothing, RoundStart};
use lg_testing::bodies::Says::{Gossip, Page, Ping, Request};
use lg_testing::says::Said::{self, AliveAt, Left, LeftAt};

/// a has left.
const A_LEFT: &[Said] = &[LeftAt("a", 0, 7001)];

/// b has left.
const B_LEFT: &[Said] = &[LeftAt("b", 0, 7002)];

/// a tells of itself.
const A: &[Said] = &[AliveAt("a", 7001)];

/// Word 1 picks c of a and c, and word 7 picks a of a. A further leave does nothing. b counts itself, but is Left.
const TELLS_BOTH: DetectorCase = (
    "tells both",
    &[
        Takes(Opens(
            0,
            &[
                Own("b", 7002),
                Wire(3),
                GossipMs(0),
                Seed("a", 7001),
                Seed("c", 7003),
            ],
        )),
        Replies(
            LeaveBy(10, [1, 7, 0, 0, 0, 0, 0, 0]),
            Nothing,
            &[("b", 7003, Gossip, B_LEFT), ("b", 7001, Gossip, B_LEFT)],
            B_LEFT,
            0,
        ),
        Table(&[AliveAt("a", 7001), LeftAt("b", 0, 7002), AliveAt("c", 7003)]),
        Replies(Leave(30), Nothing, &[], &[], 0),
        Takes(Health(30)),
        AnswersHealth(0, 0, 3),
        Next(0),
    ],
);

/// At most eight are told, picked as helpers are, also if no helper is ever asked.
const TELLS_EIGHT: DetectorCase = (
    "tells eight of ten",
    &[
        Takes(Opens(
            0,
            &[
                Own("a", 7001),
                Wire(3),
                GossipMs(0),
                Indirect(0),
                Seed("b", 7002),
                Seed("c", 7003),
                Seed("d", 7004),
                Seed("e", 7005),
                Seed("f", 7006),
                Seed("g", 7007),
                Seed("h", 7008),
                Seed("i", 7009),
                Seed("j", 7010),
                Seed("k", 7011),
            ],
        )),
        Replies(
            LeaveBy(5, [9, 0, 4294967295, 1, 12, 0, 0, 0]),
            Nothing,
            &[
                ("a", 7011, Gossip, A_LEFT),
                ("a", 7002, Gossip, A_LEFT),
                ("a", 7010, Gossip, A_LEFT),
                ("a", 7004, Gossip, A_LEFT),
                ("a", 7003, Gossip, A_LEFT),
                ("a", 7005, Gossip, A_LEFT),
                ("a", 7006, Gossip, A_LEFT),
                ("a", 7007, Gossip, A_LEFT),
            ],
            A_LEFT,
            0,
        ),
    ],
);

/// With nobody to tell, the record is Left all the same. The moment is the greatest that was handed in.
const TELLS_NOBODY: DetectorCase = (
    "tells nobody",
    &[
        Takes(Opens(7, &[Own("a", 7001)])),
        Replies(Leave(5), Nothing, &[], A_LEFT, 7),
        Takes(Health(5)),
        AnswersHealth(0, 0, 1),
        Next(7),
    ],
);

/// Versions 1 and 2 have no Gossip. What is told is a Page, which has Left until it is written as bytes.
const TELLS_BY_PAGES: &[DetectorCase] = &[
    (
        "a Page of version 1",
        &[
            Takes(Opens(0, &[Seed("c", 7003)])),
            Takes(Leave(0)),
            Sends(1),
            SentIn(One, 7003, Page, &[Left("b", 0)]),
            Changed(&[Left("b", 0)]),
            Known("b", Some(Left("b", 0))),
        ],
    ),
    (
        "a Page of version 2",
        &[
            Takes(Opens(0, &[Wire(2), Seed("c", 7003)])),
            Takes(Leave(0)),
            Sends(1),
            SentIn(Two, 7003, Page, &[Left("b", 0)]),
            Changed(&[Left("b", 0)]),
        ],
    ),
];

/// A leave drops the probe that runs: no helper is asked, nobody is accused, and the score stays. The next start of a
/// round is one interval later, and chooses nobody. A late Ack does nothing.
const DROPS_THE_PROBE: DetectorCase = (
    "drops the probe",
    &[
        Takes(Opens(0, &[Own("a", 7001), Wire(3), GossipMs(0), Seed("b", 7002)])),
        Replies(
            First(0),
            RoundStart(0),
            &[("a", 7002, Ping(1, "b"), A)],
            &[],
            500,
        ),
        Replies(
            Leave(100),
            Nothing,
            &[("a", 7002, Gossip, A_LEFT)],
            A_LEFT,
            1100,
        ),
        Ticks(500, Nothing, &[], 1100),
        Replies(Ack(600, "b", 1), Nothing, &[], &[], 1100),
        Ticks(1100, RoundStart(1100), &[], 2100),
        Takes(Health(1100)),
        AnswersHealth(0, 0, 2),
    ],
);

/// A start of a round that is set stays, also if it is due. Later ones come one interval after another.
const KEEPS_THE_START: DetectorCase = (
    "keeps the start that is set",
    &[
        Takes(Opens(0, &[Own("a", 7001), Wire(3), GossipMs(0), Seed("b", 7002)])),
        Replies(
            Leave(10),
            Nothing,
            &[("a", 7002, Gossip, A_LEFT)],
            A_LEFT,
            0,
        ),
        Ticks(10, RoundStart(0), &[], 1010),
        Ticks(1010, RoundStart(1010), &[], 2010),
    ],
);

/// A member that left is no helper, and isn't told when another leaves.
const NOT_TOLD: DetectorCase = (
    "one that left isn't told",
    &[
        Takes(Opens(
            0,
            &[
                Own("a", 7001),
                Wire(3),
                GossipMs(0),
                Seed("b", 7002),
                Seed("c", 7003),
                Seed("d", 7004),
            ],
        )),
        Replies(
            FromIn(0, Three, "c", 7003, Gossip, &[LeftAt("c", 0, 7003)]),
            Nothing,
            &[],
            &[LeftAt("c", 0, 7003)],
            0,
        ),
        Replies(
            First(0),
            RoundStart(0),
            &[(
                "a",
                7002,
                Ping(1, "b"),
                &[AliveAt("a", 7001), LeftAt("c", 0, 7003)],
            )],
            &[],
            500,
        ),
        Replies(
            First(500),
            Direct(500),
            &[(
                "a",
                7004,
                Request(1, "b", 7002),
                &[AliveAt("a", 7001), LeftAt("c", 0, 7003)],
            )],
            &[],
            1000,
        ),
        Replies(
            Leave(600),
            Nothing,
            &[("a", 7002, Gossip, A_LEFT), ("a", 7004, Gossip, A_LEFT)],
            A_LEFT,
            1600,
        ),
    ],
);

/// Each case of leaving.
const PLAYED: &[&[DetectorCase]] = &[
    &[TELLS_BOTH, TELLS_EIGHT, TELLS_NOBODY],
    TELLS_BY_PAGES,
    &[DROPS_THE_PROBE, KEEPS_THE_START, NOT_TOLD],
];

/// Each case, resumed at each place.
#[test]
fn leaves(rt: HostRuntime) {
    for cases in PLAYED {
        play_blank(&rt, rt.alloc(), cases);
        resume_each(&rt, rt.alloc(), &None, cases);
    }
}
