//! Gossips: when the timer is set, and whom they go to. Only a member with `wire` 3 gossips.
use crate::playing::{play_blank, resume_each};
use lg_detector_testing::DetectorCase;
use lg_detector_testing::Happens::{First, FromIn, In, Opens, Tick, TickBy};
use lg_detector_testing::Setting::{GossipMs, GossipTo, Indirect, Lambda, Own, Seed, Wire};
use lg_detector_testing::Step::{Fired, Next, Replies, SentIn, Takes};
use lg_packet::Version::{Three, Two};
use lg_testing::Due::{self, Direct, Nothing, RoundEnd, RoundStart};
use lg_testing::bodies::Says::{Gossip, Ping};
use lg_testing::says::Said::{self, Alive, AliveAt, FailedAt, LeftAt, SuspectAt};

/// a tells of itself.
const A: &[Said] = &[AliveAt("a", 7001)];

/// b tells of itself.
const B: &[Said] = &[AliveAt("b", 7002)];

/// The Ping has told of a once, and a is told of five times. The gossip goes to three of four, by the words 3, 0 and 1
/// of those that are left: e, b and d. So one is left for the next gossip, and then no timer is set.
const THREE_OF_FOUR: DetectorCase = (
    "three of four",
    &[
        Replies(
            Opens(
                0,
                &[
                    Own("a", 7001),
                    Wire(3),
                    Lambda(5),
                    Seed("b", 7002),
                    Seed("c", 7003),
                    Seed("d", 7004),
                    Seed("e", 7005),
                ],
            ),
            Nothing,
            &[],
            &[],
            0,
        ),
        Replies(
            First(200),
            RoundStart(0),
            &[("a", 7002, Ping(1, "b"), A)],
            &[],
            200,
        ),
        Replies(
            TickBy(200, [3, 0, 1, 0, 0, 0, 0, 0]),
            Due::Gossip(200),
            &[
                ("a", 7005, Gossip, A),
                ("a", 7002, Gossip, A),
                ("a", 7004, Gossip, A),
            ],
            &[],
            400,
        ),
        Replies(
            TickBy(400, [2, 0, 0, 0, 0, 0, 0, 0]),
            Due::Gossip(400),
            &[("a", 7004, Gossip, A)],
            &[],
            700,
        ),
        Replies(First(600), Nothing, &[], &[], 700),
    ],
);

/// The second packet would have no claim, so one goes out of eight that may. What b hears isn't answered, and sets its
/// timer, which isn't set by then.
const UNTIL_NOTHING: &[DetectorCase] = &[
    (
        "until nothing is left, a",
        &[
            Replies(
                Opens(
                    1000,
                    &[
                        Own("a", 7001),
                        Wire(3),
                        GossipTo(8),
                        Lambda(2),
                        Seed("b", 7002),
                        Seed("c", 7003),
                        Seed("d", 7004),
                    ],
                ),
                Nothing,
                &[],
                &[],
                1000,
            ),
            Replies(
                TickBy(1200, [2, 0, 0, 0, 0, 0, 0, 0]),
                RoundStart(1000),
                &[("a", 7004, Ping(1, "d"), A)],
                &[],
                1200,
            ),
            Replies(
                First(1200),
                Due::Gossip(1200),
                &[("a", 7002, Gossip, A)],
                &[],
                1700,
            ),
        ],
    ),
    (
        "until nothing is left, b",
        &[
            Replies(
                Opens(
                    1000,
                    &[
                        Own("b", 7002),
                        Wire(3),
                        GossipTo(8),
                        Lambda(2),
                        Seed("c", 7003),
                    ],
                ),
                Nothing,
                &[],
                &[],
                1000,
            ),
            Replies(
                First(1200),
                RoundStart(1000),
                &[("b", 7003, Ping(1, "c"), B)],
                &[],
                1200,
            ),
            Replies(
                First(1200),
                Due::Gossip(1200),
                &[("b", 7003, Gossip, B)],
                &[],
                1700,
            ),
            Replies(
                FromIn(1250, Three, "a", 7001, Gossip, A),
                Nothing,
                &[],
                A,
                1450,
            ),
            Replies(
                TickBy(1450, [1, 0, 0, 0, 0, 0, 0, 0]),
                Due::Gossip(1450),
                &[("b", 7003, Gossip, A), ("b", 7001, Gossip, A)],
                &[],
                1700,
            ),
        ],
    ),
];

/// No timer is set with `gossip_ms` 0, nor with `wire` 2, nor if nobody else is there. The second doesn't even queue
/// its arrival. The last hears of one that is gone.
const NO_TIMER: &[DetectorCase] = &[
    (
        "gossip_ms 0",
        &[
            Takes(Opens(0, &[Own("a", 7001), Wire(3), GossipMs(0), Seed("b", 7002)])),
            Next(0),
            Replies(
                First(0),
                RoundStart(0),
                &[("a", 7002, Ping(1, "b"), A)],
                &[],
                500,
            ),
        ],
    ),
    (
        "wire 2",
        &[
            Takes(Opens(0, &[Wire(2), Seed("c", 7000)])),
            Next(0),
            Takes(First(0)),
            Fired(RoundStart(0)),
            SentIn(Two, 7000, Ping(1, "c"), &[]),
            Next(500),
        ],
    ),
    (
        "nobody else",
        &[
            Takes(Opens(0, &[Own("a", 7001), Wire(3)])),
            Next(0),
            Replies(First(200), RoundStart(0), &[], &[], 1200),
            Replies(First(200), Nothing, &[], &[], 1200),
            Replies(First(400), Nothing, &[], &[], 1200),
            Replies(First(400), Nothing, &[], &[], 1200),
        ],
    ),
    (
        "nobody but one that is gone",
        &[
            Takes(Opens(0, &[Own("a", 7001), Wire(3)])),
            Replies(First(0), RoundStart(0), &[], &[], 1000),
            Replies(
                In(
                    5,
                    Three,
                    "c",
                    Gossip,
                    &[FailedAt("b", 0, 9), LeftAt("d", 0, 9)],
                ),
                Nothing,
                &[],
                &[FailedAt("b", 0, 9), LeftAt("d", 0, 9)],
                1000,
            ),
            Replies(
                In(6, Three, "c", Gossip, &[AliveAt("e", 9)]),
                Nothing,
                &[],
                &[AliveAt("e", 9)],
                206,
            ),
        ],
    ),
];

/// a suspects b.
const B_IS_SUSPECTED: &[Said] = &[SuspectAt("b", 0, "a", 7002)];

/// a tells of both.
const B_AND_A: &[Said] = &[SuspectAt("b", 0, "a", 7002), AliveAt("a", 7001)];

/// The score scales a round, and not the gossip. Of the timers of one moment the gossip fires last.
const UNSCALED: DetectorCase = (
    "a score of 1",
    &[
        Replies(
            Opens(
                0,
                &[
                    Own("a", 7001),
                    Wire(3),
                    GossipMs(700),
                    Lambda(10),
                    Seed("b", 7002),
                ],
            ),
            Nothing,
            &[],
            &[],
            0,
        ),
        Replies(
            First(0),
            RoundStart(0),
            &[("a", 7002, Ping(1, "b"), A)],
            &[],
            500,
        ),
        Replies(First(700), Direct(500), &[], &[], 700),
        Replies(
            First(700),
            Due::Gossip(700),
            &[("a", 7002, Gossip, A)],
            &[],
            1000,
        ),
        Replies(First(1000), RoundEnd(1000), &[], B_IS_SUSPECTED, 1000),
        Replies(
            First(1400),
            RoundStart(1000),
            &[("a", 7002, Ping(2, "b"), B_AND_A)],
            &[],
            1400,
        ),
        Replies(
            First(1400),
            Due::Gossip(1400),
            &[("a", 7002, Gossip, B_AND_A)],
            &[],
            2100,
        ),
    ],
);

/// The timer is set once, by the first news. Later news doesn't move it, and goes out with the first, to both members,
/// also if no helper is ever asked.
const SET_ONCE: DetectorCase = (
    "set once",
    &[
        Takes(Opens(0, &[Wire(3), Indirect(0), Lambda(1)])),
        Replies(First(0), RoundStart(0), &[], &[], 1000),
        Replies(
            In(5, Three, "a", Gossip, &[Alive("c", 0)]),
            Nothing,
            &[],
            &[Alive("c", 0)],
            205,
        ),
        Replies(
            In(100, Three, "a", Gossip, &[AliveAt("d", 9)]),
            Nothing,
            &[],
            &[AliveAt("d", 9)],
            205,
        ),
        Replies(First(204), Nothing, &[], &[], 205),
        Replies(
            TickBy(205, [1, 0, 0, 0, 0, 0, 0, 0]),
            Due::Gossip(205),
            &[(
                "b",
                9,
                Gossip,
                &[Alive("b", 0), Alive("c", 0), AliveAt("d", 9)],
            )],
            &[],
            1000,
        ),
    ],
);
/// Nobody that is gone is told: of c, d and e only e, though eight may be told.
const NOBODY_GONE: DetectorCase = (
    "two are gone",
    &[
        Takes(Opens(
            0,
            &[
                Wire(3),
                GossipMs(10),
                GossipTo(8),
                Lambda(10),
                Seed("c", 9),
                Seed("d", 9),
                Seed("e", 9),
            ],
        )),
        Takes(In(
            0,
            Three,
            "a",
            Gossip,
            &[FailedAt("c", 0, 8), LeftAt("d", 0, 8)],
        )),
        Takes(Tick(0)),
        Fired(RoundStart(0)),
        Replies(
            Tick(10),
            Due::Gossip(10),
            &[(
                "b",
                9,
                Gossip,
                &[Alive("b", 0), FailedAt("c", 0, 8), LeftAt("d", 0, 8)],
            )],
            &[],
            20,
        ),
    ],
);
/// Each case of gossip.
const PLAYED: &[&[DetectorCase]] = &[
    &[THREE_OF_FOUR],
    UNTIL_NOTHING,
    NO_TIMER,
    &[UNSCALED, SET_ONCE, NOBODY_GONE],
];

/// Each case, resumed at each place.
#[test]
fn gossips(rt: HostRuntime) {
    for cases in PLAYED {
        play_blank(&rt, rt.alloc(), cases);
        resume_each(&rt, rt.alloc(), &None, cases);
    }
}
