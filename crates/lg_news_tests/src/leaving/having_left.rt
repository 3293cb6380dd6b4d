//! What a member does once it has left: what it says of itself, and what goes on.
use super::{A, A_LEFT, B_LEFT};
use crate::playing::{play_blank, resume_each};
use lg_detector_testing::DetectorCase;
use lg_detector_testing::Happens::{First, FromIn, Health, In, Leave, Opens, PullAt, Tick};
use lg_detector_testing::Setting::{Alpha, GossipMs, Interval, Lambda, Own, Seed, Timeout, Wire};
use lg_detector_testing::Step::{AnswersHealth, Known, Ousted, Replies, SentIn, Takes, Ticks};
use lg_packet::Version::{One, Three};
use lg_testing::Due::{self, Direct, Nothing, RelayNack, RoundEnd, RoundStart, Suspicion};
use lg_testing::bodies::Says::{
    AckFor, Gossip, NackFor, Page, Ping, PullAfter, PullFirst, Request,
};
use lg_testing::says::Said::{Alive, AliveAt, Failed, FailedAt, Left, LeftAt, Suspect, SuspectAt};

/// What a sends when it leaves is lost, and b suspects it. The Ping that says so changes nothing at a, and the Ack has
/// Left. A claim is sent once, so the leave took nothing of the queue.
const ANSWERS_A_DOUBT: DetectorCase = (
    "answers a doubt by its Left",
    &[
        Takes(Opens(
            0,
            &[
                Own("a", 7001),
                Wire(3),
                GossipMs(0),
                Lambda(1),
                Seed("b", 7002),
            ],
        )),
        Takes(Leave(0)),
        Replies(
            FromIn(
                1010,
                Three,
                "b",
                7002,
                Ping(2, "a"),
                &[SuspectAt("a", 0, "b", 7001)],
            ),
            Nothing,
            &[("a", 7002, AckFor(2, "b"), A_LEFT)],
            &[],
            0,
        ),
        Takes(Health(1010)),
        AnswersHealth(0, 0, 2),
    ],
);

/// A member that left relays, and its Nack goes out.
const RELAYS: DetectorCase = (
    "relays",
    &[
        Takes(Opens(
            0,
            &[
                Own("b", 7002),
                Wire(3),
                GossipMs(0),
                Seed("a", 7001),
                Seed("c", 7003),
            ],
        )),
        Replies(
            Leave(505),
            Nothing,
            &[("b", 7001, Gossip, B_LEFT), ("b", 7003, Gossip, B_LEFT)],
            B_LEFT,
            0,
        ),
        Replies(
            FromIn(510, Three, "a", 7001, Request(1, "c", 7003), A),
            Nothing,
            &[("b", 7003, Ping(1, "c"), B_LEFT)],
            &[],
            0,
        ),
        Ticks(510, RoundStart(0), &[], 910),
        Replies(
            First(910),
            RelayNack(910, 1),
            &[("b", 7001, NackFor(1, "a"), &[])],
            &[],
            1510,
        ),
    ],
);

/// A suspicion runs out after a leave.
const SUSPECTS_ON: DetectorCase = (
    "a suspicion runs out",
    &[
        Takes(Opens(
            0,
            &[
                Own("a", 7001),
                Interval(10),
                Timeout(5),
                Alpha(1),
                Wire(3),
                GossipMs(0),
                Seed("b", 7002),
            ],
        )),
        Takes(First(0)),
        Ticks(5, Direct(5), &[], 10),
        Ticks(10, RoundEnd(10), &[SuspectAt("b", 0, "a", 7002)], 10),
        Replies(
            Leave(12),
            Nothing,
            &[("a", 7002, Gossip, A_LEFT)],
            A_LEFT,
            10,
        ),
        Ticks(12, RoundStart(10), &[], 20),
        Ticks(20, Suspicion(20, "b"), &[FailedAt("b", 0, 7002)], 32),
    ],
);

/// A Pull and a Page after a leave have the own record, Left, and so has the Pull behind a full Page.
const IN_TABLES: DetectorCase = (
    "in Pulls and Pages",
    &[
        Takes(Opens(0, &[Own("b", 7002), Wire(3), GossipMs(0)])),
        Replies(Leave(5), Nothing, &[], B_LEFT, 0),
        Replies(
            FromIn(20, Three, "a", 7001, PullFirst, A),
            Nothing,
            &[("b", 7001, Page, &[AliveAt("a", 7001), LeftAt("b", 0, 7002)])],
            A,
            0,
        ),
        Replies(
            PullAt(20, 7001),
            Nothing,
            &[("b", 7001, PullFirst, B_LEFT)],
            &[],
            0,
        ),
        Takes(FromIn(
            30,
            Three,
            "a",
            7001,
            Page,
            &[
                Alive("m", 0),
                Alive("n", 0),
                Alive("o", 0),
                Alive("p", 0),
                Alive("q", 0),
                Alive("r", 0),
                Alive("s", 0),
                Alive("t", 0),
                Alive("u", 0),
                Alive("v", 0),
                Alive("w", 0),
                Alive("x", 0),
            ],
        )),
        SentIn(Three, 7001, PullAfter("x"), B_LEFT),
    ],
);

/// b hears about itself after its leave. Only a greater incarnation does anything.
const HEARS_OF_ITSELF: DetectorCase = (
    "hears of itself",
    &[
        Takes(Opens(0, &[Wire(3), GossipMs(0)])),
        Takes(Leave(0)),
        Replies(
            In(
                1,
                Three,
                "a",
                Gossip,
                &[
                    Suspect("b", 0, "c"),
                    Alive("b", 0),
                    Failed("b", 0),
                    Left("b", 0),
                ],
            ),
            Nothing,
            &[],
            &[],
            0,
        ),
        Replies(
            In(2, Three, "a", Gossip, &[Failed("b", 5)]),
            Nothing,
            &[],
            &[Left("b", 5)],
            0,
        ),
        Replies(
            In(3, Three, "a", Gossip, &[Left("b", 5)]),
            Nothing,
            &[],
            &[],
            0,
        ),
        Replies(
            In(4, Three, "a", Gossip, &[Alive("b", 9)]),
            Nothing,
            &[],
            &[Left("b", 9)],
            0,
        ),
        Replies(
            In(5, Three, "a", Gossip, &[Suspect("b", 8, "c")]),
            Nothing,
            &[],
            &[],
            0,
        ),
        Replies(
            In(6, Three, "a", Gossip, &[Left("b", 11)]),
            Nothing,
            &[],
            &[Left("b", 11)],
            0,
        ),
        Replies(
            In(7, Three, "a", Gossip, &[Suspect("b", 1000000000, "c")]),
            Nothing,
            &[],
            &[Left("b", 1000000000)],
            0,
        ),
        Replies(
            In(8, Three, "a", Gossip, &[Alive("b", 1000000000)]),
            Nothing,
            &[],
            &[],
            0,
        ),
        Ousted(false),
        Takes(Health(9)),
        AnswersHealth(0, 1000000000, 1),
        Known("b", Some(Left("b", 1000000000))),
    ],
);

/// What is queued after a leave: each claim is sent once.
const QUEUES_ITS_LEFT: DetectorCase = (
    "queues its Left",
    &[
        Takes(Opens(0, &[Wire(3), GossipMs(0), Lambda(1)])),
        Takes(Leave(0)),
        Takes(In(0, One, "x", Ping(1, "b"), &[])),
        SentIn(Three, 1, AckFor(1, "x"), &[Left("b", 0)]),
        Takes(In(0, One, "x", Ping(1, "b"), &[])),
        SentIn(Three, 1, AckFor(1, "x"), &[]),
        Takes(In(0, Three, "a", Gossip, &[Left("b", 7)])),
        Takes(In(0, One, "x", Ping(1, "b"), &[])),
        SentIn(Three, 1, AckFor(1, "x"), &[Left("b", 7)]),
        Takes(In(0, One, "x", Ping(1, "b"), &[])),
        SentIn(Three, 1, AckFor(1, "x"), &[]),
        Takes(In(
            0,
            Three,
            "a",
            Gossip,
            &[Suspect("b", 3, "c"), Failed("b", 6)],
        )),
        Takes(In(0, One, "x", Ping(1, "b"), &[])),
        SentIn(Three, 1, AckFor(1, "x"), &[]),
    ],
);

/// News is gossiped after a leave as before.
const GOSSIPS_ON: DetectorCase = (
    "gossips on",
    &[
        Takes(Opens(0, &[Wire(3), GossipMs(10), Lambda(1), Seed("c", 7000)])),
        Takes(Leave(0)),
        Ticks(10, RoundStart(0), &[], 10),
        Replies(
            Tick(10),
            Due::Gossip(10),
            &[("b", 7000, Gossip, &[Left("b", 0)])],
            &[],
            1010,
        ),
        Replies(
            In(20, Three, "a", Gossip, &[Alive("e", 0)]),
            Nothing,
            &[],
            &[Alive("e", 0)],
            30,
        ),
    ],
);

/// What goes on, each case resumed at each place.
#[test]
fn goes_on_after_a_leave(rt: HostRuntime) {
    for cases in [&[ANSWERS_A_DOUBT, RELAYS], &[SUSPECTS_ON, IN_TABLES]] {
        play_blank(&rt, rt.alloc(), cases);
        resume_each(&rt, rt.alloc(), &None, cases);
    }
}

/// What it says of itself, each case resumed at each place.
#[test]
fn says_that_it_left(rt: HostRuntime) {
    for cases in [&[HEARS_OF_ITSELF][..], &[QUEUES_ITS_LEFT, GOSSIPS_ON]] {
        play_blank(&rt, rt.alloc(), cases);
        resume_each(&rt, rt.alloc(), &None, cases);
    }
}
