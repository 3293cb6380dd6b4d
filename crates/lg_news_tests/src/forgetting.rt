//! Forgetting members that are gone: when, and what counts by their names all the same.
use crate::playing::{play_blank, resume_each};
use lg_detector_testing::DetectorCase;
use lg_detector_testing::Happens::{Ask, First, FromIn, Health, Opens, TickBy};
use lg_detector_testing::Setting::{
    Alpha, ForgetMs, GossipMs, Interval, Lambda, Own, Seed, Timeout, Wire,
};
use lg_detector_testing::Step::{
    Answers, AnswersHealth, Changed, Forgot, Known, Next, Replies, Table, Takes, Ticks,
};
use lg_packet::Version::{One, Three};
use lg_testing::Due::{Direct, Forget, Nothing, RelayNack, RoundEnd, RoundStart, Suspicion};
use lg_testing::bodies::Says::{AckFor, Gossip, NackFor, Page, Ping, PullFirst, Request};
use lg_testing::says::Said::{self, AliveAs, AliveAt, FailedAt, LeftAt, SuspectAt};

/// b has left.
const B_LEFT: &[Said] = &[LeftAt("b", 0, 7002)];

/// c has left.
const C_LEFT: &[Said] = &[LeftAt("c", 0, 7003)];

/// c tells of itself.
const C: &[Said] = &[AliveAt("c", 7003)];

/// a, its news of b, and c.
const WITH_B_LEFT: &[Said] = &[AliveAt("a", 7001), LeftAt("b", 0, 7002), AliveAt("c", 7003)];

/// b leaves at 10 and is forgotten at 1010, behind a start of a round that is due. It is unknown, and no packet tells
/// of it.
const FORGETS: DetectorCase = (
    "a name is forgotten",
    &[
        Takes(Opens(
            0,
            &[
                Own("a", 7001),
                Wire(3),
                GossipMs(0),
                ForgetMs(1000),
                Seed("b", 7002),
            ],
        )),
        Replies(
            FromIn(10, Three, "b", 7002, Gossip, B_LEFT),
            Nothing,
            &[],
            B_LEFT,
            0,
        ),
        Replies(
            FromIn(30, Three, "c", 7003, Ping(1, "a"), C),
            Nothing,
            &[("a", 7003, AckFor(1, "c"), WITH_B_LEFT)],
            C,
            0,
        ),
        Replies(
            First(1010),
            RoundStart(0),
            &[("a", 7003, Ping(1, "c"), WITH_B_LEFT)],
            &[],
            1010,
        ),
        Ticks(1010, Forget(1010, "b"), &[], 1510),
        Forgot(&["b"]),
        Takes(Ask(1010, "b")),
        Answers(None),
        Table(&[AliveAt("a", 7001), AliveAt("c", 7003)]),
        Replies(
            FromIn(1030, Three, "c", 7003, Ping(2, "a"), C),
            Nothing,
            &[(
                "a",
                7003,
                AckFor(2, "c"),
                &[AliveAt("a", 7001), AliveAt("c", 7003)],
            )],
            &[],
            1510,
        ),
        Takes(Health(1030)),
        AnswersHealth(0, 0, 2),
    ],
);

/// The times of a that takes b as failed at 20.
const FAILS_B: &[lg_detector_testing::Setting] = &[
    Own("a", 7001),
    Interval(10),
    Timeout(5),
    Alpha(1),
    Wire(3),
    GossipMs(0),
    ForgetMs(1000),
    Seed("b", 7002),
];

/// b fails at 20 and comes back at 26: it isn't forgotten.
const COMES_BACK: DetectorCase = (
    "the timer is cancelled",
    &[
        Takes(Opens(0, FAILS_B)),
        Takes(First(0)),
        Ticks(5, Direct(5), &[], 10),
        Ticks(10, RoundEnd(10), &[SuspectAt("b", 0, "a", 7002)], 10),
        Takes(First(10)),
        Ticks(20, Suspicion(20, "b"), &[FailedAt("b", 0, 7002)], 20),
        Ticks(20, Direct(20), &[], 30),
        Replies(
            FromIn(
                26,
                Three,
                "b",
                7002,
                AckFor(2, "a"),
                &[AliveAs("b", 1, 7002)],
            ),
            Nothing,
            &[],
            &[AliveAs("b", 1, 7002)],
            30,
        ),
        Ticks(1020, RoundEnd(30), &[], 1020),
        Takes(First(1020)),
        Next(1025),
        Ticks(1020, Nothing, &[], 1025),
    ],
);

/// b failed at 20. That it left, at 300, sets the timer anew, from 1020 to 1300.
const SET_ANEW: DetectorCase = (
    "the timer is set anew",
    &[
        Takes(Opens(0, FAILS_B)),
        Takes(First(0)),
        Ticks(5, Direct(5), &[], 10),
        Ticks(10, RoundEnd(10), &[SuspectAt("b", 0, "a", 7002)], 10),
        Takes(First(10)),
        Ticks(20, Suspicion(20, "b"), &[FailedAt("b", 0, 7002)], 20),
        Replies(
            FromIn(300, Three, "b", 7002, Gossip, B_LEFT),
            Nothing,
            &[],
            B_LEFT,
            20,
        ),
        Ticks(1020, Direct(20), &[], 30),
        Ticks(1020, RoundEnd(30), &[], 1020),
        Ticks(1020, RoundStart(1020), &[], 1050),
        Ticks(1300, RoundStart(1050), &[], 1300),
        Ticks(1300, Forget(1300, "b"), &[], 1330),
    ],
);

/// At one moment a start of a round is before both, and then the lesser name.
const IN_ORDER: DetectorCase = (
    "by names",
    &[
        Takes(Opens(
            10,
            &[
                Own("a", 7001),
                Wire(3),
                GossipMs(0),
                ForgetMs(1000),
                Seed("b", 7002),
                Seed("c", 7003),
            ],
        )),
        Takes(FromIn(10, Three, "c", 7003, Gossip, C_LEFT)),
        Takes(FromIn(10, Three, "b", 7002, Gossip, B_LEFT)),
        Ticks(10, RoundStart(10), &[], 1010),
        Ticks(1010, RoundStart(1010), &[], 1010),
        Ticks(1010, Forget(1010, "b"), &[], 1010),
        Ticks(1010, Forget(1010, "c"), &[], 2010),
    ],
);

/// What a knows, and when it forgets: its seeds are b and c.
const SLOWLY: &[lg_detector_testing::Setting] = &[
    Own("a", 7001),
    Wire(3),
    GossipMs(0),
    Lambda(1),
    Interval(3000),
    Timeout(2000),
    ForgetMs(1000),
    Seed("b", 7002),
    Seed("c", 7003),
];

/// Words that choose the second candidate.
const SECOND: [u32; 8] = [1, 0, 0, 0, 0, 0, 0, 0];

/// A Page that still has b is ignored for it, and an old packet that it is alive makes a record.
const IGNORES: DetectorCase = (
    "an unknown name",
    &[
        Takes(Opens(0, SLOWLY)),
        Takes(FromIn(10, Three, "b", 7002, Gossip, B_LEFT)),
        Takes(TickBy(10, SECOND)),
        Ticks(1010, Forget(1010, "b"), &[], 2010),
        Replies(
            FromIn(1020, Three, "c", 7003, Page, WITH_B_LEFT),
            Nothing,
            &[],
            &[],
            2010,
        ),
        Known("b", None),
        Takes(FromIn(1030, Three, "b", 7002, PullFirst, &[AliveAt("b", 7002)])),
        Changed(&[AliveAt("b", 7002)]),
        Forgot(&[]),
        Table(&[AliveAt("a", 7001), AliveAt("b", 7002), AliveAt("c", 7003)]),
    ],
);

/// The target of a probe is forgotten: helpers aren't asked, and nobody is accused, but the score is marked.
const FORGETS_A_TARGET: DetectorCase = (
    "a target",
    &[
        Takes(Opens(0, SLOWLY)),
        Replies(
            TickBy(0, SECOND),
            RoundStart(0),
            &[("a", 7003, Ping(1, "c"), &[AliveAt("a", 7001)])],
            &[],
            2000,
        ),
        Takes(FromIn(20, Three, "c", 7003, Gossip, C_LEFT)),
        Ticks(1020, Forget(1020, "c"), &[], 2000),
        Ticks(2000, Direct(2000), &[], 3000),
        Ticks(3000, RoundEnd(3000), &[], 3000),
        Takes(Health(3000)),
        AnswersHealth(1, 0, 2),
    ],
);

/// It is known again before helpers are asked: the probe goes by the record that it has then.
const KNOWN_AGAIN: DetectorCase = (
    "a target that is known again",
    &[
        Takes(Opens(0, SLOWLY)),
        Takes(TickBy(0, SECOND)),
        Takes(FromIn(20, Three, "c", 7003, Gossip, C_LEFT)),
        Ticks(1020, Forget(1020, "c"), &[], 2000),
        Takes(FromIn(1500, Three, "c", 7003, PullFirst, C)),
        Changed(C),
        Replies(
            First(2000),
            Direct(2000),
            &[("a", 7002, Request(1, "c", 7003), C)],
            &[],
            3000,
        ),
        Ticks(3000, RoundEnd(3000), &[SuspectAt("c", 0, "a", 7003)], 3000),
        Takes(Health(3000)),
        AnswersHealth(2, 0, 3),
    ],
);

/// The late Ack of a target that was forgotten counts, and no helper is asked.
const COUNTS_ITS_ACK: DetectorCase = (
    "the Ack of a target",
    &[
        Takes(Opens(0, SLOWLY)),
        Takes(TickBy(0, SECOND)),
        Takes(FromIn(30, Three, "c", 7003, Gossip, C_LEFT)),
        Ticks(1030, Forget(1030, "c"), &[], 2000),
        Replies(
            FromIn(1100, Three, "c", 7003, AckFor(1, "a"), &[]),
            Nothing,
            &[],
            &[],
            3000,
        ),
        Ticks(3000, RoundEnd(3000), &[], 3000),
        Takes(Health(3000)),
        AnswersHealth(0, 0, 2),
    ],
);

/// A helper that was asked and is forgotten then counts by its name: its missing Nack costs the score one more.
const COUNTS_ITS_NACK: DetectorCase = (
    "a helper that was forgotten",
    &[
        Takes(Opens(
            0,
            &[
                Own("a", 7001),
                Wire(3),
                GossipMs(0),
                Interval(3000),
                Timeout(500),
                ForgetMs(1000),
                Seed("b", 7002),
                Seed("c", 7003),
            ],
        )),
        Takes(TickBy(0, SECOND)),
        Replies(
            First(500),
            Direct(500),
            &[("a", 7002, Request(1, "c", 7003), &[AliveAt("a", 7001)])],
            &[],
            3000,
        ),
        Replies(
            FromIn(550, Three, "b", 7002, Gossip, B_LEFT),
            Nothing,
            &[],
            B_LEFT,
            1550,
        ),
        Ticks(1550, Forget(1550, "b"), &[], 3000),
        Ticks(3000, RoundEnd(3000), &[SuspectAt("c", 0, "a", 7003)], 3000),
        Takes(Health(3000)),
        AnswersHealth(2, 0, 2),
    ],
);

/// A relay whose target was forgotten sends its Nack, and passes the Ack on.
const RELAYS_ON: DetectorCase = (
    "a relay",
    &[
        Takes(Opens(
            0,
            &[
                Own("b", 7002),
                Wire(3),
                GossipMs(0),
                Lambda(1),
                Interval(3000),
                ForgetMs(1000),
                Seed("c", 7003),
            ],
        )),
        Takes(FromIn(510, Three, "a", 7001, Request(1, "c", 7003), &[])),
        Takes(FromIn(540, Three, "c", 7003, Gossip, C_LEFT)),
        Ticks(910, RoundStart(0), &[], 910),
        Replies(
            First(910),
            RelayNack(910, 1),
            &[("b", 7001, NackFor(1, "a"), &[])],
            &[],
            1540,
        ),
        Ticks(1540, Forget(1540, "c"), &[], 3510),
        Replies(
            FromIn(1600, Three, "c", 7003, AckFor(1, "b"), &[]),
            Nothing,
            &[("b", 7001, AckFor(1, "a"), &[])],
            &[],
            3910,
        ),
    ],
);

/// With a `forget_ms` of 0 nobody is forgotten.
const FORGETS_NOBODY: DetectorCase = (
    "nobody is forgotten",
    &[
        Takes(Opens(0, &[Own("a", 7001), Wire(3), GossipMs(0), Seed("b", 7002)])),
        Takes(FromIn(10, One, "b", 7002, Page, B_LEFT)),
        Ticks(10, RoundStart(0), &[], 1010),
        Ticks(2592000000, RoundStart(1010), &[], 2592001000),
        Known("b", Some(LeftAt("b", 0, 7002))),
    ],
);

/// Each case of forgetting.
const PLAYED: &[&[DetectorCase]] = &[
    &[FORGETS, COMES_BACK, SET_ANEW, IN_ORDER, IGNORES],
    &[
        FORGETS_A_TARGET,
        KNOWN_AGAIN,
        COUNTS_ITS_ACK,
        COUNTS_ITS_NACK,
    ],
    &[RELAYS_ON, FORGETS_NOBODY],
];

/// Each case, resumed at each place.
#[test]
fn forgets(rt: HostRuntime) {
    for cases in PLAYED {
        play_blank(&rt, rt.alloc(), cases);
        resume_each(&rt, rt.alloc(), &None, cases);
    }
}
