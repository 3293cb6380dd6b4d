//! What a member says of itself with `wire` 3: that it is there, and again to whom doubts it. And how it tells a member
//! that it is doubted: by the record that its Ack begins with.
use crate::playing::{blank, play_blank, play_on, resume_each};
use lg_detector_testing::DetectorCase;
use lg_detector_testing::Happens::{First, From, FromIn, Health, In, Opens, Tick};
use lg_detector_testing::Setting::{Alpha, GossipMs, Interval, Lambda, Own, Seed, Timeout, Wire};
use lg_detector_testing::Step::{
    self, AnswersHealth, Changed, Next, Replies, Sends, SentIn, Takes,
};
use lg_packet::Version::{One, Three, Two};
use lg_testing::Due::{Direct, Nothing, RoundEnd, RoundStart, Suspicion};
use lg_testing::bodies::Says::{Ack, AckFor, Gossip, NackFor, Ping, Request};
use lg_testing::says::Said::{
    self, Alive, AliveAs, AliveAt, Failed, FailedAt, Left, LeftAt, Suspect, SuspectAt,
};

/// a tells of itself.
const A: &[Said] = &[AliveAt("a", 7001)];

/// b tells of itself.
const B: &[Said] = &[AliveAt("b", 7002)];

/// a tells of itself once more, which refutes a doubt.
const A_AGAIN: &[Said] = &[AliveAs("a", 1, 7001)];

/// b says that it suspects a.
const A_IS_SUSPECTED: &[Said] = &[SuspectAt("a", 0, "b", 7001)];

const B_SUSPECTS_A: &[Said] = &[SuspectAt("a", 0, "b", 7001), AliveAt("b", 7002)];

/// b's Ping doubts a, which refutes it. At 1015 the claim may be sent once more, so it isn't queued anew, and the Ping
/// of 1020 has no claim. At 1030 it is queued anew, and two Acks have it. The last Ping doubts nothing. The score is
/// marked once.
const DOUBTED: &[DetectorCase] = &[
    (
        "doubted, a",
        &[
            Takes(Opens(
                0,
                &[
                    Own("a", 7001),
                    Wire(3),
                    GossipMs(0),
                    Lambda(2),
                    Seed("b", 7002),
                ],
            )),
            Replies(
                FromIn(1010, Three, "b", 7002, Ping(2, "a"), B_SUSPECTS_A),
                Nothing,
                &[("a", 7002, AckFor(2, "b"), A_AGAIN)],
                A_AGAIN,
                0,
            ),
            Replies(
                FromIn(1015, Three, "b", 7002, Ping(2, "a"), B_SUSPECTS_A),
                Nothing,
                &[("a", 7002, AckFor(2, "b"), A_AGAIN)],
                &[],
                0,
            ),
            Replies(
                First(1020),
                RoundStart(0),
                &[("a", 7002, Ping(1, "b"), &[])],
                &[],
                2020,
            ),
            Replies(
                FromIn(1030, Three, "b", 7002, Ping(2, "a"), B_SUSPECTS_A),
                Nothing,
                &[("a", 7002, AckFor(2, "b"), A_AGAIN)],
                &[],
                2020,
            ),
            Replies(
                FromIn(1035, Three, "b", 7002, Ping(2, "a"), B_SUSPECTS_A),
                Nothing,
                &[("a", 7002, AckFor(2, "b"), A_AGAIN)],
                &[],
                2020,
            ),
            Replies(
                FromIn(1040, Three, "b", 7002, Ping(1, "a"), B),
                Nothing,
                &[("a", 7002, AckFor(1, "b"), &[])],
                &[],
                2020,
            ),
            Takes(Health(1040)),
            AnswersHealth(1, 1, 2),
            Next(2020),
        ],
    ),
    (
        "doubted, b",
        &[
            Takes(Opens(
                0,
                &[
                    Own("b", 7002),
                    Wire(3),
                    GossipMs(0),
                    Lambda(2),
                    Seed("a", 7001),
                ],
            )),
            Replies(
                First(0),
                RoundStart(0),
                &[("b", 7001, Ping(1, "a"), B)],
                &[],
                500,
            ),
            Replies(First(500), Direct(500), &[], &[], 1000),
            Replies(First(1000), RoundEnd(1000), &[], A_IS_SUSPECTED, 1000),
            Replies(
                First(1000),
                RoundStart(1000),
                &[("b", 7001, Ping(2, "a"), B_SUSPECTS_A)],
                &[],
                2000,
            ),
        ],
    ),
];

/// b suspects a, and then fails it. The Acks to a say so, and the second time too, since that is no send. When a has
/// left, the queue alone tells of it, once.
const ACKED: DetectorCase = (
    "an Ack to a suspected and a failed member",
    &[
        Takes(Opens(
            0,
            &[
                Own("b", 7002),
                Wire(3),
                GossipMs(0),
                Lambda(1),
                Interval(10),
                Timeout(5),
                Alpha(1),
                Seed("a", 7001),
            ],
        )),
        Replies(
            First(0),
            RoundStart(0),
            &[("b", 7001, Ping(1, "a"), B)],
            &[],
            5,
        ),
        Replies(First(5), Direct(5), &[], &[], 10),
        Replies(First(10), RoundEnd(10), &[], A_IS_SUSPECTED, 10),
        Replies(
            FromIn(11, Three, "a", 7001, Ping(1, "b"), A),
            Nothing,
            &[("b", 7001, AckFor(1, "a"), A_IS_SUSPECTED)],
            &[],
            10,
        ),
        Replies(
            FromIn(12, Three, "a", 7001, Ping(1, "b"), A),
            Nothing,
            &[("b", 7001, AckFor(1, "a"), A_IS_SUSPECTED)],
            &[],
            10,
        ),
        Replies(
            First(20),
            RoundStart(10),
            &[("b", 7001, Ping(2, "a"), A_IS_SUSPECTED)],
            &[],
            20,
        ),
        Replies(
            First(20),
            Suspicion(20, "a"),
            &[],
            &[FailedAt("a", 0, 7001)],
            30,
        ),
        Replies(
            FromIn(21, Three, "a", 7001, Ping(1, "b"), A),
            Nothing,
            &[("b", 7001, AckFor(1, "a"), &[FailedAt("a", 0, 7001)])],
            &[],
            30,
        ),
        Replies(
            FromIn(22, Three, "a", 7001, Ping(1, "b"), A),
            Nothing,
            &[("b", 7001, AckFor(1, "a"), &[FailedAt("a", 0, 7001)])],
            &[],
            30,
        ),
        Replies(
            FromIn(31, Three, "a", 7001, Gossip, &[LeftAt("a", 0, 7001)]),
            Nothing,
            &[],
            &[LeftAt("a", 0, 7001)],
            30,
        ),
        Replies(
            FromIn(32, Three, "a", 7001, Ping(1, "b"), A),
            Nothing,
            &[("b", 7001, AckFor(1, "a"), &[LeftAt("a", 0, 7001)])],
            &[],
            30,
        ),
        Replies(
            FromIn(33, Three, "a", 7001, Ping(1, "b"), A),
            Nothing,
            &[("b", 7001, AckFor(1, "a"), &[])],
            &[],
            30,
        ),
    ],
);

/// x pings b, in version 1.
const X_PINGS: Step<'static> = Takes(In(0, One, "x", Ping(1, "b"), &[]));

/// x is told that b is there, or nothing.
const TELLS_B: Step<'static> = SentIn(Three, 1, AckFor(1, "x"), &[Alive("b", 1)]);

const TELLS_NOTHING: Step<'static> = SentIn(Three, 1, AckFor(1, "x"), &[]);

/// b at 1 is doubted by a Suspect and by a Failed claim at a smaller number. A Left or an Alive claim doubts nothing,
/// nor does what it says itself.
const DOUBTS: DetectorCase = (
    "what doubts",
    &[
        Takes(Opens(0, &[Wire(3), GossipMs(0), Lambda(1)])),
        Takes(In(0, Three, "a", Gossip, &[Failed("b", 0)])),
        Changed(&[Alive("b", 1)]),
        X_PINGS,
        TELLS_B,
        X_PINGS,
        TELLS_NOTHING,
        Takes(In(0, Three, "a", Gossip, &[Failed("b", 0)])),
        Changed(&[]),
        Sends(0),
        X_PINGS,
        TELLS_B,
        X_PINGS,
        TELLS_NOTHING,
        Takes(In(0, Three, "a", Gossip, &[Left("b", 0)])),
        X_PINGS,
        TELLS_NOTHING,
        X_PINGS,
        TELLS_NOTHING,
        Takes(In(0, Three, "a", Gossip, &[Alive("b", 0)])),
        X_PINGS,
        TELLS_NOTHING,
        X_PINGS,
        TELLS_NOTHING,
        Takes(In(0, Three, "a", Gossip, &[Suspect("b", 0, "c")])),
        X_PINGS,
        TELLS_B,
        X_PINGS,
        TELLS_NOTHING,
        Takes(In(0, Three, "a", Gossip, &[Alive("b", 1)])),
        X_PINGS,
        TELLS_NOTHING,
        X_PINGS,
        TELLS_NOTHING,
        Takes(Health(0)),
        AnswersHealth(0, 1, 1),
    ],
);

/// a, which is suspected by d, asks b from port 5 to ping c. The Ack that b passes on begins with the record of a.
const PASSED_ON: &[Step<'static>] = &[
    Takes(Opens(
        0,
        &[
            Wire(3),
            GossipMs(0),
            Lambda(1),
            Seed("a", 9),
            Seed("c", 9),
            Seed("d", 9),
        ],
    )),
    Takes(In(0, Three, "z", Gossip, &[SuspectAt("a", 0, "d", 9)])),
    X_PINGS,
    SentIn(
        Three,
        1,
        AckFor(1, "x"),
        &[SuspectAt("a", 0, "d", 9), Alive("b", 0)],
    ),
    X_PINGS,
    TELLS_NOTHING,
    Takes(FromIn(0, Three, "a", 5, Request(9, "c", 9), &[])),
    SentIn(Three, 9, Ping(1, "c"), &[]),
    Takes(FromIn(0, Three, "c", 9, AckFor(1, "b"), &[])),
    Sends(1),
    SentIn(Three, 5, AckFor(9, "a"), &[SuspectAt("a", 0, "d", 9)]),
];

/// a asks once more, and there is room for no further relay. The Nack has no claim.
const NACKED: &[Step<'static>] = &[
    Takes(FromIn(0, Three, "a", 5, Request(64, "c", 9), &[])),
    Sends(1),
    SentIn(Three, 5, NackFor(64, "a"), &[]),
];

/// With `wire` 2 b neither queues its arrival, nor gossips, nor begins an Ack with a record, nor tells of itself again.
const OLD: DetectorCase = (
    "no news with wire 2",
    &[
        Takes(Opens(0, &[Wire(2), GossipMs(10), Lambda(1), Seed("c", 9)])),
        X_PINGS,
        SentIn(Two, 1, Ack(1), &[]),
        Takes(Tick(0)),
        SentIn(Two, 9, Ping(1, "c"), &[]),
        Next(500),
        Takes(In(
            0,
            Three,
            "a",
            Gossip,
            &[SuspectAt("c", 0, "a", 9), Suspect("b", 0, "a")],
        )),
        X_PINGS,
        SentIn(Two, 1, Ack(1), &[Alive("b", 1), SuspectAt("c", 0, "a", 9)]),
        Takes(In(0, One, "c", Ping(1, "b"), &[])),
        SentIn(Two, 1, Ack(1), &[]),
        Takes(In(0, Three, "a", Gossip, &[FailedAt("b", 0, 7000)])),
        Sends(0),
        X_PINGS,
        SentIn(Two, 1, Ack(1), &[]),
        Next(500),
    ],
);
/// Each case, resumed at each place.
#[test]
fn tells_of_itself_and_of_doubts(rt: HostRuntime) {
    for cases in [DOUBTED, &[ACKED, DOUBTS, OLD, ("passed on", PASSED_ON)]] {
        play_blank(&rt, rt.alloc(), cases);
        resume_each(&rt, rt.alloc(), &None, cases);
    }
}

/// A relay's Ack has a buddy, and a Nack doesn't.
#[test]
fn nacks_without_a_buddy(rt: HostRuntime) {
    let mut detector = blank(&rt, rt.alloc());
    play_on(&rt, &mut detector, "passed on", PASSED_ON);
    for number in 0..64 {
        let asks = [
            Takes(FromIn(0, Three, "a", 5, Request(number, "c", 9), &[])),
            Sends(1),
        ];
        play_on(&rt, &mut detector, "a request", &asks);
    }
    play_on(&rt, &mut detector, "no more room", NACKED);
}
