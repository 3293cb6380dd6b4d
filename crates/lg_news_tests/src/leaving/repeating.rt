//! Leaves that are told once more, since somebody still suspects the member that left.
use super::A;
use crate::playing::{play_blank, resume_each};
use lg_detector_testing::DetectorCase;
use lg_detector_testing::Happens::{self, First, FromIn, Leave, Opens, Tick};
use lg_detector_testing::Setting::{GossipMs, Lambda, Own, Seed, Wire};
use lg_detector_testing::Step::{Changed, Known, Replies, SentIn, Takes};
use lg_packet::Version::{Three, Two};
use lg_testing::Due::{self, Nothing};
use lg_testing::bodies::Says::{Ack, AckFor, Gossip, Ping};
use lg_testing::says::Said::{self, AliveAt, FailedAt, LeftAt, SuspectAt};

/// c has left at incarnation 2.
const C_LEFT: &[Said] = &[LeftAt("c", 2, 7003)];

/// A suspicion of c, which a raised.
const C_SUSPECTED: &[Said] = &[SuspectAt("c", 2, "a", 7003)];

/// b, which knows a and c, sends each claim once, and gossips no news.
const B_OPENS: Happens<'static> = Opens(
    0,
    &[
        Own("b", 7002),
        Wire(3),
        GossipMs(0),
        Lambda(1),
        Seed("a", 7001),
        Seed("c", 7003),
    ],
);

/// b tells of itself, and that c left, once each. When a suspects c at the leave's incarnation or a smaller one, the
/// Ack has the leave again, but not twice. No other claim about c does so, nor one that replaces the leave.
const TELLS_AGAIN: DetectorCase = (
    "tells of a leave again",
    &[
        Takes(B_OPENS),
        Takes(FromIn(1, Three, "a", 7001, Gossip, C_LEFT)),
        Changed(C_LEFT),
        Takes(FromIn(2, Three, "a", 7001, Ping(1, "b"), &[])),
        SentIn(
            Three,
            7001,
            AckFor(1, "a"),
            &[AliveAt("b", 7002), LeftAt("c", 2, 7003)],
        ),
        Replies(
            FromIn(3, Three, "a", 7001, Ping(2, "b"), C_SUSPECTED),
            Nothing,
            &[("b", 7001, AckFor(2, "a"), C_LEFT)],
            &[],
            0,
        ),
        Replies(
            FromIn(4, Three, "a", 7001, Ping(3, "b"), A),
            Nothing,
            &[("b", 7001, AckFor(3, "a"), &[])],
            &[],
            0,
        ),
        Replies(
            FromIn(
                5,
                Three,
                "a",
                7001,
                Ping(4, "b"),
                &[SuspectAt("c", 0, "a", 7003)],
            ),
            Nothing,
            &[("b", 7001, AckFor(4, "a"), C_LEFT)],
            &[],
            0,
        ),
        Replies(
            FromIn(
                6,
                Three,
                "a",
                7001,
                Ping(5, "b"),
                &[
                    AliveAt("c", 7003),
                    FailedAt("c", 2, 7003),
                    LeftAt("c", 2, 7003),
                ],
            ),
            Nothing,
            &[("b", 7001, AckFor(5, "a"), &[])],
            &[],
            0,
        ),
        Replies(
            FromIn(
                7,
                Three,
                "a",
                7001,
                Ping(6, "b"),
                &[SuspectAt("c", 3, "a", 7003)],
            ),
            Nothing,
            &[("b", 7001, AckFor(6, "a"), &[SuspectAt("c", 3, "a", 7003)])],
            &[SuspectAt("c", 3, "a", 7003)],
            0,
        ),
    ],
);

/// A member that sends version 2 tells it no second time.
const NOT_IN_TWO: DetectorCase = (
    "tells of no leave again in version 2",
    &[
        Takes(Opens(
            0,
            &[
                Own("b", 7002),
                Wire(2),
                Lambda(1),
                Seed("a", 7001),
                Seed("c", 7003),
            ],
        )),
        Takes(FromIn(1, Three, "a", 7001, Gossip, C_LEFT)),
        Changed(C_LEFT),
        Takes(FromIn(2, Three, "a", 7001, Ping(1, "b"), &[])),
        SentIn(Two, 7001, Ack(1), C_LEFT),
        Takes(FromIn(3, Three, "a", 7001, Ping(2, "b"), C_SUSPECTED)),
        SentIn(Two, 7001, Ack(2), &[]),
        Changed(&[]),
    ],
);

/// A failure is told no second time.
const NOT_A_FAILURE: DetectorCase = (
    "tells of no failure again",
    &[
        Takes(B_OPENS),
        Takes(FromIn(1, Three, "a", 7001, Gossip, &[FailedAt("c", 2, 7003)])),
        Takes(FromIn(2, Three, "a", 7001, Ping(1, "b"), &[])),
        SentIn(
            Three,
            7001,
            AckFor(1, "a"),
            &[AliveAt("b", 7002), FailedAt("c", 2, 7003)],
        ),
        Replies(
            FromIn(3, Three, "a", 7001, Ping(2, "b"), C_SUSPECTED),
            Nothing,
            &[("b", 7001, AckFor(2, "a"), &[])],
            &[],
            0,
        ),
    ],
);

/// The leave is news again: it sets the timer of the gossip. A member that has left itself does so too.
const IS_NEWS: DetectorCase = (
    "is news again",
    &[
        Takes(Opens(
            0,
            &[
                Own("b", 7002),
                Wire(3),
                GossipMs(10),
                Lambda(1),
                Seed("a", 7001),
                Seed("c", 7003),
            ],
        )),
        Takes(FromIn(0, Three, "a", 7001, Gossip, C_LEFT)),
        Takes(Leave(0)),
        Takes(FromIn(1, Three, "a", 7001, Ping(1, "b"), &[])),
        SentIn(
            Three,
            7001,
            AckFor(1, "a"),
            &[LeftAt("b", 0, 7002), LeftAt("c", 2, 7003)],
        ),
        Takes(First(1)),
        Replies(Tick(10), Due::Gossip(10), &[], &[], 1001),
        Replies(
            FromIn(20, Three, "a", 7001, Gossip, C_SUSPECTED),
            Nothing,
            &[],
            &[],
            30,
        ),
        Replies(
            Tick(30),
            Due::Gossip(30),
            &[("b", 7001, Gossip, C_LEFT)],
            &[],
            1001,
        ),
        Known("c", Some(LeftAt("c", 2, 7003))),
    ],
);

/// Which leaves are told again, and when, each case resumed at each place.
#[test]
fn tells_of_a_leave_again(rt: HostRuntime) {
    for cases in [&[TELLS_AGAIN, NOT_IN_TWO], &[NOT_A_FAILURE, IS_NEWS]] {
        play_blank(&rt, rt.alloc(), cases);
        resume_each(&rt, rt.alloc(), &None, cases);
    }
}
