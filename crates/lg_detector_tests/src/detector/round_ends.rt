//! Ends of rounds: when they come, whom b suspects then, and its health score. b is opened at 0.
use super::probing::FOUR;
use crate::playing::play;
use lg_detector_testing::DetectorCase;
use lg_detector_testing::Happens::{Ack, First, From, Health, Ping};
use lg_detector_testing::Step::{
    AnswersHealth, Changed, Chose, Fired, Known, Next, Pings, Sends, Sent, Takes, Ticks,
};
use lg_testing::Due::{Direct, RoundEnd, RoundStart};
use lg_testing::bodies::Says;
use lg_testing::says::Said::{Alive, Failed, Suspect};

/// b suspects a member that doesn't ack. Its next Ping to that member takes this record with it.
const NO_ACK: DetectorCase = (
    "c",
    &[
        Takes(Ping(0, 1, "z", &[Alive("c", 0)])),
        Takes(First(0)),
        Next(500),
        Ticks(500, Direct(500), &[], 1000),
        Ticks(1000, RoundEnd(1000), &[Suspect("c", 0, "b")], 1000),
        Takes(First(1000)),
        Fired(RoundStart(1000)),
        Sent(0, 7000, Says::Ping(2, "c"), &[Suspect("c", 0, "b")]),
        Next(2000),
        Takes(From(1020, "c", 7000, Says::Ack(2), &[Alive("c", 1)])),
        Changed(&[Alive("c", 1)]),
        Next(3000),
        Takes(Health(1020)),
        AnswersHealth(0, 0, 2),
    ],
);

/// The timers of a round stay as they were set at its start, whatever becomes of the score meanwhile. The two
/// refutations and the probe that failed make it 3. The greatest score stays what it is if a probe fails and a helper
/// sends no Nack.
const SCORES: &[DetectorCase] = &[
    (
        "two refutations",
        &[
            Takes(Ping(0, 1, "z", &[Alive("c", 0)])),
            Takes(First(0)),
            Takes(Ping(100, 2, "z", &[Suspect("b", 0, "a")])),
            Next(500),
            Takes(First(500)),
            Fired(Direct(500)),
            Next(1000),
            Takes(Ping(600, 3, "z", &[Suspect("b", 1, "a")])),
            Next(1000),
            Takes(First(1000)),
            Fired(RoundEnd(1000)),
            Takes(First(1000)),
            Fired(RoundStart(1000)),
            Next(3000),
        ],
    ),
    (
        "eight refutations",
        &[
            Takes(Ping(0, 1, "z", &[Alive("c", 0), Alive("d", 0)])),
            Takes(Ping(
                0,
                2,
                "z",
                &[
                    Suspect("b", 0, "a"),
                    Suspect("b", 1, "a"),
                    Suspect("b", 2, "a"),
                    Suspect("b", 3, "a"),
                    Suspect("b", 4, "a"),
                    Suspect("b", 5, "a"),
                ],
            )),
            Takes(Ping(0, 3, "z", &[Suspect("b", 6, "a"), Suspect("b", 7, "a")])),
            Takes(First(0)),
            Next(4500),
            Takes(First(4500)),
            Sends(1),
            Next(9000),
            Takes(First(9000)),
            Fired(RoundEnd(9000)),
            Changed(&[Suspect("c", 0, "b")]),
            Takes(Health(9000)),
            AnswersHealth(8, 8, 3),
            Takes(First(9000)),
            Next(13_500),
        ],
    ),
];

/// A target that has failed meanwhile: its Ack counts. If no Ack comes, the round marks the score and nobody is
/// suspected. A helper that has failed meanwhile: its Ack counts.
const TARGET_FAILED: &[DetectorCase] = &[
    (
        "an Ack",
        &[
            Takes(Ping(0, 1, "z", &[Alive("c", 0)])),
            Takes(First(0)),
            Takes(Ping(100, 2, "z", &[Failed("c", 0)])),
            Takes(Ack(200, "c", 1)),
            Next(1000),
            Takes(First(1000)),
            Fired(RoundEnd(1000)),
            Takes(Health(1000)),
            AnswersHealth(0, 0, 1),
        ],
    ),
    (
        "no Ack",
        &[
            Takes(Ping(0, 1, "z", &[Alive("c", 0)])),
            Takes(First(0)),
            Takes(Ping(100, 2, "z", &[Failed("c", 0)])),
            Takes(First(500)),
            Fired(Direct(500)),
            Ticks(1000, RoundEnd(1000), &[], 1000),
            Known("c", Some(Failed("c", 0))),
            Takes(Health(1000)),
            AnswersHealth(1, 0, 1),
        ],
    ),
    (
        "an Ack of a helper",
        &[
            Takes(Ping(0, 1, "z", FOUR)),
            Takes(First(0)),
            Takes(Ping(100, 2, "z", &[Failed("c", 0)])),
            Takes(First(500)),
            Fired(Direct(500)),
            Sends(3),
            Chose(None),
            Takes(Ping(550, 3, "z", &[Failed("e", 0)])),
            Takes(From(600, "e", 7005, Says::Ack(1), &[])),
            Takes(First(1000)),
            Fired(RoundEnd(1000)),
            Takes(Health(1000)),
            AnswersHealth(0, 0, 3),
            Takes(First(1000)),
            Pings(2, "d"),
        ],
    ),
];

/// A target that failed and came back during its probe, and sends no Ack, is suspected at its new incarnation.
const TARGET_BACK: DetectorCase = (
    "c fails and comes back",
    &[
        Takes(Ping(0, 1, "z", &[Alive("c", 0)])),
        Takes(First(0)),
        Takes(Ping(100, 2, "z", &[Failed("c", 0)])),
        Takes(Ping(200, 3, "z", &[Alive("c", 1)])),
        Ticks(500, Direct(500), &[], 1000),
        Ticks(1000, RoundEnd(1000), &[Suspect("c", 1, "b")], 1000),
    ],
);

/// Each case of ends of rounds.
const PLAYED: &[&[DetectorCase]] = &[&[NO_ACK], SCORES, TARGET_FAILED, &[TARGET_BACK]];

#[test]
fn ends_rounds(rt: HostRuntime) {
    for cases in PLAYED {
        play(&rt, rt.alloc(), cases);
    }
}
