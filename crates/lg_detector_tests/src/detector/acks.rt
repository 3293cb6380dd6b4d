//! Acks and Nacks of a round. b is opened at 0.
use super::probing::{ASKED, FOUR};
use crate::playing::{opened, play, play_on};
use lg_detector_testing::DetectorCase;
use lg_detector_testing::Happens::{Ack, First, Health, Nack, Ping};
use lg_detector_testing::Step::{self, AnswersHealth, Changed, Fired, Next, Pings, Sends, Takes};
use lg_testing::Due::{Direct, RoundEnd};
use lg_testing::says::Said::{Alive, Suspect};

/// What Acks and Nacks do after d, e and f were asked to help: the score after the round.
const COUNTED: &[DetectorCase] = &[
    (
        "nothing",
        &[
            Takes(Health(600)),
            ENDS,
            Fired(RoundEnd(1000)),
            SCORE,
            AnswersHealth(2, 0, 5),
        ],
    ),
    (
        "an ack of the target",
        &[
            Takes(Ack(600, "c", 1)),
            ENDS,
            Fired(RoundEnd(1000)),
            SCORE,
            AnswersHealth(0, 0, 5),
        ],
    ),
    (
        "an ack of a helper",
        &[
            Takes(Ack(600, "e", 1)),
            ENDS,
            Fired(RoundEnd(1000)),
            SCORE,
            AnswersHealth(0, 0, 5),
        ],
    ),
    (
        "an ack of a stranger",
        &[
            Takes(Ack(600, "z", 1)),
            ENDS,
            Fired(RoundEnd(1000)),
            SCORE,
            AnswersHealth(2, 0, 5),
        ],
    ),
    (
        "an ack of another number",
        &[
            Takes(Ack(600, "c", 2)),
            ENDS,
            Fired(RoundEnd(1000)),
            SCORE,
            AnswersHealth(2, 0, 5),
        ],
    ),
    (
        "each helper's nack",
        &[
            Takes(Nack(600, "d", 1)),
            Takes(Nack(610, "e", 1)),
            Takes(Nack(620, "f", 1)),
            ENDS,
            Fired(RoundEnd(1000)),
            SCORE,
            AnswersHealth(1, 0, 5),
        ],
    ),
    (
        "two nacks of one",
        &[
            Takes(Nack(600, "d", 1)),
            Takes(Nack(610, "d", 1)),
            Takes(Nack(620, "f", 1)),
            ENDS,
            Fired(RoundEnd(1000)),
            SCORE,
            AnswersHealth(2, 0, 5),
        ],
    ),
    (
        "a nack of the target",
        &[
            Takes(Nack(600, "c", 1)),
            Takes(Nack(610, "e", 1)),
            Takes(Nack(620, "f", 1)),
            ENDS,
            Fired(RoundEnd(1000)),
            SCORE,
            AnswersHealth(2, 0, 5),
        ],
    ),
    (
        "a nack of another number",
        &[
            Takes(Nack(600, "d", 2)),
            Takes(Nack(610, "e", 1)),
            Takes(Nack(620, "f", 1)),
            ENDS,
            Fired(RoundEnd(1000)),
            SCORE,
            AnswersHealth(2, 0, 5),
        ],
    ),
];

/// The round ends.
const ENDS: Step<'static> = Takes(First(1000));

/// The score is asked for.
const SCORE: Step<'static> = Takes(Health(1000));

#[test]
fn counts_acks_and_nacks(rt: HostRuntime) {
    for (case, steps) in COUNTED {
        let mut detector = opened(&rt, rt.alloc());
        play_on(&rt, &mut detector, case, ASKED);
        play_on(&rt, &mut detector, case, steps);
    }
}

/// An Ack or a Nack that came before its sender was asked doesn't count.
const EARLY: &[DetectorCase] = &[
    (
        "an early Ack",
        &[
            Takes(Ping(0, 1, "z", &[Alive("c", 0), Alive("d", 0)])),
            Takes(First(0)),
            Takes(Ack(100, "d", 1)),
            Next(500),
            Takes(First(500)),
            Fired(Direct(500)),
            Sends(1),
            Takes(First(1000)),
            Fired(RoundEnd(1000)),
            Changed(&[Suspect("c", 0, "b")]),
            Takes(Health(1000)),
            AnswersHealth(2, 0, 3),
        ],
    ),
    (
        "an early Nack",
        &[
            Takes(Ping(0, 1, "z", FOUR)),
            Takes(First(0)),
            Takes(Nack(100, "d", 1)),
            Takes(First(500)),
            Takes(Nack(600, "e", 1)),
            Takes(Nack(600, "f", 1)),
            Takes(First(1000)),
            Takes(Health(1000)),
            AnswersHealth(2, 0, 5),
        ],
    ),
];

/// An Ack that counts cancels the asking of helpers. It ends neither this round nor the next one. An Ack that comes
/// after its round does nothing.
const IN_TIME_AND_LATE: &[DetectorCase] = &[
    (
        "in time",
        &[
            Takes(Ping(0, 1, "z", &[Alive("c", 0), Alive("d", 0)])),
            Takes(First(0)),
            Takes(Ack(100, "c", 1)),
            Next(1000),
            Takes(First(1000)),
            Fired(RoundEnd(1000)),
            Changed(&[]),
        ],
    ),
    (
        "late",
        &[
            Takes(Ping(0, 1, "z", &[Alive("c", 0)])),
            Takes(First(0)),
            Takes(First(500)),
            Takes(First(1000)),
            Takes(First(1000)),
            Next(2000),
            Takes(Ack(1100, "c", 1)),
            Next(2000),
            Takes(Health(1100)),
            AnswersHealth(1, 0, 2),
        ],
    ),
];

/// Two probes failed. Two Acks come for the third, and only the first of them marks the score.
const TWO_ACKS: DetectorCase = (
    "two Acks",
    &[
        Takes(Ping(0, 1, "z", &[Alive("c", 0)])),
        Takes(First(0)),
        Takes(First(500)),
        Takes(First(1000)),
        Takes(First(1000)),
        Takes(First(2000)),
        Takes(First(3000)),
        Takes(First(3000)),
        Pings(3, "c"),
        Takes(Health(3000)),
        AnswersHealth(2, 0, 2),
        Takes(Ack(3100, "c", 3)),
        Takes(Ack(3100, "c", 3)),
        Takes(Health(3100)),
        AnswersHealth(1, 0, 2),
    ],
);

/// Each case of single Acks and Nacks.
const PLAYED: &[&[DetectorCase]] = &[EARLY, IN_TIME_AND_LATE, &[TWO_ACKS]];

#[test]
fn hears_acks_and_nacks(rt: HostRuntime) {
    for cases in PLAYED {
        play(&rt, rt.alloc(), cases);
    }
}
