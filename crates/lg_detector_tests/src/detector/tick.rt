//! Ticks, and the timers that they fire.
use crate::playing::{play, play_blank};
use lg_detector_testing::DetectorCase;
use lg_detector_testing::Happens::{Ask, Health, Opens, Ping, Tick};
use lg_detector_testing::Step::{
    self, Events, Fired, Hears, Known, Next, Sends, Table, Takes, Ticks,
};
use lg_testing::Due::{Direct, Nothing, RoundEnd, RoundStart, Suspicion};
use lg_testing::says::Said::{self, Alive, Failed, Suspect};

/// Nothing fires before the deadline.
const IDLE: DetectorCase = (
    "c is suspected",
    &[
        Takes(Ping(0, 1, "b", &[Suspect("c", 0, "d")])),
        Table(&[Alive("b", 0), Suspect("c", 0, "d")]),
        Takes(Tick(0)),
        Fired(RoundStart(0)),
        Next(500),
        Ticks(499, Nothing, &[], 500),
        Table(&[Alive("b", 0), Suspect("c", 0, "d")]),
        Events(4),
    ],
);

/// A tick fires one timer.
const THREE_DUE: DetectorCase = (
    "three timers are due",
    &[
        Takes(Ping(0, 1, "b", &[Suspect("d", 2, "a"), Suspect("c", 1, "a")])),
        Takes(Tick(20_000)),
        Fired(RoundStart(0)),
        Next(5000),
        Ticks(20_000, Suspicion(5000, "c"), &[Failed("c", 1)], 5000),
        Ticks(20_000, Suspicion(5000, "d"), &[Failed("d", 2)], 20_500),
        Ticks(20_000, Nothing, &[], 20_500),
    ],
);

/// The end of a round fires before suspicions, and these before the start of a round. Among suspicions, a name fires
/// before the names that it begins. Two helpers sent no Nack, so the score is 2 at the start.
const FIVE_AT_ONCE: DetectorCase = (
    "five timers at 5000",
    &[
        Takes(Ping(
            0,
            1,
            "b",
            &[
                Suspect("ca", 0, "a"),
                Suspect("c", 0, "a"),
                Suspect("Z", 0, "a"),
            ],
        )),
        Takes(Tick(4000)),
        Fired(RoundStart(0)),
        Next(4500),
        Takes(Tick(5000)),
        Fired(Direct(4500)),
        Sends(2),
        Ticks(5000, RoundEnd(5000), &[], 5000),
        Ticks(5000, Suspicion(5000, "Z"), &[Failed("Z", 0)], 5000),
        Ticks(5000, Suspicion(5000, "c"), &[Failed("c", 0)], 5000),
        Ticks(5000, Suspicion(5000, "ca"), &[Failed("ca", 0)], 5000),
        Ticks(5000, RoundStart(5000), &[], 8000),
    ],
);

/// Ticks count from the greatest moment that was handed in.
const OUT_OF_ORDER: DetectorCase = (
    "moments out of order",
    &[
        Takes(Opens(5000, &[])),
        Ticks(4000, RoundStart(5000), &[], 6000),
        Ticks(9000, RoundStart(6000), &[], 10_000),
        Ticks(1000, Nothing, &[], 10_000),
        Takes(Ping(2000, 1, "b", &[Suspect("c", 0, "d")])),
        Takes(Ask(13_000, "c")),
        Takes(Tick(9500)),
        Fired(RoundStart(10_000)),
        Next(13_500),
        Takes(Health(14_000)),
        Ticks(0, Direct(13_500), &[], 14_000),
        Ticks(0, RoundEnd(14_000), &[], 14_000),
        Ticks(0, Suspicion(14_000, "c"), &[Failed("c", 0)], 14_000),
        Ticks(0, RoundStart(14_000), &[], 16_000),
    ],
);

#[test]
fn counts_from_the_greatest_moment(rt: HostRuntime) {
    play_blank(&rt, rt.alloc(), &[OUT_OF_ORDER]);
}

/// A round takes the score at its start. A round that runs already stays as it is.
const SCALED: DetectorCase = (
    "two refutations",
    &[
        Takes(Tick(0)),
        Next(1000),
        Takes(Ping(500, 1, "b", &[Suspect("b", 0, "a"), Suspect("b", 1, "a")])),
        Next(1000),
        Takes(Tick(1000)),
        Fired(RoundStart(1000)),
        Next(4000),
    ],
);

/// a, d and e are known.
const OTHERS: Step<'static> = Hears(0, &[Alive("a", 0), Alive("d", 0), Alive("e", 0)]);

/// c is suspected by d, e and others.
const BY_A: Said = Suspect("c", 0, "a");

const BY_B: Said = Suspect("c", 0, "b");

const BY_C: Said = Suspect("c", 0, "c");

const BY_D: Said = Suspect("c", 0, "d");

const BY_E: Said = Suspect("c", 0, "e");

const BY_Z: Said = Suspect("c", 0, "z");

/// A tick after the deadline of each suspicion.
const LATE: Step<'static> = Takes(Tick(40_000));

/// What is said at 2000, each claim in a Ping of its own, and the deadline of c's suspicion, which no score scales.
/// After the first start of a round has fired, this is the next deadline.
const ACCUSED: &[DetectorCase] = &[
    ("d", &[OTHERS, Hears(2000, &[BY_D]), LATE, Next(32_000)]),
    (
        "d, at a score of 1",
        &[
            OTHERS,
            Hears(2000, &[Suspect("b", 0, "a"), BY_D]),
            LATE,
            Next(32_000),
        ],
    ),
    (
        "d again",
        &[OTHERS, Hears(2000, &[BY_D, BY_D]), LATE, Next(32_000)],
    ),
    (
        "then e",
        &[OTHERS, Hears(2000, &[BY_D, BY_D, BY_E]), LATE, Next(19_500)],
    ),
    (
        "then a",
        &[
            OTHERS,
            Hears(2000, &[BY_D, BY_D, BY_E, BY_A]),
            LATE,
            Next(12_200),
        ],
    ),
    (
        "then z, a stranger",
        &[
            OTHERS,
            Hears(2000, &[BY_D, BY_D, BY_E, BY_A, BY_Z]),
            LATE,
            Next(7000),
        ],
    ),
    (
        "one more",
        &[
            OTHERS,
            Hears(2000, &[BY_D, BY_E, BY_A, BY_Z, BY_B]),
            LATE,
            Next(7000),
        ],
    ),
    (
        "in another order",
        &[
            OTHERS,
            Hears(2000, &[BY_Z, BY_E, BY_D, BY_A]),
            LATE,
            Next(7000),
        ],
    ),
    (
        "c itself",
        &[OTHERS, Hears(2000, &[BY_D, BY_C]), LATE, Next(19_500)],
    ),
];

/// c is suspected by d and e at 2000, among five.
const BY_TWO: Step<'static> = Takes(Ping(
    2000,
    1,
    "z",
    &[Suspect("c", 1, "d"), Suspect("c", 1, "e")],
));

/// What is said at 3000 of c, which d and e suspected at 2000 among five, and the suspicion's deadline then. After
/// the first start of a round has fired, this is the next deadline. If there is no suspicion, the next one is 40,500,
/// when helpers are asked.
const THEN_SAID: &[DetectorCase] = &[
    (
        "nothing",
        &[
            OTHERS,
            BY_TWO,
            Takes(Ping(3000, 1, "z", &[])),
            LATE,
            Next(19_500),
            LATE,
            Fired(Suspicion(19_500, "c")),
        ],
    ),
    (
        "a lesser accusation",
        &[
            OTHERS,
            BY_TWO,
            Takes(Ping(3000, 1, "z", &[Suspect("c", 0, "a")])),
            LATE,
            Next(19_500),
            LATE,
            Fired(Suspicion(19_500, "c")),
        ],
    ),
    (
        "alive at the same number",
        &[
            OTHERS,
            BY_TWO,
            Takes(Ping(3000, 1, "z", &[Alive("c", 1)])),
            LATE,
            Next(19_500),
            LATE,
            Fired(Suspicion(19_500, "c")),
        ],
    ),
    (
        "a greater accusation",
        &[
            OTHERS,
            BY_TWO,
            Takes(Ping(3000, 1, "z", &[Suspect("c", 2, "f")])),
            LATE,
            Next(33_000),
            LATE,
            Fired(Suspicion(33_000, "c")),
        ],
    ),
    (
        "and its confirmation",
        &[
            OTHERS,
            BY_TWO,
            Takes(Ping(3000, 1, "z", &[Suspect("c", 2, "f"), Suspect("c", 2, "d")])),
            LATE,
            Next(20_500),
            LATE,
            Fired(Suspicion(20_500, "c")),
        ],
    ),
    (
        "and an old accusation",
        &[
            OTHERS,
            BY_TWO,
            Takes(Ping(3000, 1, "z", &[Suspect("c", 2, "f"), Suspect("c", 1, "a")])),
            LATE,
            Next(33_000),
            LATE,
            Fired(Suspicion(33_000, "c")),
        ],
    ),
    (
        "alive",
        &[
            OTHERS,
            BY_TWO,
            Takes(Ping(3000, 1, "z", &[Alive("c", 2)])),
            LATE,
            Next(40_500),
            LATE,
            Fired(Nothing),
        ],
    ),
    (
        "alive, and suspected again",
        &[
            OTHERS,
            BY_TWO,
            Takes(Ping(3000, 1, "z", &[Alive("c", 2), Suspect("c", 2, "d")])),
            LATE,
            Next(33_000),
            LATE,
            Fired(Suspicion(33_000, "c")),
        ],
    ),
    (
        "failed at a lesser number",
        &[
            OTHERS,
            BY_TWO,
            Takes(Ping(3000, 1, "z", &[Failed("c", 0)])),
            LATE,
            Next(19_500),
            LATE,
            Fired(Suspicion(19_500, "c")),
        ],
    ),
    (
        "failed",
        &[
            OTHERS,
            BY_TWO,
            Takes(Ping(3000, 1, "z", &[Failed("c", 1)])),
            LATE,
            Next(40_500),
            LATE,
            Fired(Nothing),
        ],
    ),
    (
        "failed, and suspected at the same number",
        &[
            OTHERS,
            BY_TWO,
            Takes(Ping(3000, 1, "z", &[Failed("c", 1), Suspect("c", 1, "a")])),
            LATE,
            Next(40_500),
            LATE,
            Fired(Nothing),
        ],
    ),
    (
        "failed, and suspected at a greater number",
        &[
            OTHERS,
            BY_TWO,
            Takes(Ping(3000, 1, "z", &[Failed("c", 1), Suspect("c", 2, "d")])),
            LATE,
            Next(33_000),
            LATE,
            Fired(Suspicion(33_000, "c")),
        ],
    ),
];

/// No tick fires a suspicion that a claim ended: the next deadline is that of the round.
const ENDED: &[DetectorCase] = &[
    (
        "alive",
        &[
            Takes(Ping(2000, 1, "z", &[Suspect("c", 0, "d")])),
            Takes(Ping(3000, 1, "z", &[Alive("c", 1)])),
            Takes(Tick(6500)),
            Fired(RoundStart(0)),
            Next(7000),
            Known("c", Some(Alive("c", 1))),
        ],
    ),
    (
        "failed",
        &[
            Takes(Ping(2000, 1, "z", &[Suspect("c", 0, "d")])),
            Takes(Ping(3000, 1, "z", &[Failed("c", 0)])),
            Takes(Tick(6500)),
            Fired(RoundStart(0)),
            Next(7500),
            Known("c", Some(Failed("c", 0))),
        ],
    ),
];

/// Cases of ticks on a b that is open.
const PLAYED: &[&[DetectorCase]] = &[&[IDLE], &[THREE_DUE, FIVE_AT_ONCE], &[SCALED], ENDED];

#[test]
fn fires_timers(rt: HostRuntime) {
    for cases in PLAYED {
        play(&rt, rt.alloc(), cases);
    }
}

#[test]
fn accusers_move_a_suspicion(rt: HostRuntime) {
    play(&rt, rt.alloc(), ACCUSED);
}

#[test]
fn claims_change_a_suspicion(rt: HostRuntime) {
    play(&rt, rt.alloc(), THEN_SAID);
}
