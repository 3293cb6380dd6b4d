//! Questions: for the record of a name, and for the health.
use crate::playing::{blank, play, play_blank, play_on};
use arrayvec::ArrayVec;
use lg_detector::{Detector, MAX_MEMBERS};
use lg_detector_testing::DetectorCase;
use lg_detector_testing::Happens::{Ask, Health, Opens, Ping, Tick};
use lg_detector_testing::Setting::MaxScore;
use lg_detector_testing::Step::{
    self, Acks, Answers, AnswersHealth, AnswersNothing, Changed, Events, Fired, Known, Moment,
    Next, Ousted, Refuses, Sends, Table, Takes,
};
use lg_rules::Record;
use lg_testing::Due::Nothing;
use lg_testing::says::Said::{self, Alive, Failed, Suspect};
use lg_testing::says::are_said;
use std::alloc::Global;

/// Whose record is asked for, and what it is: that of b itself, of c, of d, of the accuser a, and of z.
const RECORDS: DetectorCase = (
    "five questions",
    &[
        Takes(Ping(10, 7, "b", &[Alive("c", 0), Suspect("d", 2, "a")])),
        Takes(Ask(20, "b")),
        Answers(Some(Alive("b", 0))),
        Sends(0),
        Changed(&[]),
        Next(0),
        Known("b", Some(Alive("b", 0))),
        Takes(Ask(20, "c")),
        Answers(Some(Alive("c", 0))),
        Sends(0),
        Changed(&[]),
        Next(0),
        Known("c", Some(Alive("c", 0))),
        Takes(Ask(20, "d")),
        Answers(Some(Suspect("d", 2, "a"))),
        Sends(0),
        Changed(&[]),
        Next(0),
        Known("d", Some(Suspect("d", 2, "a"))),
        Takes(Ask(20, "a")),
        Answers(None),
        Sends(0),
        Changed(&[]),
        Next(0),
        Known("a", None),
        Takes(Ask(20, "z")),
        Answers(None),
        Sends(0),
        Changed(&[]),
        Next(0),
        Known("z", None),
        Events(7),
    ],
);

/// Copies the table into a row, and into a list of its own. Returns whether both are these records.
fn shows(
    detector: &Detector,
    alloc: Global,
    row: &mut ArrayVec<Record, MAX_MEMBERS>,
    members: &[Said],
) -> bool {
    detector.put_table(row);
    match detector.table(alloc) {
        Ok(table) => are_said(row.as_slice(), members) && are_said(table.as_slice(), members),
        Err(_) => false,
    }
}

/// What happens, and who is known after it.
const SHOWN: &[(&str, &[Step<'static>], &[Said])] = &[
    ("nobody", &[], &[]),
    ("b itself", &[Takes(Opens(0, &[]))], &[Alive("b", 0)]),
    (
        "three members",
        &[Takes(Ping(0, 7, "b", &[Alive("c", 0), Alive("a", 0)]))],
        &[Alive("a", 0), Alive("b", 0), Alive("c", 0)],
    ),
];

#[test]
fn shows_the_table(rt: HostRuntime) {
    let mut row = ArrayVec::new();
    let mut detector = blank(&rt, rt.alloc());
    for (case, steps, members) in SHOWN {
        play_on(&rt, &mut detector, case, steps);
        assert!(rt; shows(&detector, rt.alloc(), &mut row, members), "{case}");
    }
}

/// If two accusations have the same incarnation, only the first is refuted.
const REFUTED_ONCE: DetectorCase = (
    "two accusations of one number",
    &[
        Refuses(Health(0)),
        Takes(Opens(0, &[])),
        Takes(Health(0)),
        AnswersHealth(0, 0, 1),
        Takes(Ping(0, 9, "b", &[Suspect("b", 0, "a"), Suspect("b", 0, "c")])),
        Acks(9, &[Alive("b", 1)]),
        AnswersNothing,
        Takes(Health(0)),
        AnswersHealth(1, 1, 1),
    ],
);

#[test]
fn marks_a_refutation_once(rt: HostRuntime) {
    play_blank(&rt, rt.alloc(), &[REFUTED_ONCE]);
}

/// Claims in one packet, and the score, b's incarnation and the number of members after it. They show what marks the
/// score, and what doesn't.
const MARKED: &[DetectorCase] = &[
    (
        "two refutations",
        &[
            Takes(Ping(0, 1, "c", &[Suspect("b", 0, "a"), Suspect("b", 1, "a")])),
            Takes(Health(0)),
            AnswersHealth(2, 2, 1),
        ],
    ),
    (
        "at a greater number",
        &[
            Takes(Ping(0, 1, "c", &[Suspect("b", 7, "a")])),
            Takes(Health(0)),
            AnswersHealth(1, 8, 1),
        ],
    ),
    (
        "a number that is raised",
        &[
            Takes(Ping(0, 1, "c", &[Alive("b", 3)])),
            Takes(Health(0)),
            AnswersHealth(0, 4, 1),
        ],
    ),
    (
        "an accusation of before",
        &[
            Takes(Ping(0, 1, "c", &[Alive("b", 3), Suspect("b", 3, "a")])),
            Takes(Health(0)),
            AnswersHealth(0, 4, 1),
        ],
    ),
    (
        "oneself as failed",
        &[
            Takes(Ping(0, 1, "c", &[Failed("b", 0)])),
            Takes(Health(0)),
            AnswersHealth(0, 1, 1),
        ],
    ),
    (
        "oneself as suspected, and then as failed",
        &[
            Takes(Ping(0, 1, "c", &[Suspect("b", 0, "a"), Failed("b", 1)])),
            Takes(Health(0)),
            AnswersHealth(1, 2, 1),
        ],
    ),
    (
        "oneself as failed, beyond raising",
        &[
            Takes(Ping(0, 1, "c", &[Failed("b", 1_000_000_000)])),
            Takes(Health(0)),
            AnswersHealth(0, 0, 1),
        ],
    ),
    (
        "beyond refuting",
        &[
            Takes(Ping(0, 1, "c", &[Suspect("b", 1_000_000_000, "a")])),
            Takes(Health(0)),
            AnswersHealth(0, 0, 1),
        ],
    ),
];

/// Who counts as a member.
const COUNTED: &[DetectorCase] = &[
    (
        "itself",
        &[
            Takes(Ping(0, 1, "c", &[])),
            Takes(Health(0)),
            AnswersHealth(0, 0, 1),
        ],
    ),
    (
        "a suspect",
        &[
            Takes(Ping(0, 1, "c", &[Suspect("c", 0, "b")])),
            Takes(Health(0)),
            AnswersHealth(0, 0, 2),
        ],
    ),
    (
        "one that failed",
        &[
            Takes(Ping(0, 1, "c", &[Failed("d", 0)])),
            Takes(Health(0)),
            AnswersHealth(0, 0, 1),
        ],
    ),
    (
        "one that failed and came back",
        &[
            Takes(Ping(0, 1, "c", &[Failed("d", 0), Alive("d", 1)])),
            Takes(Health(0)),
            AnswersHealth(0, 0, 2),
        ],
    ),
    (
        "all kinds",
        &[
            Takes(Ping(
                0,
                1,
                "c",
                &[
                    Alive("a", 0),
                    Failed("d", 0),
                    Suspect("c", 0, "b"),
                    Alive("d", 0),
                ],
            )),
            Takes(Health(0)),
            AnswersHealth(0, 0, 3),
        ],
    ),
];

/// The greatest score, the number of refutations, one a packet, the score then, and when the next round starts.
const HELD: &[(&str, u64, u32, u64, u64)] = &[
    ("more than 1", 1, 3, 1, 2000),
    ("more than 0", 0, 2, 0, 1000),
    ("as many as 8", 8, 8, 8, 9000),
    ("more than 8", 8, 10, 8, 9000),
];

#[test]
fn holds_the_greatest_score(rt: HostRuntime) {
    for (case, max_score, refutations, score, next) in HELD {
        let mut detector = blank(&rt, rt.alloc());
        let opening = [MaxScore(*max_score)];
        play_on(&rt, &mut detector, case, &[Takes(Opens(0, &opening))]);
        for number in 0..*refutations {
            let accused = [Suspect("b", number, "a")];
            play_on(
                &rt,
                &mut detector,
                case,
                &[Takes(Ping(0, 1, "b", &accused))],
            );
        }
        let after = [
            Takes(Health(0)),
            AnswersHealth(*score, *refutations, 1),
            Takes(Tick(0)),
            Next(*next),
        ];
        play_on(&rt, &mut detector, case, &after);
    }
}

/// Two timers are due. Asking fires neither.
const TWO_DUE: DetectorCase = (
    "two timers are due",
    &[
        Takes(Ping(0, 1, "c", &[Suspect("c", 0, "a")])),
        Table(&[Alive("b", 0), Suspect("c", 0, "a")]),
        Takes(Health(40_000)),
        AnswersHealth(0, 0, 2),
        Fired(Nothing),
        Sends(0),
        Changed(&[]),
        Ousted(false),
        Next(0),
        Table(&[Alive("b", 0), Suspect("c", 0, "a")]),
    ],
);

/// The greatest moment counts, also when an event comes with an earlier one.
const MOMENTS: DetectorCase = (
    "a moment that goes back",
    &[
        Moment(0),
        Takes(Ask(20, "b")),
        Moment(20),
        Takes(Health(10)),
        Moment(20),
        Takes(Ping(30, 1, "b", &[])),
        Moment(30),
    ],
);

/// Each case of questions to a b that is open.
const PLAYED: &[&[DetectorCase]] = &[&[RECORDS], MARKED, COUNTED, &[TWO_DUE], &[MOMENTS]];

#[test]
fn answers(rt: HostRuntime) {
    for cases in PLAYED {
        play(&rt, rt.alloc(), cases);
    }
}
