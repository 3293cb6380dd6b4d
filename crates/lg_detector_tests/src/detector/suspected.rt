//! How the suspicion of a member stands: since when it is suspected, by how many confirmations, and until when.
use crate::playing::{blank, opened, play_on};
use lg_detector::Detector;
use lg_detector_testing::Happens::Tick;
use lg_detector_testing::Step::{self, Fired, Hears, Takes};
use lg_testing::Due::Suspicion;
use lg_testing::says::Said::{self, Alive, Failed, Suspect};
use lg_testing::says::{Member, named};

/// How a suspicion stands: the moment of the raise, the least and the greatest timeout, how many confirmations may
/// count, how many came that count, and the moment at which it runs out. All times are in milliseconds.
type Stands = (u64, u64, u64, u64, u64, u64);

/// How the suspicion of a member stands, if it is suspected.
fn stands_of(detector: &Detector, member: Member) -> Option<Stands> {
    match detector.suspicion_of(&named(member)) {
        Some(standing) => {
            let raised = standing.raised.milliseconds();
            let timeout = standing.timeout;
            let confirmations = standing.confirmations;
            let runs_out = raised + timeout.after(confirmations);
            Some((
                raised,
                timeout.min_ms(),
                timeout.max_ms(),
                timeout.confirmations(),
                confirmations,
                runs_out,
            ))
        }
        None => None,
    }
}

/// a, d and e are known, so with c there are five members.
const OTHERS: Step<'static> = Hears(0, &[Alive("a", 0), Alive("d", 0), Alive("e", 0)]);

/// c is suspected by d, e and others.
const BY_A: Said = Suspect("c", 0, "a");

const BY_D: Said = Suspect("c", 0, "d");

const BY_E: Said = Suspect("c", 0, "e");

const BY_Z: Said = Suspect("c", 0, "z");

/// What happens to b, whom one asks about then, and how that one's suspicion stands.
type Case = (
    &'static str,
    &'static [Step<'static>],
    Member,
    Option<Stands>,
);

/// Each accuser but the first confirms the suspicion, once, and three confirmations count.
const SUSPECTED: &[Case] = &[
    (
        "d",
        &[OTHERS, Hears(2000, &[BY_D])],
        "c",
        Some((2000, 5000, 30_000, 3, 0, 32_000)),
    ),
    (
        "d again",
        &[OTHERS, Hears(2000, &[BY_D]), Hears(3000, &[BY_D])],
        "c",
        Some((2000, 5000, 30_000, 3, 0, 32_000)),
    ),
    (
        "then e",
        &[OTHERS, Hears(2000, &[BY_D]), Hears(3000, &[BY_E])],
        "c",
        Some((2000, 5000, 30_000, 3, 1, 19_500)),
    ),
    (
        "then a",
        &[OTHERS, Hears(2000, &[BY_D, BY_E, BY_A])],
        "c",
        Some((2000, 5000, 30_000, 3, 2, 12_200)),
    ),
    (
        "then z, a stranger",
        &[OTHERS, Hears(2000, &[BY_D, BY_E, BY_A, BY_Z])],
        "c",
        Some((2000, 5000, 30_000, 3, 3, 7000)),
    ),
    (
        "one more, which doesn't count",
        &[
            OTHERS,
            Hears(2000, &[BY_D, BY_E, BY_A, BY_Z, Suspect("c", 0, "y")]),
        ],
        "c",
        Some((2000, 5000, 30_000, 3, 3, 7000)),
    ),
    (
        "among four, where no confirmation counts",
        &[
            Hears(0, &[Alive("a", 0), Alive("d", 0)]),
            Hears(2000, &[BY_D, BY_E]),
        ],
        "c",
        Some((2000, 5000, 30_000, 0, 0, 7000)),
    ),
    (
        "anew, at a greater incarnation",
        &[
            OTHERS,
            Hears(2000, &[BY_D, BY_E]),
            Hears(3000, &[Suspect("c", 1, "e")]),
        ],
        "c",
        Some((3000, 5000, 30_000, 3, 0, 33_000)),
    ),
];

/// Who isn't suspected.
const CALM: &[Case] = &[
    ("an alive member", &[OTHERS], "a", None),
    ("an accuser", &[OTHERS, Hears(2000, &[BY_D])], "d", None),
    ("an unknown one", &[OTHERS, Hears(2000, &[BY_D])], "z", None),
    (
        "itself",
        &[OTHERS, Hears(2000, &[Suspect("b", 0, "d")])],
        "b",
        None,
    ),
    (
        "one that refuted it",
        &[OTHERS, Hears(2000, &[BY_D]), Hears(3000, &[Alive("c", 1)])],
        "c",
        None,
    ),
    (
        "one that failed",
        &[OTHERS, Hears(2000, &[BY_D]), Hears(3000, &[Failed("c", 0)])],
        "c",
        None,
    ),
    (
        "one whose suspicion ran out",
        &[
            OTHERS,
            Hears(2000, &[BY_D]),
            Takes(Tick(40_000)),
            Takes(Tick(40_000)),
            Fired(Suspicion(32_000, "c")),
        ],
        "c",
        None,
    ),
];

#[test]
fn tells_of_suspicions(rt: HostRuntime) {
    let nobody = blank(&rt, rt.alloc());
    assert_eq!(rt; stands_of(&nobody, "c"), None);
    for (case, steps, member, stands) in SUSPECTED.iter().chain(CALM) {
        let mut detector = opened(&rt, rt.alloc());
        play_on(&rt, &mut detector, case, steps);
        assert_eq!(rt; stands_of(&detector, member), *stands, "{case}");
    }
}
