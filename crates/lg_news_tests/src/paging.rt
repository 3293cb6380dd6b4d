//! Tables that come page by page to z, which has `wire` 3.
use crate::playing::{play_blank, resume_each};
use lg_detector_testing::DetectorCase;
use lg_detector_testing::Happens::{FromIn, Opens, PullAt};
use lg_detector_testing::Setting::{self, GossipMs, Own, Seed, Wire};
use lg_detector_testing::Step::{self, Replies, Table, Takes};
use lg_packet::Version::{Three, Two};
use lg_testing::Due::Nothing;
use lg_testing::bodies::Says::{Page, PullAfter, PullFirst};
use lg_testing::says::Said::{self, AliveAt};

/// z tells of itself.
const Z: &[Said] = &[AliveAt("z", 7026)];

/// The first twelve of a's table.
const A_TO_L: &[Said] = &[
    AliveAt("a", 7001),
    AliveAt("b", 1),
    AliveAt("c", 2),
    AliveAt("d", 3),
    AliveAt("e", 4),
    AliveAt("f", 5),
    AliveAt("g", 6),
    AliveAt("h", 7),
    AliveAt("i", 8),
    AliveAt("j", 9),
    AliveAt("k", 10),
    AliveAt("l", 11),
];

/// The first six of them.
const A_TO_F: &[Said] = &[
    AliveAt("a", 7001),
    AliveAt("b", 1),
    AliveAt("c", 2),
    AliveAt("d", 3),
    AliveAt("e", 4),
    AliveAt("f", 5),
];

/// How a is opened.
const A: &[Setting] = &[
    Own("a", 7001),
    Wire(3),
    GossipMs(0),
    Seed("b", 1),
    Seed("c", 2),
    Seed("d", 3),
    Seed("e", 4),
    Seed("f", 5),
    Seed("g", 6),
    Seed("h", 7),
    Seed("i", 8),
    Seed("j", 9),
    Seed("k", 10),
    Seed("l", 11),
];

/// z is opened, and asks a for its table.
const OPENS: Step<'static> = Takes(Opens(0, &[Own("z", 7026), Wire(3), GossipMs(0)]));

const ASKS: Step<'static> = Replies(
    PullAt(0, 7001),
    Nothing,
    &[("z", 7001, PullFirst, Z)],
    &[],
    0,
);

/// Twelve of 13 records, and then one.
const TWELVE: &[DetectorCase] = &[
    (
        "a Page of twelve, a",
        &[
            Takes(Opens(0, A)),
            Replies(
                FromIn(5, Three, "z", 7026, PullFirst, Z),
                Nothing,
                &[("a", 7026, Page, A_TO_L)],
                Z,
                0,
            ),
            Replies(
                FromIn(15, Three, "z", 7026, PullAfter("l"), Z),
                Nothing,
                &[("a", 7026, Page, Z)],
                &[],
                0,
            ),
        ],
    ),
    (
        "a Page of twelve, z",
        &[
            OPENS,
            ASKS,
            Replies(
                FromIn(10, Three, "a", 7001, Page, A_TO_L),
                Nothing,
                &[("z", 7001, PullAfter("l"), Z)],
                A_TO_L,
                0,
            ),
            Replies(FromIn(20, Three, "a", 7001, Page, Z), Nothing, &[], &[], 0),
            Table(&[
                AliveAt("a", 7001),
                AliveAt("b", 1),
                AliveAt("c", 2),
                AliveAt("d", 3),
                AliveAt("e", 4),
                AliveAt("f", 5),
                AliveAt("g", 6),
                AliveAt("h", 7),
                AliveAt("i", 8),
                AliveAt("j", 9),
                AliveAt("k", 10),
                AliveAt("l", 11),
                AliveAt("z", 7026),
            ]),
        ],
    ),
];

/// a has `wire` 2: its Page of six is full, and the one of five isn't. z answers its Pull by one Page of eleven.
const SIX: DetectorCase = (
    "a Page of six",
    &[
        OPENS,
        ASKS,
        Replies(
            FromIn(10, Two, "a", 7001, Page, A_TO_F),
            Nothing,
            &[("z", 7001, PullAfter("f"), Z)],
            A_TO_F,
            0,
        ),
        Replies(
            FromIn(
                20,
                Two,
                "a",
                7001,
                Page,
                &[
                    AliveAt("g", 6),
                    AliveAt("h", 7),
                    AliveAt("i", 8),
                    AliveAt("j", 9),
                    AliveAt("z", 7026),
                ],
            ),
            Nothing,
            &[],
            &[
                AliveAt("g", 6),
                AliveAt("h", 7),
                AliveAt("i", 8),
                AliveAt("j", 9),
            ],
            0,
        ),
        Replies(
            FromIn(35, Two, "a", 7001, PullFirst, &[AliveAt("a", 7001)]),
            Nothing,
            &[(
                "z",
                7001,
                Page,
                &[
                    AliveAt("a", 7001),
                    AliveAt("b", 1),
                    AliveAt("c", 2),
                    AliveAt("d", 3),
                    AliveAt("e", 4),
                    AliveAt("f", 5),
                    AliveAt("g", 6),
                    AliveAt("h", 7),
                    AliveAt("i", 8),
                    AliveAt("j", 9),
                    AliveAt("z", 7026),
                ],
            )],
            &[],
            0,
        ),
    ],
);

/// Each case, resumed at each place.
#[test]
fn learns_a_table_by_pages(rt: HostRuntime) {
    for cases in [TWELVE, &[SIX]] {
        play_blank(&rt, rt.alloc(), cases);
        resume_each(&rt, rt.alloc(), &None, cases);
    }
}
