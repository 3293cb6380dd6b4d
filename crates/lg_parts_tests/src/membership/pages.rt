//! The table, page by page.
use super::playing::Step::{self, Known, Opens, OpensIn, Page, Says, Seeds};
use super::playing::{Case, play};
use lg_testing::says::Said::{Alive, AliveFar, Failed, Left, Suspect, SuspectFar};

/// d's group also has a, b, c, e, f, h and i; b is suspected, and f failed. The pages hold the whole table. The name
/// before a page need not be known. If d's own record is the first of a page, it isn't on the next one.
const EIGHT: Case = (
    "eight members",
    &[
        Opens("d"),
        Seeds(&[
            Alive("h", 0),
            Alive("a", 0),
            Alive("f", 0),
            Alive("c", 0),
            Alive("i", 0),
            Alive("e", 0),
            Alive("b", 0),
        ]),
        Says(10, Suspect("b", 4, "h")),
        Says(20, Failed("f", 0)),
        Page(
            None,
            &[
                Alive("a", 0),
                Suspect("b", 4, "h"),
                Alive("c", 0),
                Alive("d", 0),
                Alive("e", 0),
                Failed("f", 0),
            ],
        ),
        Page(Some("f"), &[Alive("h", 0), Alive("i", 0)]),
        Page(Some("i"), &[]),
        Page(Some("g"), &[Alive("h", 0), Alive("i", 0)]),
        Page(
            Some("cc"),
            &[
                Alive("d", 0),
                Alive("e", 0),
                Failed("f", 0),
                Alive("h", 0),
                Alive("i", 0),
            ],
        ),
        Page(
            Some("d"),
            &[Alive("e", 0), Failed("f", 0), Alive("h", 0), Alive("i", 0)],
        ),
    ],
);

/// A page with only the member itself, and pages with nobody.
const FEW: &[Case] = &[
    ("oneself", &[Opens("b"), Page(None, &[Alive("b", 0)])]),
    ("nobody", &[Page(None, &[]), Page(Some("A"), &[])]),
];

#[test]
fn pages_hold_the_whole_table(rt: HostRuntime) {
    play(&rt, &[EIGHT]);
    play(&rt, FEW);
}

/// The members a to n, the opener d among them.
const SEEDED: Step = Seeds(&[
    Alive("n", 0),
    Alive("m", 0),
    Alive("l", 0),
    Alive("k", 0),
    Alive("j", 0),
    Alive("i", 0),
    Alive("h", 0),
    Alive("g", 0),
    Alive("f", 0),
    Alive("e", 0),
    Alive("c", 0),
    Alive("b", 0),
    Alive("a", 0),
]);

/// The records of the first six of them.
const FIRST_SIX: Step = Page(
    None,
    &[
        Alive("a", 0),
        Alive("b", 0),
        Alive("c", 0),
        Alive("d", 0),
        Alive("e", 0),
        Alive("f", 0),
    ],
);

/// The records of the first twelve of them.
const FIRST_TWELVE: Step = Page(
    None,
    &[
        Alive("a", 0),
        Alive("b", 0),
        Alive("c", 0),
        Alive("d", 0),
        Alive("e", 0),
        Alive("f", 0),
        Alive("g", 0),
        Alive("h", 0),
        Alive("i", 0),
        Alive("j", 0),
        Alive("k", 0),
        Alive("l", 0),
    ],
);

/// A page has six records with `wire` 1 or 2, and twelve with `wire` 3.
const FULL: &[Case] = &[
    ("fourteen, wire 1", &[OpensIn("d", 1), SEEDED, FIRST_SIX]),
    ("fourteen, wire 2", &[OpensIn("d", 2), SEEDED, FIRST_SIX]),
    (
        "fourteen, wire 3",
        &[
            OpensIn("d", 3),
            SEEDED,
            FIRST_TWELVE,
            Page(Some("l"), &[Alive("m", 0), Alive("n", 0)]),
            Page(Some("n"), &[]),
        ],
    ),
];

/// Members at addresses of sixteen bytes, and some that left.
const MIXED: Step = Seeds(&[
    AliveFar("a"),
    Alive("c", 0),
    AliveFar("e"),
    Left("f", 0),
    SuspectFar("g", "c"),
    Alive("h", 0),
    Alive("i", 0),
    Left("j", 0),
    Alive("k", 0),
]);

/// The records of the first six of these at an address of four bytes.
const PASSED_OVER: Step = Page(
    None,
    &[
        Alive("b", 0),
        Alive("c", 0),
        Left("f", 0),
        Alive("h", 0),
        Alive("i", 0),
        Left("j", 0),
    ],
);

/// What a version can't tell takes no place in a page: others come in its place. It is known all the same.
const TOLD: &[Case] = &[
    (
        "two families, wire 1",
        &[
            OpensIn("b", 1),
            MIXED,
            PASSED_OVER,
            Page(Some("j"), &[Alive("k", 0)]),
            Known("e", Some(AliveFar("e"))),
        ],
    ),
    (
        "two families, wire 2",
        &[OpensIn("b", 2), MIXED, PASSED_OVER],
    ),
    (
        "two families, wire 3",
        &[
            OpensIn("b", 3),
            MIXED,
            Page(
                None,
                &[
                    AliveFar("a"),
                    Alive("b", 0),
                    Alive("c", 0),
                    AliveFar("e"),
                    Left("f", 0),
                    SuspectFar("g", "c"),
                    Alive("h", 0),
                    Alive("i", 0),
                    Left("j", 0),
                    Alive("k", 0),
                ],
            ),
        ],
    ),
];

/// How many records a page has, and which, goes by the version that is sent.
#[test]
fn pages_go_by_their_version(rt: HostRuntime) {
    play(&rt, FULL);
    play(&rt, TOLD);
}
