//! The version of what b sends, by its own `wire` and by the version of what it hears.
use crate::versions::{VersionCase, play_versions};
use lg_detector_testing::Happens::{self, From, Ping, Pull, Tick};
use lg_packet::Version::{One, Three, Two};
use lg_testing::bodies::Says::{Ack, AckFor, Page, PullFirst, Request};
use lg_testing::says::Said::Alive;

/// A Ping for b that tells of c.
const PINGED: &[Happens<'static>] = &[Ping(0, 7, "b", &[Alive("c", 0)])];

/// A request to ping c, and b's first round. At 910 b's Nack is due.
const NACKS: &[Happens<'static>] = &[
    From(510, "a", 1, Request(1, "c", 7003), &[]),
    Tick(910),
    Tick(910),
];

/// A request to ping c, and c's Ack.
const PASSES_ON: &[Happens<'static>] = &[
    From(510, "a", 1, Request(1, "c", 7003), &[]),
    From(600, "c", 7003, Ack(1), &[]),
];

/// The same in version 3, in which c's Ack says that it is for b.
const PASSES_ON_FOR_B: &[Happens<'static>] = &[
    From(510, "a", 1, Request(1, "c", 7003), &[]),
    From(600, "c", 7003, AckFor(1, "b"), &[]),
];

/// A round in which c is pinged. At 500 b asks d to help.
const ASKS_A_HELPER: &[Happens<'static>] = &[
    Ping(0, 1, "z", &[Alive("c", 0), Alive("d", 0)]),
    Tick(0),
    Tick(500),
];

/// What b sends has the version of its own `wire`, whichever version it answers.
const VERSIONS: &[VersionCase] = &[
    ("an Ack of version one", 1, One, PINGED, One),
    ("an Ack of version one to version two", 1, Two, PINGED, One),
    ("an Ack of version two to version one", 2, One, PINGED, Two),
    ("an Ack of version two", 2, Two, PINGED, Two),
    ("a Nack to version one", 2, One, NACKS, Two),
    ("a Nack to version two", 1, Two, NACKS, One),
    (
        "an Ack that is passed on to version one",
        2,
        One,
        PASSES_ON,
        Two,
    ),
    (
        "an Ack that is passed on to version two",
        1,
        Two,
        PASSES_ON,
        One,
    ),
    ("a request", 2, One, ASKS_A_HELPER, Two),
    ("a request of version three", 3, Two, ASKS_A_HELPER, Three),
    (
        "an Ack of version three to version one",
        3,
        One,
        PINGED,
        Three,
    ),
    (
        "an Ack of version three to version two",
        3,
        Two,
        PINGED,
        Three,
    ),
    ("an Ack of version three", 3, Three, PINGED, Three),
    (
        "an Ack of version one to version three",
        1,
        Three,
        PINGED,
        One,
    ),
    (
        "an Ack of version two to version three",
        2,
        Three,
        PINGED,
        Two,
    ),
    (
        "a Nack of version three to version one",
        3,
        One,
        NACKS,
        Three,
    ),
    ("a Nack of version three", 3, Three, NACKS, Three),
    (
        "a Nack of version two to version three",
        2,
        Three,
        NACKS,
        Two,
    ),
    (
        "passed on in version three",
        3,
        Three,
        PASSES_ON_FOR_B,
        Three,
    ),
    ("passed on in version one", 1, Three, PASSES_ON_FOR_B, One),
    (
        "passed on in version three from version two",
        3,
        Two,
        PASSES_ON,
        Three,
    ),
];

#[test]
fn sends_its_own_version(rt: HostRuntime) {
    play_versions(&rt, rt.alloc(), VERSIONS);
}

/// b is asked for its table.
const PULLED: &[Happens<'static>] = &[From(0, "a", 1, PullFirst, &[])];

/// A Page of six claims comes.
const PAGED: &[Happens<'static>] = &[From(
    0,
    "a",
    1,
    Page,
    &[
        Alive("a", 0),
        Alive("c", 0),
        Alive("d", 0),
        Alive("e", 0),
        Alive("f", 0),
        Alive("g", 0),
    ],
)];

/// Pulls and Pages have the version of b's own `wire`, whichever version they answer.
const JOINING: &[VersionCase] = &[
    ("a Pull", 2, One, &[Pull(5)], Two),
    ("a Page to version one", 2, One, PULLED, Two),
    ("a Page to version two", 1, Two, PULLED, One),
    ("the next Pull to version one", 2, One, PAGED, Two),
    ("the next Pull to version two", 1, Two, PAGED, One),
    ("a Pull of version three", 3, One, &[Pull(5)], Three),
    (
        "a Page of version three to version one",
        3,
        One,
        PULLED,
        Three,
    ),
    ("a Page of version three", 3, Three, PULLED, Three),
    (
        "a Page of version two to version three",
        2,
        Three,
        PULLED,
        Two,
    ),
    (
        "a Page of version one to version three",
        1,
        Three,
        PULLED,
        One,
    ),
    (
        "the next Pull of version three to version two",
        3,
        Two,
        PAGED,
        Three,
    ),
];

#[test]
fn joins_in_its_own_version(rt: HostRuntime) {
    play_versions(&rt, rt.alloc(), JOINING);
}
