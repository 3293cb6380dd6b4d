//! How the ticking loop of a node learns which addresses the hosts among its seeds have, and whom it asks then. How
//! they are told.
use super::finding::{C, HOST, KNOWN, MOVED, NEVER, Pulled, Search, asks};
use arrayvec::ArrayVec;
use lg_node::ResolvedSeeds;
use lg_testing::local;

/// A loop of b that has one seed at an address, c, and a host, and hears no Page.
const LEARNING: Search = Search {
    others: 1,
    learns: true,
    page_after: NEVER,
    until: 1000,
    ..KNOWN
};

/// The port of the third address that the host has. The second is that of b.
const THIRD: u16 = HOST + 2;

/// Loops that learn, and their Pulls.
const ROWS: &[(&str, Search, &[Pulled])] = &[
    (
        "a look at once, by which all are asked but b itself",
        Search {
            found: 3,
            ..LEARNING
        },
        &[(0, C), (0, HOST), (0, THIRD)],
    ),
    (
        "the next look comes a second later",
        Search {
            found: 3,
            until: 1001,
            ..LEARNING
        },
        &[
            (0, C),
            (0, HOST),
            (0, THIRD),
            (1000, C),
            (1000, HOST),
            (1000, THIRD),
        ],
    ),
    (
        "nothing was found",
        Search {
            until: 1001,
            ..LEARNING
        },
        &[(1000, C)],
    ),
    (
        "without hosts nothing is learned",
        Search {
            found: 3,
            learns: false,
            until: 1001,
            ..LEARNING
        },
        &[(1000, C)],
    ),
    (
        "hosts alone",
        Search {
            others: 0,
            found: 1,
            ..LEARNING
        },
        &[(0, HOST)],
    ),
    // After two Pulls the hosts have another address, in the place of the three. c is asked before the loop learns it,
    // and all that are seeds then are asked at once.
    (
        "what was learned later counts",
        Search {
            found: 3,
            found_later: (2, 1),
            ..LEARNING
        },
        &[(0, C), (0, HOST), (0, C), (0, MOVED)],
    ),
    (
        "the hosts have no address any more",
        Search {
            found: 3,
            found_later: (1, 0),
            until: 1001,
            ..LEARNING
        },
        &[(0, C), (0, C), (1000, C)],
    ),
    // A Page was heard, so nobody is asked by a look. Asking in turn begins when the addresses are learned, at 0.
    (
        "in turn",
        Search {
            found: 3,
            pull_ms: 300,
            page_after: 0,
            until: 1501,
            ..LEARNING
        },
        &[(300, C), (600, C), (900, HOST), (1200, C), (1500, THIRD)],
    ),
];

#[test]
fn hosts_are_asked(rt: HostRuntime) {
    for &(name, search, pulls) in ROWS {
        assert!(rt; asks(&rt, rt.alloc(), search, pulls), "{name}");
    }
}

/// The addresses that are told last are taken, and once.
#[test]
fn what_is_told_last_is_taken_once(rt: HostRuntime) {
    let resolved = ResolvedSeeds::new();
    let mut found = ArrayVec::new();
    found.push(local(7001));
    let untold = resolved.take(&rt).is_none();
    resolved.tell(&rt, &found);
    found.push(local(7002));
    resolved.tell(&rt, &found);
    let taken = resolved.take(&rt);
    let again = resolved.take(&rt).is_none();
    let is_last = taken.is_some_and(|taken| taken.as_slice() == found.as_slice());
    assert!(rt; untold && is_last && again);
}
