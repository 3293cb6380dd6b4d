//! What a node shows over HTTP, from looks at an agent of b in memory, and what it counts. Another pass hears packets.

use crate::steps::Step::{
    self, Alive, Asked, Counted, Fails, Garbage, Gets, Goes, Refutes, Shows, Stood, Suspect, Tells,
    Tick, Unsent, Waits as ToWait,
};
use crate::steps::play;
use lg_http::HttpStatus;

/// The steps of a case, and what they show.
const CASES: &[(&str, &[Step])] = &[
    (
        "b alone, and what was shown stays until the next look",
        &[
            Shows(7, 1),
            Gets(
                "/v1/members",
                None,
                HttpStatus::Fine,
                "{\"version\":1,\"moment_ms\":7,\"name\":\"b\",\"members\":[{\"name\":\"b\",\"status\":\"alive\",\
                 \"incarnation\":0,\"address\":\"127.0.0.1\",\"port\":7000,\"accuser\":null}]}",
            ),
            Alive(20, b'c'),
            Gets(
                "/v1/members/c",
                None,
                HttpStatus::NotFound,
                "{\"error\":\"no member of this name is known\"}",
            ),
            Shows(25, 2),
            Gets(
                "/v1/changes",
                Some("after=1&wait_ms=0"),
                HttpStatus::Fine,
                "{\"version\":2,\"missed\":false,\"changes\":[{\"version\":2,\"moment_ms\":20,\"name\":\"c\",\
                 \"status\":\"alive\",\"incarnation\":0,\"address\":\"127.0.0.1\",\"port\":7000,\"accuser\":null}]}",
            ),
        ],
    ),
    (
        "an event that changes no record has no change",
        &[
            Alive(20, b'c'),
            Shows(25, 2),
            Alive(30, b'c'),
            Shows(35, 2),
            Gets(
                "/v1/changes",
                Some("after=2&wait_ms=0"),
                HttpStatus::Fine,
                "{\"version\":3,\"missed\":false,\"changes\":[]}",
            ),
        ],
    ),
    (
        "the score and the incarnation are those of the look",
        &[
            Suspect(20, b'b'),
            Shows(25, 2),
            Gets(
                "/v1/health",
                None,
                HttpStatus::Fine,
                "{\"name\":\"b\",\"score\":1,\"incarnation\":1,\"live\":1,\"known\":1,\"ousted\":false,\
                 \"uptime_ms\":25,\"stood_still_ms\":0}",
            ),
            Counted([1, 0, 0, 0, 0, 1, 2]),
        ],
    ),
    (
        "which requests wait",
        &[
            ToWait("/v1/changes", Some("after=41&wait_ms=1500"), 41, 1500),
            Goes("/v1/members"),
            Goes("/nothing"),
        ],
    ),
    (
        "what is counted",
        &[
            Counted([0, 0, 0, 0, 0, 0, 1]),
            Alive(0, b'c'),
            Counted([1, 0, 0, 0, 0, 0, 2]),
            Tick(0),
            Counted([2, 1, 0, 0, 0, 0, 3]),
            Tick(500),
            Counted([2, 1, 1, 0, 0, 0, 4]),
            Asked(510),
            Counted([3, 1, 1, 1, 0, 0, 5]),
            Suspect(520, b'c'),
            Counted([4, 1, 1, 1, 1, 0, 6]),
            Garbage(530),
            Counted([4, 1, 1, 1, 1, 0, 6]),
        ],
    ),
    (
        "each look shows what happened since the one before",
        &[
            Shows(7, 1),
            Alive(20, b'c'),
            Shows(25, 2),
            Alive(30, b'd'),
            Shows(35, 3),
            Suspect(40, b'c'),
            Shows(45, 4),
            Gets(
                "/v1/changes",
                Some("after=2&wait_ms=0"),
                HttpStatus::Fine,
                "{\"version\":4,\"missed\":false,\"changes\":[{\"version\":3,\"moment_ms\":30,\"name\":\"d\",\
                 \"status\":\"alive\",\"incarnation\":0,\"address\":\"127.0.0.1\",\"port\":7000,\"accuser\":null},\
                 {\"version\":4,\"moment_ms\":40,\"name\":\"c\",\"status\":\"suspect\",\"incarnation\":0,\
                 \"address\":\"127.0.0.1\",\"port\":7000,\"accuser\":\"a\"}]}",
            ),
            Gets(
                "/v1/members/c",
                None,
                HttpStatus::Fine,
                "{\"version\":4,\"name\":\"c\",\"status\":\"suspect\",\"incarnation\":0,\"address\":\"127.0.0.1\",\
                 \"port\":7000,\"accuser\":\"a\"}",
            ),
        ],
    ),
    (
        "a suspicion and its refutation 10 ms later, between two looks, are two changes",
        &[
            Alive(20, b'c'),
            Shows(25, 2),
            Suspect(400, b'c'),
            Refutes(410, b'c'),
            Shows(450, 4),
            Gets(
                "/v1/changes",
                Some("after=2&wait_ms=0"),
                HttpStatus::Fine,
                "{\"version\":4,\"missed\":false,\"changes\":[{\"version\":3,\"moment_ms\":400,\"name\":\"c\",\
                 \"status\":\"suspect\",\"incarnation\":0,\"address\":\"127.0.0.1\",\"port\":7000,\"accuser\":\"a\"},\
                 {\"version\":4,\"moment_ms\":410,\"name\":\"c\",\"status\":\"alive\",\"incarnation\":1,\
                 \"address\":\"127.0.0.1\",\"port\":7000,\"accuser\":null}]}",
            ),
            Gets(
                "/v1/changes",
                Some("after=3&wait_ms=0"),
                HttpStatus::Fine,
                "{\"version\":4,\"missed\":false,\"changes\":[{\"version\":4,\"moment_ms\":410,\"name\":\"c\",\
                 \"status\":\"alive\",\"incarnation\":1,\"address\":\"127.0.0.1\",\"port\":7000,\"accuser\":null}]}",
            ),
        ],
    ),
    (
        "a member that has failed is forgotten a second later, by the second tick: the first one starts a round",
        &[
            Alive(20, b'c'),
            Fails(30, b'c'),
            Tick(1030),
            Shows(1031, 3),
            Tells("/metrics", "\nlg_members{status=\"failed\"} 1\n"),
            Tells("/metrics", "\nlg_members_forgotten_total 0\n"),
            Tick(1032),
            Shows(1035, 5),
            Gets(
                "/v1/changes",
                Some("after=3&wait_ms=0"),
                HttpStatus::Fine,
                "{\"version\":5,\"missed\":false,\"changes\":[{\"version\":5,\"moment_ms\":1032,\"name\":\"c\",\
                 \"status\":\"forgotten\",\"incarnation\":null,\"address\":null,\"port\":null,\
                 \"accuser\":null}]}",
            ),
            Gets(
                "/v1/members/c",
                None,
                HttpStatus::NotFound,
                "{\"error\":\"no member of this name is known\"}",
            ),
            Tells("/metrics", "\nlg_members{status=\"failed\"} 0\n"),
            Tells("/metrics", "\nlg_members_forgotten_total 1\n"),
        ],
    ),
    (
        "the time in which the node stood still",
        &[
            Stood(7),
            Shows(25, 1),
            Gets(
                "/v1/health",
                None,
                HttpStatus::Fine,
                "{\"name\":\"b\",\"score\":0,\"incarnation\":0,\"live\":1,\"known\":1,\"ousted\":false,\
                 \"uptime_ms\":32,\"stood_still_ms\":7}",
            ),
            Tells("/metrics", "\nlg_uptime_seconds 0.032\n"),
            Tells("/metrics", "\nlg_stood_still_seconds_total 0.007\n"),
        ],
    ),
    (
        "the metrics tell what was counted",
        &[
            Unsent(20, b'c'),
            Garbage(30),
            Shows(35, 2),
            Tells("/metrics", "\nlg_datagrams_sent_total 0\n"),
            Tells("/metrics", "\nlg_datagrams_unsent_total 1\n"),
            Tells("/metrics", "\nlg_history_entries_total 2\n"),
            Tells("/metrics", "\nlg_last_event_seconds 0.020\n"),
            Tells(
                "/metrics",
                "\nlg_datagrams_dropped_total{fault=\"Magic\"} 1\n",
            ),
            Tells(
                "/metrics",
                "\nlg_datagrams_dropped_total{fault=\"Forged\"} 0\n",
            ),
        ],
    ),
    (
        "the configuration that is shown is the one that was handed in",
        &[
            Tells("/v1/config", "\"status\":\"127.0.0.1:8946\""),
            Tells("/v1/config", "\"status_open\":true"),
        ],
    ),
];

#[test]
fn shows_what_looks_find(rt: HostRuntime) {
    for (case, steps) in CASES {
        let unmet = play(&rt, rt.alloc(), None, steps);
        assert!(rt; unmet == Some(None), "{case}: step {unmet:?}");
    }
}

/// What is asked of a node about a recording, by its folder if it has one, and what comes.
const EXPLAINED: &[(&str, Option<&str>, Step)] = &[
    (
        "it doesn't record",
        None,
        Gets(
            "/v1/explain/c",
            None,
            HttpStatus::NotFound,
            "{\"error\":\"this node doesn't record\"}",
        ),
    ),
    (
        "its folder isn't there",
        Some("no/such/folder"),
        Gets(
            "/v1/explain/c",
            None,
            HttpStatus::Unavailable,
            "{\"error\":\"the recording can't be read\"}",
        ),
    ),
    (
        "a query is refused before the folder is looked at",
        Some("no/such/folder"),
        Gets(
            "/v1/explain/c",
            Some("all"),
            HttpStatus::BadRequest,
            "{\"error\":\"this path takes no query\"}",
        ),
    ),
    (
        "what else it shows doesn't need the folder",
        Some("no/such/folder"),
        Gets(
            "/v1/members/c",
            None,
            HttpStatus::NotFound,
            "{\"error\":\"no member of this name is known\"}",
        ),
    ),
];

#[test]
fn tells_of_recordings(rt: HostRuntime) {
    for (case, folder, step) in EXPLAINED {
        let unmet = play(&rt, rt.alloc(), *folder, &[*step]);
        assert!(rt; unmet == Some(None), "{case}: step {unmet:?}");
    }
}
