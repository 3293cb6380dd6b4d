//! Which route each target has, and why others have none.
use crate::target::parts_of;
use Route::{Changes, Config, Explain, Health, Member, Members, Metrics, Page, Targets};
use RouteFault::{BadChanges, BadPort, BadStatus, NoName, NoQuery, PostOnly, UnknownPath};
use lg_answers::StatusKind::{Alive, Failed, Left, Suspect};
use lg_answers::{MAX_WAIT_MS, Route, RouteFault, route_of, wait_of};
use lg_http::Wait;
use lg_testing::name;

/// The changes behind a version, with a wait in milliseconds.
fn changes(after: u64, wait_ms: u64) -> Route {
    Changes(Wait { after, wait_ms })
}

/// The member with a name.
fn member(text: &[u8]) -> Route {
    Member(name(text))
}

/// Each path, with each query that it takes.
#[test]
fn routes(rt: HostRuntime) {
    let rows = [
        ("/", Page),
        ("/v1/members", Members(None)),
        ("/v1/members?", Members(None)),
        ("/v1/members?status=alive", Members(Some(Alive))),
        ("/v1/members?status=suspect", Members(Some(Suspect))),
        ("/v1/members?status=failed", Members(Some(Failed))),
        ("/v1/members?status=left", Members(Some(Left))),
        ("/v1/members/b", member(b"b")),
        ("/v1/members/B-2.example_x", member(b"B-2.example_x")),
        (
            "/v1/members/12345678901234567890123456789012",
            member(b"12345678901234567890123456789012"),
        ),
        ("/v1/explain/b", Explain(name(b"b"))),
        (
            "/v1/explain/B-2.example_x?",
            Explain(name(b"B-2.example_x")),
        ),
        (
            "/v1/explain/12345678901234567890123456789012",
            Explain(name(b"12345678901234567890123456789012")),
        ),
        ("/v1/health", Health),
        ("/v1/changes", changes(0, 0)),
        ("/v1/changes?after=41", changes(41, 0)),
        ("/v1/changes?wait_ms=5000", changes(0, 5000)),
        (
            "/v1/changes?after=41&wait_ms=30000",
            changes(41, MAX_WAIT_MS),
        ),
        (
            "/v1/changes?wait_ms=0&after=9999999999999999",
            changes(9_999_999_999_999_999, 0),
        ),
        ("/v1/config", Config),
        ("/metrics", Metrics),
        ("/v1/prometheus", Targets(None)),
        ("/v1/prometheus?", Targets(None)),
        ("/v1/prometheus?port=9100", Targets(Some(9100))),
        ("/v1/prometheus?port=1", Targets(Some(1))),
        ("/v1/prometheus?port=65535", Targets(Some(65_535))),
    ];
    for (target, route) in rows {
        let (path, query) = parts_of(target);
        assert_eq!(rt; route_of(path, query), Ok(route), "{target}");
    }
    assert!(rt; MAX_WAIT_MS == 30_000);
}

/// Targets that have no route, with the fault.
#[test]
fn faults(rt: HostRuntime) {
    let rows = [
        ("", UnknownPath),
        ("/v1", UnknownPath),
        ("/v1/members2", UnknownPath),
        ("/V1/health", UnknownPath),
        ("/v1/explain", UnknownPath),
        ("/v1/explains/b", UnknownPath),
        ("/v1/Explain/b", UnknownPath),
        ("/metrics/", UnknownPath),
        ("*", UnknownPath),
        ("http://127.0.0.1:8946/", UnknownPath),
        ("/v1/leave/", UnknownPath),
        ("/v1/leave", PostOnly),
        ("/v1/leave?", PostOnly),
        ("/v1/leave?a=1", PostOnly),
        ("/v1/members/", NoName),
        ("/v1/members/b%2D2", NoName),
        ("/v1/members/a/b", NoName),
        ("/v1/members/123456789012345678901234567890123", NoName),
        ("/v1/explain/", NoName),
        ("/v1/explain/?", NoName),
        ("/v1/explain/b%2D2", NoName),
        ("/v1/explain/a/b", NoName),
        ("/v1/explain/123456789012345678901234567890123", NoName),
        ("/v1/explain/a/b?all", NoName),
        ("/?a", NoQuery),
        ("/v1/health?status=alive", NoQuery),
        ("/v1/config?a=1", NoQuery),
        ("/metrics?a=1", NoQuery),
        ("/v1/members/b?status=alive", NoQuery),
        ("/v1/explain/b?all", NoQuery),
        ("/v1/explain/b?at=9012", NoQuery),
        ("/v1/members?status=dead", BadStatus),
        ("/v1/members?status=", BadStatus),
        ("/v1/members?status=alive&status=failed", BadStatus),
        ("/v1/changes?wait_ms=30001", BadChanges),
        ("/v1/changes?after=", BadChanges),
        ("/v1/changes?after=-1", BadChanges),
        ("/v1/changes?after=12345678901234567", BadChanges),
        ("/v1/changes?after=1&after=2", BadChanges),
        ("/v1/changes?since=1", BadChanges),
        ("/v1/changes?after=1&wait_ms=2&x=3", BadChanges),
        ("/v1/prometheus/", UnknownPath),
        ("/v1/prometheus?port=0", BadPort),
        ("/v1/prometheus?port=65536", BadPort),
        ("/v1/prometheus?port=", BadPort),
        ("/v1/prometheus?port", BadPort),
        ("/v1/prometheus?Port=9100", BadPort),
        ("/v1/prometheus?port=9100&port=9100", BadPort),
        ("/v1/prometheus?status=alive", BadPort),
    ];
    for (target, fault) in rows {
        let (path, query) = parts_of(target);
        assert_eq!(rt; route_of(path, query), Err(fault), "{target}");
    }
}

/// Targets, and what a request for each waits for.
#[test]
fn waits(rt: HostRuntime) {
    let rows = [
        ("/v1/changes", Some((0, 0))),
        ("/v1/changes?", Some((0, 0))),
        ("/v1/changes?after=41", Some((41, 0))),
        ("/v1/changes?after=41&wait_ms=30000", Some((41, 30_000))),
        ("/v1/changes?after=41&wait_ms=30001", None),
        ("/v1/changes/?after=41", None),
        ("/v1/members?after=41", None),
        ("/v1/members", None),
        ("/v1/explain/b", None),
        ("/v1/explain/b?after=41&wait_ms=30000", None),
        ("/v1/leave", None),
        ("/", None),
    ];
    for (target, wanted) in rows {
        let (path, query) = parts_of(target);
        let wait = wait_of(path, query).map(|wait| (wait.after, wait.wait_ms));
        assert_eq!(rt; wait, wanted, "{target}");
    }
}

/// The status of each fault, and its words, which its message is too.
#[test]
fn words(rt: HostRuntime) {
    let rows = [
        (UnknownPath, 404, "there is nothing at this path"),
        (PostOnly, 405, "this path takes POST alone"),
        (
            NoName,
            400,
            "a name has to be 1 to 32 bytes of A-Z a-z 0-9 . _ -",
        ),
        (NoQuery, 400, "this path takes no query"),
        (
            BadStatus,
            400,
            "the query has to be status=alive, status=suspect, status=failed or status=left",
        ),
        (
            BadChanges,
            400,
            "the query takes after=V and wait_ms=W, each at most once, with V of 1 to 16 digits and W 0 to 30000",
        ),
        (
            BadPort,
            400,
            "the query has to be port=P, with P of 1 to 65535",
        ),
    ];
    for (fault, code, words) in rows {
        let message = format!(in rt.alloc(); "{fault}");
        let is_met = fault.status().number() == code
            && fault.text() == words
            && message.is_ok_and(|message| message.as_str() == words);
        assert!(rt; is_met, "{fault:?}");
    }
}
