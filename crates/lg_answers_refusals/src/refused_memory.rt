//! Answers that are refused memory once. What each says is shown by `lg_answers_tests`; here three answers to one
//! request are compared, of which one may be refused.
use arrayvec::ArrayVec;
use lg_answers::{
    Changes, Drops, Explained, LeaveAsked, MAX_CHANGES, NodeNumber, Place, SeedPlace, ShownConfig,
    Snapshot, answer_to, explained_answer,
};
use lg_counters::Counters;
use lg_http::HttpAnswer;
use lg_status_server::leave;
use lg_testing::{alive, at, failed, incarnation, letter, local, suspect};
use lg_timing::Config;
use std::alloc::{AllocError, Global};
use std::sync::atomic::AtomicBool;
use std::sync::atomic::Ordering::SeqCst;

/// What the answers of b are made of.
#[derive(Drop)]
struct Sources {
    snapshot: Snapshot,
    changes: Changes,
    setup: ShownConfig,
}

/// A look of b, which is ousted or not, and knows that a is suspected and that c has failed.
fn snapshot(alloc: Global, ousted: bool) -> Result<Snapshot, AllocError> {
    let records = [suspect(b'a', 0, b'c'), alive(b'b', 4), failed(b'c', 2)];
    let (fault, count) = ("Magic", 3);
    Ok(Snapshot {
        version: 41,
        moment: at(5120),
        name: letter(b'b'),
        records: Vec::from_array(alloc, records)?,
        score: 2,
        incarnation: incarnation(4),
        ousted,
        uptime_ms: 5370,
        stood_still_ms: 250,
        last_event_ms: 5003,
        counts: Counters::new(letter(b'b'), at(0)).counts(),
        dropped: Vec::from_array(alloc, [Drops { fault, count }])?,
    })
}

/// What b runs with: the default numbers, and a as its seed.
fn setup(alloc: Global, status_open: bool) -> Result<ShownConfig, AllocError> {
    let mut seeds = ArrayVec::new();
    let (name, place) = (Some(letter(b'a')), Place::Addr(local(7101)));
    seeds.push(SeedPlace { name, place });
    let (key, value) = ("dice", 1);
    Ok(ShownConfig {
        config: Config::new(letter(b'b'), local(7102)),
        numbers: Vec::from_array(alloc, [NodeNumber { key, value }])?,
        status: (!status_open).then_some(local(8946)),
        status_open,
        leave: true,
        bind: local(7102),
        seeds,
    })
}

/// What answers are made of. If b is ill, it is ousted and answers at any address, and before its last changes there
/// were as many as are kept.
fn sources_of(alloc: Global, is_ill: bool) -> Result<Sources, AllocError> {
    let mut changes = Changes::new(alloc)?;
    let older = if is_ill { MAX_CHANGES } else { 0 };
    for _ in 0..older {
        changes.keep_changed(7, at(700), &[alive(b'a', 0)]);
    }
    changes.keep_changed(30, at(4000), &[alive(b'b', 4)]);
    changes.keep_changed(41, at(5120), &[suspect(b'a', 0, b'c'), failed(b'c', 2)]);
    Ok(Sources {
        snapshot: snapshot(alloc, is_ill)?,
        changes,
        setup: setup(alloc, is_ill)?,
    })
}

/// Whether two answers are the same. None if one of them was refused.
fn compared(
    one: &Result<HttpAnswer, AllocError>,
    other: &Result<HttpAnswer, AllocError>,
) -> Option<bool> {
    match (one, other) {
        (Ok(one), Ok(other)) => Some(
            one.status == other.status
                && one.kind == other.kind
                && one.body.as_slice() == other.body.as_slice(),
        ),
        _ => None,
    }
}

/// Whether two of three answers are given, and no two differ.
fn agree(answers: &[Result<HttpAnswer, AllocError>; 3]) -> bool {
    let [first, second, third] = answers;
    let pairs = [
        compared(first, second),
        compared(first, third),
        compared(second, third),
    ];
    pairs.contains(&Some(true)) && !pairs.contains(&Some(false))
}

/// Whether b is ill, and the path and the query of a request.
type Row = (bool, &'static str, Option<&'static str>);

impl Sources {
    /// The answer to a request.
    fn answer(&self, alloc: Global, row: &Row) -> Result<HttpAnswer, AllocError> {
        let (_, path, query) = *row;
        answer_to(
            alloc,
            &self.snapshot,
            &self.changes,
            &self.setup,
            path.as_bytes(),
            query.map(str::as_bytes),
        )
    }

    /// Whether two answers to a request are given, and no two differ.
    fn is_met(&self, alloc: Global, row: &Row) -> bool {
        agree(&[
            self.answer(alloc, row),
            self.answer(alloc, row),
            self.answer(alloc, row),
        ])
    }
}

/// Each kind of answer.
const ROWS: &[Row] = &[
    (false, "/v1/members", None),
    (false, "/v1/members", Some("status=alive")),
    (false, "/v1/members", Some("status=suspect")),
    (false, "/v1/members", Some("status=failed")),
    (false, "/v1/members", Some("status=left")),
    (false, "/v1/members/a", None),
    (false, "/v1/members/d", None),
    (false, "/v1/explain/a", None),
    (false, "/v1/health", None),
    (true, "/v1/health", None),
    (false, "/v1/changes", None),
    (false, "/v1/changes", Some("after=30&wait_ms=30000")),
    (false, "/v1/changes", Some("after=41")),
    (true, "/v1/changes", Some("after=6")),
    (true, "/v1/changes", Some("after=7")),
    (false, "/v1/config", None),
    (true, "/v1/config", None),
    (false, "/v1/prometheus", None),
    (false, "/metrics", None),
    (true, "/metrics", None),
    (false, "/", None),
    (true, "/", None),
    (false, "/v1/leave", None),
    (false, "/v1/member", None),
    (false, "/v1/health", Some("")),
    (false, "/v1/health", Some("a")),
];

/// Each row. What its answers are made of may be refused memory once.
#[test]
fn refused_memory(rt: HostRuntime) {
    for row in ROWS {
        let made = match sources_of(rt.alloc(), row.0) {
            Err(_) => sources_of(rt.alloc(), row.0),
            made => made,
        };
        let is_met = made.is_ok_and(|made| made.is_met(rt.alloc(), row));
        assert!(rt; is_met, "{row:?}");
    }
}

/// What a recording tells, which may be refused memory once itself. What was handed in can be asked for again.
#[test]
fn explains_after_refused_memory(rt: HostRuntime) {
    let line = b"{\"member\":\"c\",\"accounts\":[]}\n";
    let told = match Vec::from_slice(rt.alloc(), line) {
        Err(_) => Vec::from_slice(rt.alloc(), line),
        told => told,
    };
    for explained in [
        Ok(Explained::Unrecorded),
        Ok(Explained::Unreadable),
        told.map(Explained::Told),
    ] {
        let is_met = explained.as_ref().is_ok_and(|explained| {
            agree(&[
                explained_answer(rt.alloc(), explained),
                explained_answer(rt.alloc(), explained),
                explained_answer(rt.alloc(), explained),
            ])
        });
        assert!(rt; is_met, "{explained:?}");
    }
}

/// A request to leave that is refused memory leaves the flag as it is, and sets it once it has its answer.
#[test]
fn leaves_after_refused_memory(rt: HostRuntime) {
    let b = letter(b'b');
    let asked = LeaveAsked {
        is_post: true,
        is_loopback: true,
        named: Some(b"b"),
    };
    let stop = AtomicBool::new(false);
    let is_answered = leave(rt.alloc(), &b, true, asked, &stop).is_ok();
    assert!(rt; stop.load(SeqCst) == is_answered);
    let is_answered_now = leave(rt.alloc(), &b, true, asked, &stop).is_ok();
    assert!(rt; (is_answered || is_answered_now) && stop.load(SeqCst));
}
