//! What comes of a request to leave, and when a node is told to.
use LeaveReply::{Elsewhere, Leaves, Off, PostOnly, Unnamed};
use lg_answers::{LEAVE_FIELD, LeaveAsked, LeaveReply, is_leave, leave_reply};
use lg_http::Kind;
use lg_status_server::leave;
use lg_testing::name;
use std::sync::atomic::AtomicBool;
use std::sync::atomic::Ordering::SeqCst;

/// A request: whether b may be asked, whether the method is POST, whether the client is on loopback, and the value of
/// the header field, if there is one.
type Row = (bool, bool, bool, Option<&'static str>);

/// Requests to b, and what comes of each.
const ROWS: &[(Row, LeaveReply)] = &[
    ((true, true, true, Some("b-2.example")), Leaves),
    // The method, that it may be asked, the address and the field count in this order.
    ((true, false, true, Some("b-2.example")), PostOnly),
    ((false, false, false, None), PostOnly),
    ((false, true, true, Some("b-2.example")), Off),
    ((false, true, false, None), Off),
    ((true, true, false, Some("b-2.example")), Elsewhere),
    ((true, true, false, None), Elsewhere),
    ((true, true, true, None), Unnamed),
    ((true, true, true, Some("")), Unnamed),
    ((true, true, true, Some("b")), Unnamed),
    ((true, true, true, Some("b-2.exampl")), Unnamed),
    ((true, true, true, Some("b-2.example ")), Unnamed),
    ((true, true, true, Some("b-2.examples")), Unnamed),
    ((true, true, true, Some("B-2.example")), Unnamed),
    ((true, true, true, Some("\"b-2.example\"")), Unnamed),
    ((true, true, true, Some("b-2.example, c")), Unnamed),
];

/// The code and the body of each answer.
fn answer_of(reply: LeaveReply) -> (u16, &'static str) {
    match reply {
        PostOnly => (405, "{\"error\":\"this path takes POST alone\"}"),
        Off => (403, "{\"error\":\"leave is off in the file of this node\"}"),
        Elsewhere => (
            403,
            "{\"error\":\"only a client on this machine may ask this\"}",
        ),
        Unnamed => (
            400,
            "{\"error\":\"Lg-Leave has to be the name of this node\"}",
        ),
        Leaves => (200, "{\"leaving\":\"b-2.example\"}"),
    }
}

/// The request of a row.
fn asked_of(row: &Row) -> LeaveAsked<'static> {
    let (_, is_post, is_loopback, named) = *row;
    LeaveAsked {
        is_post,
        is_loopback,
        named: named.map(str::as_bytes),
    }
}

/// Each row has the answer that it should have, and the flag is set by the answer that b leaves alone.
#[test]
fn replies(rt: HostRuntime) {
    let b = name(b"b-2.example");
    for (row, reply) in ROWS {
        assert_eq!(rt; leave_reply(&b, row.0, asked_of(row)), *reply, "{row:?}");
        let stop = AtomicBool::new(false);
        let answer = leave(rt.alloc(), &b, row.0, asked_of(row), &stop);
        let (code, body) = answer_of(*reply);
        let is_met = answer.is_ok_and(|answer| {
            answer.status.number() == code
                && answer.kind == Kind::Json
                && answer.body.as_slice() == body.as_bytes()
        });
        assert!(rt; is_met, "{row:?}");
        assert!(rt; stop.load(SeqCst) == (*reply == Leaves), "{row:?}");
    }
}

/// A flag that is set stays so, whatever is asked then, and a second request has the same answer.
#[test]
fn stays_told(rt: HostRuntime) {
    let b = name(b"b-2.example");
    let stop = AtomicBool::new(true);
    for (row, reply) in ROWS {
        let answer = leave(rt.alloc(), &b, row.0, asked_of(row), &stop);
        let (code, _) = answer_of(*reply);
        let is_met = answer.is_ok_and(|answer| answer.status.number() == code);
        assert!(rt; is_met && stop.load(SeqCst), "{row:?}");
    }
}

/// The path is whole, and its case counts.
#[test]
fn paths(rt: HostRuntime) {
    let rows = [
        ("/v1/leave", true),
        ("/v1/leave/", false),
        ("/v1/leav", false),
        ("/v1/Leave", false),
        ("//v1/leave", false),
        ("", false),
    ];
    for (path, is_so) in rows {
        assert_eq!(rt; is_leave(path.as_bytes()), is_so, "{path}");
    }
    assert!(rt; LEAVE_FIELD == "lg-leave");
}
