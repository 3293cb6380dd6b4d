//! A node that is asked to leave: what its server sees of the one who asks, and what is told of it.

use crate::answers::{FINE, Head, UNAVAILABLE, answer};
use crate::bodies::{HEALTH, LEAVING, OUSTED};
use crate::playing::{Asking, Command, Outcome, Seen, deserted, played, played_through};
use crate::server::Reply;
use std::alloc::{AllocError, Global};
use std::net::{Net, SocketAddr, TcpListener, TcpStream};
use std::sync::atomic::AtomicU64;
use std::sync::atomic::Ordering::SeqCst;
use std::thread::Threads;
use std::time::{Duration, Instant};
use std::{io, rt};

/// A request that the server sees.
#[derive(Clone, Copy, Debug)]
enum Request {
    /// For the health of the node.
    Health,
    /// To leave, by this name.
    Leave(&'static str),
}

/// The name by which a node is asked to leave, the heads and bodies of its answers, how often it takes a connection
/// behind them before it ends, the requests that it sees, and the status and the line that come of it.
type Row<'a> = (
    &'static str,
    &'a [(Head, &'static str)],
    u64,
    &'a [Request],
    u8,
    &'static str,
);

/// The longest name.
const LONG: &str = "ABCDEFGHIJKLMNOPQRSTUVWXYZ._-019";

/// Heads of answers with other codes.
const BAD_REQUEST: Head = (
    "HTTP/1.1 400 Bad Request\r\ncontent-length: ",
    "\r\nconnection: close\r\n\r\n",
);

const FORBIDDEN: Head = (
    "HTTP/1.1 403 Forbidden\r\ncontent-length: ",
    "\r\nconnection: close\r\n\r\n",
);

const NOT_FOUND: Head = (
    "HTTP/1.1 404 Not Found\r\ncontent-length: ",
    "\r\nconnection: close\r\n\r\n",
);

const NOT_ALLOWED: Head = (
    "HTTP/1.1 405 Method Not Allowed\r\nallow: GET, HEAD\r\ncontent-length: ",
    "\r\nconnection: close\r\n\r\n",
);

const ACCEPTED: Head = (
    "HTTP/1.1 202 Accepted\r\ncontent-length: ",
    "\r\nconnection: close\r\n\r\n",
);

const BUSY: Head = (
    "HTTP/1.1 503 Service Unavailable\r\nretry-after: 1\r\ncontent-length: ",
    "\r\nconnection: close\r\n\r\n",
);

/// Nodes that leave.
const WELL: &[Row<'static>] = &[
    ("b", &[(FINE, LEAVING)], 0, &[Request::Leave("b")], 0, ""),
    ("b", &[(FINE, LEAVING)], 1, &[Request::Leave("b")], 0, ""),
    ("b", &[(FINE, LEAVING)], 8, &[Request::Leave("b")], 0, ""),
    (
        LONG,
        &[(FINE, "{\"leaving\":\"ABCDEFGHIJKLMNOPQRSTUVWXYZ._-019\"}\n")],
        2,
        &[Request::Leave(LONG)],
        0,
        "",
    ),
    (
        "b",
        &[(FINE, " { \"since\" : [1], \"leaving\" : \"\\u0062\" } ")],
        0,
        &[Request::Leave("b")],
        0,
        "",
    ),
    (
        "",
        &[(FINE, HEALTH), (FINE, LEAVING)],
        2,
        &[Request::Health, Request::Leave("b")],
        0,
        "",
    ),
    (
        "",
        &[(UNAVAILABLE, OUSTED), (FINE, LEAVING)],
        0,
        &[Request::Health, Request::Leave("b")],
        0,
        "",
    ),
    (
        "",
        &[(FINE, "{\"name\":\"b\"}"), (FINE, LEAVING)],
        0,
        &[Request::Health, Request::Leave("b")],
        0,
        "",
    ),
];

/// Answers to the request to leave by the name `b` that don't say that this node leaves.
const DENIALS: &[(Head, &str)] = &[
    (FORBIDDEN, "{\"error\":\"leaving is off\"}"),
    (BAD_REQUEST, "{\"error\":\"another name\"}"),
    (NOT_ALLOWED, "{\"error\":\"method not allowed\"}"),
    (NOT_FOUND, "{\"error\":\"not found\"}"),
    (ACCEPTED, LEAVING),
    (UNAVAILABLE, LEAVING),
    (FINE, "{\"leaving\":\"a\"}"),
    (FINE, "{\"leaving\":\"bb\"}"),
    (FINE, "{\"leaving\":true}"),
    (FINE, "{\"name\":\"b\"}"),
];

/// Healths that say no name.
const UNNAMED: &[(Head, &str)] = &[
    (FINE, "{\"name\":\"\"}"),
    (FINE, "{\"name\":\"b c\"}"),
    (FINE, "{\"leaving\":\"b\"}"),
    (NOT_FOUND, HEALTH),
];

/// Whether the server saw these requests, and no other byte.
fn has_seen(alloc: Global, seen: &Seen, requests: &[Request]) -> Result<bool, AllocError> {
    let at = seen.at.as_str();
    let mut text = String::new(alloc);
    for request in requests {
        let line = match request {
            Request::Health => format!(in alloc;
                "GET /v1/health HTTP/1.1\r\nhost: {at}\r\nconnection: close\r\n\r\n"
            )?,
            Request::Leave(name) => format!(in alloc;
                "POST /v1/leave HTTP/1.1\r\nhost: {at}\r\nlg-leave: {name}\r\nconnection: close\r\n\r\n"
            )?,
        };
        text.push_str(line.as_str())?;
    }
    Ok(seen.requests.text() == text.as_bytes())
}

/// The replies of a server that sends these bytes in turn, and then takes so many connections.
fn replies_of<'a>(
    alloc: Global,
    answers: &'a [Vec<u8>],
    connections: u64,
) -> Result<Vec<Reply<'a>>, AllocError> {
    let mut replies = Vec::new(alloc);
    for bytes in answers {
        replies.push(Reply::whole(bytes.as_slice()))?;
    }
    for _ in 0..connections {
        replies.push(Reply::dropped())?;
    }
    Ok(replies)
}

/// What comes of a row, and how many milliseconds it takes.
fn timed<R>(rt: &R, alloc: Global, row: &Row<'_>) -> io::Result<(Seen, u64)>
where
    R: Net<Listener = TcpListener, Stream = TcpStream> + rt::Clock + Threads + Sync,
{
    let (name, parts, connections, ..) = *row;
    let mut answers = Vec::new(alloc);
    for (head, body) in parts {
        answers.push(answer(alloc, *head, body.as_bytes())?)?;
    }
    let replies = replies_of(alloc, answers.as_slice(), connections)?;
    let asking = Asking::by(Command::Leave(name), false);
    let start = Instant::now(rt)?;
    let seen = played(rt, alloc, replies.as_slice(), &asking)?;
    let passed_ms = u64::try_from(start.elapsed(rt)?.as_millis()).unwrap_or(u64::MAX);
    Ok((seen, passed_ms))
}

/// How long is paused behind each connection, in milliseconds, and how much earlier and later than it should a row may
/// end.
const PAUSE_MS: u64 = 100;

const EARLY_MS: u64 = 50;

const LATE_MS: u64 = 2_500;

/// Whether a row comes out: its status, its line, its requests, and its time.
fn is_met<R>(rt: &R, alloc: Global, row: &Row<'_>) -> io::Result<bool>
where
    R: Net<Listener = TcpListener, Stream = TcpStream> + rt::Clock + Threads + Sync,
{
    let (_, _, connections, requests, status, line) = *row;
    let (seen, passed_ms) = timed(rt, alloc, row)?;
    let waits_ms = connections.saturating_mul(PAUSE_MS);
    let in_time = (waits_ms.saturating_sub(EARLY_MS)..waits_ms.saturating_add(LATE_MS)).contains(
        &passed_ms,
    );
    let has_seen = has_seen(alloc, &seen, requests)?;
    Ok(in_time && has_seen && seen.outcome.is(status, b"", line))
}

/// Nodes that leave.
#[test]
fn leaves(rt: HostRuntime) {
    for row in WELL {
        let met = is_met(&rt, rt.alloc(), row);
        assert!(rt; met.as_ref().is_ok_and(|met| *met), "{row:?}: {met:?}");
    }
}

/// Nodes that don't: nothing is waited for, and nothing more is sent.
#[test]
fn does_not_leave(rt: HostRuntime) {
    let asked = [Request::Leave("b")];
    for reply in DENIALS {
        let replies = [*reply];
        let row = (
            "b",
            replies.as_slice(),
            0,
            asked.as_slice(),
            8,
            "lg: bad answer\n",
        );
        let met = is_met(&rt, rt.alloc(), &row);
        assert!(rt; met.as_ref().is_ok_and(|met| *met), "{reply:?}: {met:?}");
    }
}

/// Nodes that don't say their name aren't asked to leave.
#[test]
fn has_no_name(rt: HostRuntime) {
    let asked = [Request::Health];
    for reply in UNNAMED {
        let replies = [*reply];
        let row = (
            "",
            replies.as_slice(),
            0,
            asked.as_slice(),
            8,
            "lg: bad answer\n",
        );
        let met = is_met(&rt, rt.alloc(), &row);
        assert!(rt; met.as_ref().is_ok_and(|met| *met), "{reply:?}: {met:?}");
    }
}

/// A node that is busy isn't asked again.
#[test]
fn asks_once(rt: HostRuntime) {
    let asked = [Request::Leave("b")];
    let reply = [(BUSY, "{\"error\":\"too many requests wait\"}")];
    let row = ("b", reply.as_slice(), 0, asked.as_slice(), 10, "lg: busy\n");
    let met = is_met(&rt, rt.alloc(), &row);
    assert!(rt; met.as_ref().is_ok_and(|met| *met), "{row:?}: {met:?}");
}

/// Texts that are no name.
const NO_NAMES: &[&str] = &[
    " ",
    "b c",
    "b\r\nx: 1",
    "é",
    "b/c",
    "ABCDEFGHIJKLMNOPQRSTUVWXYZ._-0123",
];

/// What comes of a text if nobody listens.
fn alone<R>(rt: &R, alloc: Global, name: &'static str) -> io::Result<Outcome>
where
    R: Net<Listener = TcpListener, Stream = TcpStream> + rt::Clock,
{
    let at = deserted(rt, alloc)?;
    Ok(Asking::by(Command::Leave(name), false).run(rt, alloc, at.as_str()))
}

/// Nothing is sent by a text that is no name. It isn't seen then that nobody listens.
#[test]
fn no_names(rt: HostRuntime) {
    for name in NO_NAMES {
        let outcome = alone(&rt, rt.alloc(), name);
        let met = outcome
            .as_ref()
            .is_ok_and(|outcome| outcome.is(3, b"", "lg: bad names\n"));
        assert!(rt; met, "{name}: {outcome:?}");
    }
}

/// Nor is a server that closes the connection before a byte.
#[test]
fn closed_at_once(rt: HostRuntime) {
    let replies = [Reply::whole(b"")];
    let asking = Asking::by(Command::Leave("b"), false);
    let seen = played(&rt, rt.alloc(), &replies, &asking);
    let met = seen.as_ref().is_ok_and(|seen| {
        let has_seen = has_seen(rt.alloc(), seen, &[Request::Leave("b")]);
        has_seen.is_ok_and(|met| met) && seen.outcome.is(10, b"", "lg: busy\n")
    });
    assert!(rt; met, "{seen:?}");
}

/// The network, with a clock that counts what it should sleep, in milliseconds, and doesn't. It counts the connections
/// too.
#[derive(Drop)]
struct Awake<'a, R> {
    rt: &'a R,
    slept_ms: AtomicU64,
    connections: AtomicU64,
}

impl<'a, R: rt::Clock> rt::Clock for Awake<'a, R> {
    fn monotonic(&self) -> io::Result<Duration> {
        self.rt.monotonic()
    }

    fn since_1970(&self) -> io::Result<Duration> {
        self.rt.since_1970()
    }

    fn sleep(&self, duration: Duration) {
        let duration_ms = u64::try_from(duration.as_millis()).unwrap_or(u64::MAX);
        self.slept_ms.fetch_add(duration_ms, SeqCst);
    }
}

impl<'a, R: Net> Net for Awake<'a, R> {
    type Stream = R::Stream;

    type Listener = R::Listener;

    fn bind(&self, addr: SocketAddr) -> io::Result<R::Listener> {
        self.rt.bind(addr)
    }

    fn connect(&self, addr: SocketAddr) -> io::Result<R::Stream> {
        self.rt.connect(addr)
    }

    fn connect_timeout(&self, addr: SocketAddr, timeout: Duration) -> io::Result<R::Stream> {
        self.connections.fetch_add(1, SeqCst);
        self.rt.connect_timeout(addr, timeout)
    }
}

/// What comes of a node that says that it leaves and goes on: how many milliseconds are waited for it, and how many
/// connections are made, the one of the request included.
fn stayed<R>(rt: &R, alloc: Global) -> io::Result<(Seen, u64, u64)>
where
    R: Net<Listener = TcpListener, Stream = TcpStream> + rt::Clock + Threads + Sync,
{
    let mut answers = Vec::new(alloc);
    answers.push(answer(alloc, FINE, LEAVING.as_bytes())?)?;
    let replies = replies_of(alloc, answers.as_slice(), 1_000)?;
    let awake = Awake {
        rt,
        slept_ms: AtomicU64::new(0),
        connections: AtomicU64::new(0),
    };
    let asking = Asking::by(Command::Leave("b"), false);
    let seen = played_through(rt, &awake, alloc, replies.as_slice(), &asking)?;
    Ok((
        seen,
        awake.slept_ms.load(SeqCst),
        awake.connections.load(SeqCst),
    ))
}

/// It is given up behind 70,000 milliseconds.
#[test]
fn stays(rt: HostRuntime) {
    let stayed = stayed(&rt, rt.alloc());
    let met = stayed.as_ref().is_ok_and(|(seen, slept_ms, connections)| {
        seen.outcome.is(1, b"", "lg: not ended\n") && (*slept_ms, *connections) == (70_000, 701)
    });
    assert!(rt; met, "{stayed:?}");
}
