//! Nodes that are busy: they answer 503 with `Retry-After` (RFC 9110, sections 10.2.3 and 15.6.4), or close a
//! connection before a byte.

use crate::answers::{FINE, answer};
use crate::bodies::{CHANGE, CHANGE_TEXT, HEALTH, HEALTH_TEXT, LEAVING, SUSPECT, SUSPECT_TEXT};
use crate::playing::{Asking, Command, Seen, played};
use crate::server::Reply;
use std::alloc::Global;
use std::net::{Net, TcpListener, TcpStream};
use std::thread::Threads;
use std::time::Instant;
use std::{io, rt};

/// What a server does with a connection.
#[derive(Clone, Copy, Debug)]
enum Turn {
    /// It answers what it is asked.
    Fine,
    /// It answers 503 with this line in its head, and a body that says that too many requests wait.
    Later(&'static str),
    /// It reads the request, and closes the connection.
    Closed,
    /// It closes the connection at once.
    Dropped,
}

/// A command, what the server does with its connections, the status and the line at the end, and how many seconds the
/// command waits in all. Behind the last of its connections the server listens no more.
type Row = (Command, &'static [Turn], u8, &'static str, u64);

/// Commands that ask once: they wait once, for as long as they are told, but at least 1 s and at most 5.
const ONCE: &[Row] = &[
    (
        Command::Members,
        &[Turn::Later("Retry-After: 1"), Turn::Fine],
        0,
        "",
        1,
    ),
    (
        Command::Members,
        &[Turn::Later("RETRY-AFTER:2"), Turn::Fine],
        0,
        "",
        2,
    ),
    (
        Command::Members,
        &[Turn::Later("retry-after: 0"), Turn::Fine],
        0,
        "",
        1,
    ),
    (
        Command::Members,
        &[Turn::Later("retry-after: 9"), Turn::Fine],
        0,
        "",
        5,
    ),
    (Command::Members, &[Turn::Closed, Turn::Fine], 0, "", 1),
    (Command::Members, &[Turn::Dropped, Turn::Fine], 0, "", 1),
    (Command::Status, &[Turn::Closed, Turn::Fine], 0, "", 1),
    (Command::Status, &[Turn::Dropped, Turn::Fine], 0, "", 1),
];

/// The same, if the node is busy again; nothing else is told of it.
const TWICE: &[Row] = &[
    (
        Command::Members,
        &[Turn::Later("retry-after: 1"), Turn::Later("retry-after: 5")],
        10,
        "lg: busy\n",
        1,
    ),
    (
        Command::Members,
        &[Turn::Closed, Turn::Later("retry-after: 5")],
        10,
        "lg: busy\n",
        1,
    ),
    (
        Command::Members,
        &[Turn::Later("retry-after: 1"), Turn::Dropped],
        10,
        "lg: busy\n",
        1,
    ),
    (
        Command::Status,
        &[Turn::Closed, Turn::Dropped],
        10,
        "lg: busy\n",
        1,
    ),
    // The second time something else is wrong: the code, or nobody listens.
    (
        Command::Members,
        &[Turn::Closed, Turn::Later("x: 1")],
        8,
        "lg: bad answer\n",
        1,
    ),
    (
        Command::Members,
        &[Turn::Later("retry-after: 1")],
        7,
        "lg: no answer\n",
        1,
    ),
];

/// Answers with the code 503 that don't say in seconds when to ask again, and one to `status`, whose code 503 has a
/// meaning of its own. Nobody waits.
const NEVER: &[Row] = &[
    (
        Command::Members,
        &[Turn::Later("retry: 1")],
        8,
        "lg: bad answer\n",
        0,
    ),
    (
        Command::Members,
        &[Turn::Later("retry-after:")],
        8,
        "lg: bad answer\n",
        0,
    ),
    (
        Command::Members,
        &[Turn::Later("retry-after: -1")],
        8,
        "lg: bad answer\n",
        0,
    ),
    (
        Command::Members,
        &[Turn::Later("retry-after: 1.5")],
        8,
        "lg: bad answer\n",
        0,
    ),
    (
        Command::Members,
        &[Turn::Later("retry-after: soon")],
        8,
        "lg: bad answer\n",
        0,
    ),
    (
        Command::Watch,
        &[Turn::Later("retry-after: Fri, 31 Dec 1999 23:59:59 GMT")],
        8,
        "lg: bad answer\n",
        0,
    ),
    (
        Command::Status,
        &[Turn::Later("retry-after: 1")],
        8,
        "lg: bad answer\n",
        0,
    ),
];

/// `watch` waits as often as it is told to, and asks for the same again.
const AGAIN: &[Row] = &[
    (
        Command::Watch,
        &[
            Turn::Later("retry-after: 1"),
            Turn::Later("retry-after: 0"),
            Turn::Later("retry-after: 2"),
            Turn::Fine,
        ],
        7,
        "lg: no answer\n",
        4,
    ),
    (
        Command::Watch,
        &[
            Turn::Fine,
            Turn::Closed,
            Turn::Dropped,
            Turn::Closed,
            Turn::Later("retry-after: 7"),
            Turn::Fine,
        ],
        7,
        "lg: no answer\n",
        8,
    ),
];

/// The body of the answer to a command, and the text that is written of it.
fn fine(command: Command) -> (&'static str, &'static str) {
    match command {
        Command::Members => (SUSPECT, SUSPECT_TEXT),
        Command::Status => (HEALTH, HEALTH_TEXT),
        Command::Watch => (CHANGE, CHANGE_TEXT),
        Command::Leave(_) => (LEAVING, ""),
    }
}

/// The bytes that a server sends on a connection.
fn bytes_of(alloc: Global, command: Command, turn: Turn) -> io::Result<Vec<u8>> {
    let (body, _) = fine(command);
    Ok(match turn {
        Turn::Fine => answer(alloc, FINE, body.as_bytes())?,
        Turn::Later(line) => {
            let text = format!(in alloc;
                "HTTP/1.1 503 Service Unavailable\r\nconnection: close\r\n{line}\r\ncontent-length: 34\r\n\r\n\
                 {{\"error\":\"too many requests wait\"}}"
            )?;
            Vec::from_slice(alloc, text.as_bytes())?
        }
        Turn::Closed | Turn::Dropped => Vec::new(alloc),
    })
}

/// What comes of the command of a row, and how many milliseconds it takes.
fn timed<R>(rt: &R, alloc: Global, row: &Row) -> io::Result<(Seen, u64)>
where
    R: Net<Listener = TcpListener, Stream = TcpStream> + rt::Clock + Threads + Sync,
{
    let (command, turns, ..) = *row;
    let mut answers = Vec::new(alloc);
    for turn in turns {
        answers.push(bytes_of(alloc, command, *turn)?)?;
    }
    let mut replies = Vec::new(alloc);
    for (turn, bytes) in turns.iter().zip(answers.iter()) {
        replies.push(match turn {
            Turn::Dropped => Reply::dropped(),
            _ => Reply::whole(bytes.as_slice()),
        })?;
    }
    let start = Instant::now(rt)?;
    let seen = played(rt, alloc, replies.as_slice(), &Asking::by(command, false))?;
    let passed_ms = u64::try_from(start.elapsed(rt)?.as_millis()).unwrap_or(u64::MAX);
    Ok((seen, passed_ms))
}

/// The text that a command writes: that of each answer.
fn text_of(alloc: Global, row: &Row) -> io::Result<String> {
    let (command, turns, ..) = *row;
    let (_, text) = fine(command);
    let mut whole = String::new(alloc);
    for turn in turns {
        if matches!(turn, Turn::Fine) {
            whole.push_str(text)?;
        }
    }
    Ok(whole)
}

/// The targets that a server sees: one for each connection of which it reads the request. `watch` asks from the version
/// of the answer before.
fn targets_of(alloc: Global, row: &Row) -> io::Result<Vec<&'static str>> {
    let (command, turns, ..) = *row;
    let mut target = match command {
        Command::Members => "/v1/members",
        Command::Status => "/v1/health",
        Command::Watch => "/v1/changes?after=0&wait_ms=30000",
        Command::Leave(_) => "/v1/leave",
    };
    let mut targets = Vec::new(alloc);
    for turn in turns {
        if matches!(turn, Turn::Dropped) {
            continue;
        }
        targets.push(target)?;
        if matches!((command, turn), (Command::Watch, Turn::Fine)) {
            target = "/v1/changes?after=41&wait_ms=30000";
        }
    }
    Ok(targets)
}

/// How much earlier and later than it should the command of a row may end, in milliseconds.
const EARLY_MS: u64 = 50;

const LATE_MS: u64 = 2_500;

/// Whether a row comes out: its status, text and line, its requests, and its time.
fn is_met<R>(rt: &R, alloc: Global, row: &Row) -> io::Result<bool>
where
    R: Net<Listener = TcpListener, Stream = TcpStream> + rt::Clock + Threads + Sync,
{
    let (_, _, status, line, waits) = *row;
    let (seen, passed_ms) = timed(rt, alloc, row)?;
    let text = text_of(alloc, row)?;
    let targets = targets_of(alloc, row)?;
    let waits_ms = waits.saturating_mul(1_000);
    let in_time = (waits_ms.saturating_sub(EARLY_MS)..waits_ms.saturating_add(LATE_MS)).contains(
        &passed_ms,
    );
    let has_asked = seen.has_asked(alloc, targets.as_slice())?;
    Ok(in_time && has_asked && seen.outcome.is(status, text.as_bytes(), line))
}

/// A node that is busy once.
#[test]
fn busy_once(rt: HostRuntime) {
    for row in ONCE {
        let met = is_met(&rt, rt.alloc(), row);
        assert!(rt; met.as_ref().is_ok_and(|met| *met), "{row:?}: {met:?}");
    }
}

/// A node that is busy twice.
#[test]
fn busy_twice(rt: HostRuntime) {
    for row in TWICE {
        let met = is_met(&rt, rt.alloc(), row);
        assert!(rt; met.as_ref().is_ok_and(|met| *met), "{row:?}: {met:?}");
    }
}

/// A node that doesn't say when to ask again.
#[test]
fn not_busy(rt: HostRuntime) {
    for row in NEVER {
        let met = is_met(&rt, rt.alloc(), row);
        assert!(rt; met.as_ref().is_ok_and(|met| *met), "{row:?}: {met:?}");
    }
}

/// A node that is busy for a while.
#[test]
fn busy_for_a_while(rt: HostRuntime) {
    for row in AGAIN {
        let met = is_met(&rt, rt.alloc(), row);
        assert!(rt; met.as_ref().is_ok_and(|met| *met), "{row:?}: {met:?}");
    }
}
