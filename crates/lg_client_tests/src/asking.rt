//! What is written of answers, and what a server sees of those that ask.

use crate::answers::{FINE, Head, UNAVAILABLE, answer};
use crate::bodies::{
    ALIVE, ALIVE_TEXT, ALL, ALL_TEXT, EDGES, EDGES_TEXT, FAILED, FAILED_TEXT, HEALTH, HEALTH_TEXT,
    ILL, ILL_TEXT, LEFT, LEFT_TEXT, NONE, OTHERWISE, OUSTED, OUSTED_TEXT, SUSPECT, SUSPECT_TEXT,
};
use crate::playing::{Asking, Command, Seen, played};
use crate::server::Reply;
use std::alloc::Global;
use std::net::{Net, TcpListener, TcpStream};
use std::thread::Threads;
use std::{io, rt};

/// What is asked, the head and the body of the answer, and the text and the status that come of it.
type Row = (Command, Head, &'static str, &'static str, u8);

const ROWS: &[Row] = &[
    (Command::Members, FINE, SUSPECT, SUSPECT_TEXT, 0),
    (Command::Members, FINE, ALIVE, ALIVE_TEXT, 0),
    (Command::Members, FINE, FAILED, FAILED_TEXT, 0),
    (Command::Members, FINE, LEFT, LEFT_TEXT, 0),
    (Command::Members, FINE, ALL, ALL_TEXT, 0),
    (Command::Members, FINE, NONE, "", 0),
    (Command::Members, FINE, EDGES, EDGES_TEXT, 0),
    (Command::Members, FINE, OTHERWISE, SUSPECT_TEXT, 0),
    (Command::Status, FINE, HEALTH, HEALTH_TEXT, 0),
    (Command::Status, FINE, ILL, ILL_TEXT, 0),
    (Command::Status, UNAVAILABLE, OUSTED, OUSTED_TEXT, 4),
];

/// Heads that say the same in other ways (RFC 9110, sections 5.1 and 5.3; RFC 9112, sections 4 and 5).
const HEADS: &[Head] = &[
    FINE,
    (
        "HTTP/1.1 200 OK\r\nconnection: close\r\ncontent-type: application/json\r\ncontent-length: ",
        "\r\n\r\n",
    ),
    (
        "HTTP/1.1 200 OK\r\nContent-Length: ",
        "\r\nContent-Type: application/json\r\nConnection: close\r\n\r\n",
    ),
    (
        "HTTP/1.1 200 OK\r\nDATE: Thu, 26 Nov 2026 11:14:00 GMT\r\nCONTENT-LENGTH: ",
        "\r\nX-LENGTH: 7\r\n\r\n",
    ),
    ("HTTP/1.1 200 OK\r\ncOnTeNt-LeNgTh:", "\r\n\r\n"),
    ("HTTP/1.1 200 OK\r\ncontent-length: \t ", " \t\r\n\r\n"),
    ("HTTP/1.1 200 OK\r\ncontent-length: 00", "\r\n\r\n"),
    ("HTTP/1.1 200 \r\ncontent-length: ", "\r\n\r\n"),
    (
        "HTTP/1.1 200 Not at all bad\r\ncontent-length: ",
        "\r\ncontent-length-of-another: 9\r\nempty:\r\n\r\n",
    ),
];

/// How many bytes each write of the server has.
const PIECES: &[usize] = &[usize::MAX, 1, 2, 61];

/// The target that a command asks for, if it asks once.
fn target_of(command: Command) -> &'static str {
    match command {
        Command::Members => "/v1/members",
        Command::Status => "/v1/health",
        Command::Watch | Command::Leave(_) => "",
    }
}

/// Whether a command wrote this and nothing else, and asked once for what it should.
fn is_told(
    alloc: Global,
    played: &Seen,
    asking: &Asking,
    text: &[u8],
    status: u8,
) -> io::Result<bool> {
    let has_asked = played.has_asked(alloc, &[target_of(asking.command)])?;
    Ok(has_asked && played.outcome.is(status, text, ""))
}

/// Whether what is written of a row is its text, or with `json` its body as a line.
fn is_met<R>(rt: &R, alloc: Global, row: &Row, json: bool, piece: usize) -> io::Result<bool>
where
    R: Net<Listener = TcpListener, Stream = TcpStream> + rt::Clock + Threads + Sync,
{
    let (command, head, body, text, status) = *row;
    let bytes = answer(alloc, head, body.as_bytes())?;
    let asking = Asking::by(command, json);
    let replies = [Reply::in_pieces(bytes.as_slice(), piece)];
    let played = played(rt, alloc, &replies, &asking)?;
    if json {
        let line = format!(in alloc; "{body}\n")?;
        is_told(alloc, &played, &asking, line.as_bytes(), status)
    } else {
        is_told(alloc, &played, &asking, text.as_bytes(), status)
    }
}

/// Each row, as lines and as it came.
#[test]
fn answers(rt: HostRuntime) {
    for row in ROWS {
        for json in [false, true] {
            let met = is_met(&rt, rt.alloc(), row, json, usize::MAX);
            assert!(rt;
                met.as_ref().is_ok_and(|met| *met),
                "{row:?}, json {json}: {met:?}"
            );
        }
    }
}

/// An answer with each head, and in pieces.
#[test]
fn heads_and_pieces(rt: HostRuntime) {
    for head in HEADS {
        for piece in PIECES {
            let row = (Command::Members, *head, SUSPECT, SUSPECT_TEXT, 0);
            let met = is_met(&rt, rt.alloc(), &row, false, *piece);
            assert!(rt;
                met.as_ref().is_ok_and(|met| *met),
                "{head:?}, in pieces of {piece}: {met:?}"
            );
        }
    }
}
