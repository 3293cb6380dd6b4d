//! Answers that are none of a node: each is told as bad, and nothing is written.

use crate::answers::{FINE, Head, UNAVAILABLE, answer, shown};
use crate::bodies::{CHANGE, HEALTH, SUSPECT};
use crate::playing::{Asking, COMMANDS, Command, played};
use crate::server::Reply;
use std::alloc::{AllocError, Global};
use std::net::{Net, TcpListener, TcpStream};
use std::thread::Threads;
use std::{io, rt};

/// Whether a command tells of these bytes that they are a bad answer, and writes nothing.
pub(crate) fn is_bad<R>(rt: &R, alloc: Global, bytes: &[u8], asking: &Asking) -> io::Result<bool>
where
    R: Net<Listener = TcpListener, Stream = TcpStream> + rt::Clock + Threads + Sync,
{
    let replies = [Reply::whole(bytes)];
    let played = played(rt, alloc, &replies, asking)?;
    Ok(played.outcome.is(8, b"", "lg: bad answer\n"))
}

/// Bytes that aren't an answer of HTTP/1.1 with one length and a body of this length (RFC 9112, sections 2.3, 4, 5.1,
/// 5.2 and 6; RFC 9110, sections 5.5 and 8.6). Each would be told as no members but for one fault.
const BYTES: &[&[u8]] = &[
    // No HTTP/1.1.
    b"220 mail\r\n\r\n",
    b"\x15\x03\x01\x00\x02\x02\x28",
    b"GET /v1/members HTTP/1.1\r\ncontent-length: 14\r\n\r\n{\"members\":[]}",
    b"{\"members\":[]}",
    b"HTTP/2 200 OK\r\ncontent-length: 14\r\n\r\n{\"members\":[]}",
    b"HTTP/1.1 2x0 OK\r\ncontent-length: 14\r\n\r\n{\"members\":[]}",
    b"HTTP/1.1 20 OK\r\ncontent-length: 14\r\n\r\n{\"members\":[]}",
    b"HTTP/1.1200 OK\r\ncontent-length: 14\r\n\r\n{\"members\":[]}",
    b"HTTP/1.1 200 O\x00K\r\ncontent-length: 14\r\n\r\n{\"members\":[]}",
    // A field that is none.
    b"HTTP/1.1 200 OK\r\ncontent-length: 14\r\nx\r\n\r\n{\"members\":[]}",
    b"HTTP/1.1 200 OK\r\ncontent-length : 14\r\n\r\n{\"members\":[]}",
    b"HTTP/1.1 200 OK\r\ncontent-length: 14\r\nx: a\r\n b\r\n\r\n{\"members\":[]}",
    b"HTTP/1.1 200 OK\r\ncontent-length: 14\r\nx: a\x00b\r\n\r\n{\"members\":[]}",
    b"HTTP/1.1 200 OK\r\ncontent-length: 14\r\nx y: a\r\n\r\n{\"members\":[]}",
    b"HTTP/1.1 200 OK\r\ncontent-length: 14\r\n: a\r\n\r\n{\"members\":[]}",
    // No length.
    b"HTTP/1.1 200 OK\r\n\r\n{\"members\":[]}",
    b"HTTP/1.1 200 OK\r\nlength: 14\r\n\r\n{\"members\":[]}",
    // Two lengths.
    b"HTTP/1.1 200 OK\r\ncontent-length: 14\r\ncontent-length: 14\r\n\r\n{\"members\":[]}",
    b"HTTP/1.1 200 OK\r\ncontent-length: 14\r\nx: y\r\nContent-Length: 13\r\n\r\n{\"members\":[]}",
    b"HTTP/1.1 200 OK\r\ncontent-length: 0\r\ncontent-length: 14\r\n\r\n{\"members\":[]}",
    b"HTTP/1.1 200 OK\r\ncontent-length: 14, 14\r\n\r\n{\"members\":[]}",
    // A length that is no number.
    b"HTTP/1.1 200 OK\r\ncontent-length:\r\n\r\n{\"members\":[]}",
    b"HTTP/1.1 200 OK\r\ncontent-length: +14\r\n\r\n{\"members\":[]}",
    b"HTTP/1.1 200 OK\r\ncontent-length: -14\r\n\r\n{\"members\":[]}",
    b"HTTP/1.1 200 OK\r\ncontent-length: 0xe\r\n\r\n{\"members\":[]}",
    b"HTTP/1.1 200 OK\r\ncontent-length: 1 4\r\n\r\n{\"members\":[]}",
    b"HTTP/1.1 200 OK\r\ncontent-length: 14.0\r\n\r\n{\"members\":[]}",
    b"HTTP/1.1 200 OK\r\ncontent-length: fourteen\r\n\r\n{\"members\":[]}",
    // Another length than the body's, or one that is beyond the greatest.
    b"HTTP/1.1 200 OK\r\ncontent-length: 13\r\n\r\n{\"members\":[]}",
    b"HTTP/1.1 200 OK\r\ncontent-length: 0\r\n\r\n{\"members\":[]}",
    b"HTTP/1.1 200 OK\r\ncontent-length: 14\r\n\r\n{\"members\":[]}\n",
    b"HTTP/1.1 200 OK\r\ncontent-length: 1048577\r\n\r\n{\"members\":[]}",
    b"HTTP/1.1 200 OK\r\ncontent-length: 4294967310\r\n\r\n{\"members\":[]}",
    b"HTTP/1.1 200 OK\r\ncontent-length: 9999999999999999\r\n\r\n{\"members\":[]}",
    b"HTTP/1.1 200 OK\r\ncontent-length: 18446744073709551630\r\n\r\n{\"members\":[]}",
    // A transfer coding.
    b"HTTP/1.1 200 OK\r\ntransfer-encoding: chunked\r\n\r\ne\r\n{\"members\":[]}\r\n0\r\n\r\n",
    b"HTTP/1.1 200 OK\r\ntransfer-encoding: chunked\r\ncontent-length: 14\r\n\r\n{\"members\":[]}",
    b"HTTP/1.1 200 OK\r\ncontent-length: 14\r\nTransfer-Encoding: gzip\r\n\r\n{\"members\":[]}",
    b"HTTP/1.1 200 OK\r\ncontent-length: 14\r\nTRANSFER-ENCODING: identity\r\n\r\n{\"members\":[]}",
    // Another code.
    b"HTTP/1.1 201 Created\r\ncontent-length: 14\r\n\r\n{\"members\":[]}",
    b"HTTP/1.1 202 Accepted\r\ncontent-length: 14\r\n\r\n{\"members\":[]}",
    b"HTTP/1.1 301 Moved Permanently\r\ncontent-length: 14\r\n\r\n{\"members\":[]}",
    b"HTTP/1.1 400 Bad Request\r\ncontent-length: 14\r\n\r\n{\"members\":[]}",
    b"HTTP/1.1 404 Not Found\r\ncontent-length: 14\r\n\r\n{\"members\":[]}",
    b"HTTP/1.1 500 Internal Server Error\r\ncontent-length: 14\r\n\r\n{\"members\":[]}",
    b"HTTP/1.1 503 Service Unavailable\r\ncontent-length: 14\r\n\r\n{\"members\":[]}",
];

/// Each row of bytes.
#[test]
fn no_answers(rt: HostRuntime) {
    for (i, bytes) in BYTES.iter().enumerate() {
        for json in [false, true] {
            let asking = Asking::by(Command::Members, json);
            let met = is_bad(&rt, rt.alloc(), bytes, &asking);
            assert!(rt;
                met.as_ref().is_ok_and(|met| *met),
                "{i}, {:?}, json {json}: {met:?}",
                shown(bytes)
            );
        }
    }
}

/// A head with another code.
const NOT_FOUND: Head = (
    "HTTP/1.1 404 Not Found\r\ncontent-length: ",
    "\r\nconnection: close\r\n\r\n",
);

/// Well-formed answers that are none to this command.
const OTHERS: &[(Command, Head, &str)] = &[
    (Command::Members, FINE, HEALTH),
    (Command::Members, FINE, CHANGE),
    (Command::Members, UNAVAILABLE, SUSPECT),
    (Command::Members, NOT_FOUND, SUSPECT),
    (
        Command::Members,
        NOT_FOUND,
        "{\"error\":\"no member of this name is known\"}",
    ),
    (Command::Status, FINE, SUSPECT),
    (Command::Status, FINE, CHANGE),
    (Command::Status, NOT_FOUND, HEALTH),
    (
        Command::Status,
        UNAVAILABLE,
        "{\"error\":\"too many requests wait\"}",
    ),
    (Command::Watch, FINE, SUSPECT),
    (Command::Watch, FINE, HEALTH),
    (Command::Watch, NOT_FOUND, CHANGE),
    (Command::Watch, UNAVAILABLE, CHANGE),
    // Nothing says when to ask again.
    (
        Command::Members,
        UNAVAILABLE,
        "{\"error\":\"too many requests wait\"}",
    ),
    (
        Command::Watch,
        UNAVAILABLE,
        "{\"error\":\"too many requests wait\"}",
    ),
];

/// Each of them.
#[test]
fn answers_to_others(rt: HostRuntime) {
    for row in OTHERS {
        let (command, head, body) = *row;
        for json in [false, true] {
            let met = is_bad_body(
                &rt,
                rt.alloc(),
                head,
                body.as_bytes(),
                &Asking::by(command, json),
            );
            assert!(rt;
                met.as_ref().is_ok_and(|met| *met),
                "{row:?}, json {json}: {met:?}"
            );
        }
    }
}

/// Whether a command tells of an answer with this head and this body that it is bad, and writes nothing.
pub(crate) fn is_bad_body<R>(
    rt: &R,
    alloc: Global,
    head: Head,
    body: &[u8],
    asking: &Asking,
) -> io::Result<bool>
where
    R: Net<Listener = TcpListener, Stream = TcpStream> + rt::Clock + Threads + Sync,
{
    let bytes = answer(alloc, head, body)?;
    is_bad(rt, alloc, bytes.as_slice(), asking)
}

/// Bodies that are no JSON in UTF-8, or no object (RFC 8259).
const BODIES: &[&[u8]] = &[
    b"",
    b" \r\n",
    b"nothing",
    b"{",
    b"{}",
    b"[]",
    b"null",
    b"true",
    b"7",
    b"\"members\"",
    b"[{\"members\":[]}]",
    b"{\"members\":[]",
    b"{\"members\":[}",
    b"{\"members\":[]}}",
    b"{\"members\":[]}{\"members\":[]}",
    b"{\"members\":[],}",
    b"{\"members\":[,]}",
    b"{'members':[]}",
    b"{members:[]}",
    b"{\"members\" []}",
    b"{\"members\":[]}\x00",
    b"\xef\xbb\xbf{\"members\":[]}",
    b"{\"members\":[],\"x\":\"\xff\"}",
    b"{\"members\":[],\"x\":\"\xc3\"}",
    b"{\"members\":[],\"x\":\"\x01\"}",
    b"{\"members\":[],\"x\":\"\\u12\"}",
    b"{\"members\":[],\"x\":01}",
    b"{\"members\":[],\"x\":+1}",
    b"{\"members\":[],\"x\":tru}",
];

/// Each of them, to each command.
#[test]
fn no_objects(rt: HostRuntime) {
    for (i, body) in BODIES.iter().enumerate() {
        for command in COMMANDS {
            let met = is_bad_body(&rt, rt.alloc(), FINE, body, &Asking::by(command, true));
            assert!(rt;
                met.as_ref().is_ok_and(|met| *met),
                "{i}, {:?}, {command:?}: {met:?}",
                shown(body)
            );
        }
    }
}

/// An answer that consists of a beginning, a part so many times, and a rest. The status that comes of it.
struct Long {
    begin: &'static str,
    part: &'static str,
    times: u32,
    rest: &'static str,
    status: u8,
}

impl Long {
    /// The bytes.
    fn bytes(&self, alloc: Global) -> Result<Vec<u8>, AllocError> {
        let mut bytes = Vec::from_slice(alloc, self.begin.as_bytes())?;
        for _ in 0..self.times {
            bytes.extend_from_slice(self.part.as_bytes())?;
        }
        bytes.extend_from_slice(self.rest.as_bytes())?;
        Ok(bytes)
    }
}

/// Answers at both sides of the bounds, 1,048,576 bytes and 64 fields; and long ones that are bad.
const LONG: &[Long] = &[
    // 1,048,576 bytes and one more, by the body. The head has 44.
    Long {
        begin: "HTTP/1.1 200 OK\r\ncontent-length: 1048532\r\n\r\n{\"members\":[]",
        part: " ",
        times: 1_048_518,
        rest: "}",
        status: 0,
    },
    Long {
        begin: "HTTP/1.1 200 OK\r\ncontent-length: 1048533\r\n\r\n{\"members\":[]",
        part: " ",
        times: 1_048_519,
        rest: "}",
        status: 8,
    },
    // The same by the head.
    Long {
        begin: "HTTP/1.1 200 OK\r\ncontent-length: 14\r\nx: ",
        part: "a",
        times: 1_048_518,
        rest: "\r\n\r\n{\"members\":[]}",
        status: 0,
    },
    Long {
        begin: "HTTP/1.1 200 OK\r\ncontent-length: 14\r\nx: ",
        part: "a",
        times: 1_048_519,
        rest: "\r\n\r\n{\"members\":[]}",
        status: 8,
    },
    // A head without an end, and a first line without one.
    Long {
        begin: "HTTP/1.1 200 OK\r\nx: ",
        part: "a",
        times: 1_100_000,
        rest: "",
        status: 8,
    },
    Long {
        begin: "HTTP/1.1 200 ",
        part: "a",
        times: 1_100_000,
        rest: "",
        status: 8,
    },
    // A body that nests as deep as it is long.
    Long {
        begin: "HTTP/1.1 200 OK\r\ncontent-length: 1000000\r\n\r\n",
        part: "[",
        times: 1_000_000,
        rest: "",
        status: 8,
    },
    // 64 fields and 65.
    Long {
        begin: "HTTP/1.1 200 OK\r\ncontent-length: 14\r\n",
        part: "x: a\r\n",
        times: 63,
        rest: "\r\n{\"members\":[]}",
        status: 0,
    },
    Long {
        begin: "HTTP/1.1 200 OK\r\ncontent-length: 14\r\n",
        part: "x: a\r\n",
        times: 64,
        rest: "\r\n{\"members\":[]}",
        status: 8,
    },
];

/// Whether an answer has the status that comes of it. Nothing is written of any.
fn is_met<R>(rt: &R, alloc: Global, long: &Long) -> io::Result<bool>
where
    R: Net<Listener = TcpListener, Stream = TcpStream> + rt::Clock + Threads + Sync,
{
    let bytes = long.bytes(alloc)?;
    let replies = [Reply::whole(bytes.as_slice())];
    let asking = Asking::by(Command::Members, false);
    let played = played(rt, alloc, &replies, &asking)?;
    let line = if long.status == 0 {
        ""
    } else {
        "lg: bad answer\n"
    };
    Ok(played.outcome.is(long.status, b"", line))
}

/// Each of them.
#[test]
fn long_answers(rt: HostRuntime) {
    for (i, long) in LONG.iter().enumerate() {
        let met = is_met(&rt, rt.alloc(), long);
        assert!(rt; met.as_ref().is_ok_and(|met| *met), "{i}: {met:?}");
    }
}
