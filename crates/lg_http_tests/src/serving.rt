//! What a client reads: answers, refusals, pipelined answers in order, and answers to long polls.

use super::acting::ACTS;
use super::board::WAIT_MS;
use super::client::{Text, answer_to, is_made_of, passed_ms, sent, told};
use super::playing::{Place, Play, Wrong, expect, played};
use lg_http::ServerEnd;
use std::net::{Net, TcpStream};
use std::sync::atomic::Ordering::SeqCst;
use std::time::{Duration, Instant};
use std::{rt, thread};

/// What is sent on a connection, and texts that come for it, in this order. Nothing comes behind the last.
pub(crate) struct Row {
    pub(crate) sent: Text,
    pub(crate) parts: &'static [&'static [u8]],
}

const BAD_REQUEST: &[&[u8]] = &[
    b"HTTP/1.1 400 Bad Request\r\n",
    b"connection: close\r\n",
    b"content-type: application/json\r\n",
    b"content-length: 23\r\n\r\n{\"error\":\"bad request\"}",
];

const BODY_TOO_LARGE: &[&[u8]] = &[
    b"HTTP/1.1 413 Content Too Large\r\n",
    b"connection: close\r\n",
    b"content-length: 26\r\n\r\n{\"error\":\"body too large\"}",
];

const TARGET_TOO_LONG: &[&[u8]] = &[
    b"HTTP/1.1 414 URI Too Long\r\n",
    b"connection: close\r\n",
    b"content-length: 27\r\n\r\n{\"error\":\"target too long\"}",
];

const FIELDS_TOO_LARGE: &[&[u8]] = &[
    b"HTTP/1.1 431 Request Header Fields Too Large\r\n",
    b"connection: close\r\n",
    b"content-length: 35\r\n\r\n{\"error\":\"header fields too large\"}",
];

const UNKNOWN_CODING: &[&[u8]] = &[
    b"HTTP/1.1 501 Not Implemented\r\n",
    b"connection: close\r\n",
    b"content-length: 34\r\n\r\n{\"error\":\"coding not implemented\"}",
];

const PAGE: &[&[u8]] = &[
    b"HTTP/1.1 200 OK\r\n",
    b"content-type: text/html; charset=utf-8\r\n",
    b"content-length: 11",
    b"\r\n\r\n<p>page</p>",
];

const METHOD_NOT_ALLOWED: &[&[u8]] = &[
    b"HTTP/1.1 405 Method Not Allowed\r\n",
    b"connection: close\r\n",
    b"allow: GET, HEAD\r\n",
    b"\r\n\r\n{\"error\":\"method not allowed\"}",
];

/// Answers of the site.
const ANSWERS: &[Row] = &[
    Row {
        sent: Text::Whole(b"GET / HTTP/1.1\r\nHost: a\r\nConnection: close\r\n\r\n"),
        parts: PAGE,
    },
    // Behind the head of an answer to HEAD nothing comes (RFC 9110, section 9.3.2).
    Row {
        sent: Text::Whole(b"HEAD / HTTP/1.1\r\nHost: a\r\nConnection: close\r\n\r\n"),
        parts: &[b"HTTP/1.1 200 OK\r\n", b"content-length: 11", b"\r\n\r\n"],
    },
    Row {
        sent: Text::Whole(b"GET /metrics HTTP/1.0\r\n\r\n"),
        parts: &[
            b" 200 OK\r\n",
            b"content-type: text/plain; version=0.0.4; charset=utf-8\r\n",
            b"\r\n\r\nnumber 0\n",
        ],
    },
    Row {
        sent: Text::Whole(b"GET /next?at-once HTTP/1.1\r\nHost: a\r\nConnection: close\r\n\r\n"),
        parts: &[b"HTTP/1.1 200 OK\r\n", b"\r\n\r\n{\"number\":0}"],
    },
    Row {
        sent: Text::Whole(b"POST / HTTP/1.1\r\nHost: a\r\nContent-Length: 3\r\n\r\nabc"),
        parts: METHOD_NOT_ALLOWED,
    },
    // A short body of a GET is read and means nothing (RFC 9110, section 9.3.1).
    Row {
        sent: Text::Whole(b"GET / HTTP/1.1\r\nHost: a\r\nContent-Length: 3\r\n\r\nabc"),
        parts: PAGE,
    },
];

/// Requests that come one behind another, without a wait for the answers (RFC 9112, section 9.3.2).
const PIPELINED: &[Row] = &[
    Row {
        sent: Text::Whole(
            b"GET /bad HTTP/1.1\r\nHost: a\r\n\r\nGET /none HTTP/1.1\r\nHost: a\r\n\r\n\
GET /ill HTTP/1.1\r\nHost: a\r\nConnection: close\r\n\r\n",
        ),
        parts: &[
            b"HTTP/1.1 400 Bad Request\r\n",
            b"{\"error\":\"bad\"}HTTP/1.1 404 Not Found\r\n",
            b"{\"error\":\"unknown\"}HTTP/1.1 503 Service Unavailable\r\n",
            b"\r\n\r\n{\"ill\":true}",
        ],
    },
    Row {
        sent: Text::Whole(
            b"DELETE / HTTP/1.1\r\nHost: a\r\n\r\nGET /next HTTP/1.1\r\nHost: a\r\nConnection: close\r\n\r\n",
        ),
        parts: &[
            b"HTTP/1.1 405 Method Not Allowed\r\n",
            b"allow: GET, HEAD\r\n",
            b"{\"error\":\"method not allowed\"}HTTP/1.1 200 OK\r\n",
            b"\r\n\r\n{\"number\":0}",
        ],
    },
    // What stands behind a long poll waits with it.
    Row {
        sent: Text::Whole(
            b"HEAD /bad HTTP/1.1\r\nHost: a\r\n\r\nGET /next?wait HTTP/1.1\r\nHost: a\r\n\r\n\
GET /bad HTTP/1.1\r\nHost: a\r\nConnection: close\r\n\r\n",
        ),
        parts: &[
            b"HTTP/1.1 400 Bad Request\r\n",
            b"\r\n\r\nHTTP/1.1 200 OK\r\n",
            b"{\"number\":0}HTTP/1.1 400 Bad Request\r\n",
            b"\r\n\r\n{\"error\":\"bad\"}",
        ],
    },
    Row {
        sent: Text::Long {
            begin: b"GET /bad HTTP/1.1\r\nHost: a\r\n\r\n",
            part: b"GET /none HTTP/1.1\r\nHost: a\r\n\r\n",
            times: 500,
            rest: b"GET / HTTP/1.1\r\nHost: a\r\nConnection: close\r\n\r\n",
        },
        parts: &[
            b"{\"error\":\"bad\"}HTTP/1.1 404 Not Found\r\n",
            b"{\"error\":\"unknown\"}HTTP/1.1 200 OK\r\n",
            b"\r\n\r\n<p>page</p>",
        ],
    },
];

/// What is no request (RFC 9112, sections 2.2, 3.2, 5.1, 5.2, 6.3 and 8; RFC 9110, section 5.5).
const DAMAGED: &[&[u8]] = &[
    b"\x16\x03\x01\x02\x00\x01\x00",
    b"GET / HTTP/1.1\r\n\r\n",
    b"GET / HTTP/1.1\r\nHost: a\r\nHost: b\r\n\r\n",
    b"GET / HTTP/1.1\r\nHost: a b\r\n\r\n",
    b"GET / HTTP/1.1\r\nHost a\r\n\r\n",
    b"GET / HTTP/1.1\r\nHost : a\r\n\r\n",
    b"GET / HTTP/1.1\r\nHost: a\r\nX: b\x00c\r\n\r\n",
    b"GET / HTTP/1.1\r\nHost: a\r\nX: b\r\n c\r\n\r\n",
    b"GET / HTTP/1.1\r\nHost: a\r\nX\xff: b\r\n\r\n",
    b"GET /\r\nHost: a\r\n\r\n",
    b"GET / HTTP/x.1\r\nHost: a\r\n\r\n",
    b"G\x00T / HTTP/1.1\r\nHost: a\r\n\r\n",
    b"GET / HTTP/1.1\r\nHost: a\r\nContent-Length: x\r\n\r\n",
    b"GET / HTTP/1.1\r\nHost: a\r\nContent-Length: 1\r\nContent-Length: 2\r\n\r\n",
    b"GET / HTTP/1.1\r\nHost: a\r\nTransfer-Encoding: gzip\r\n\r\n",
    b"GET / HTTP/1.1\r\nHost: a\r\nTransfer-Encoding: chunked\r\n\r\nx\r\n",
];

/// Requests that are too large, or are cut off.
const REFUSED: &[Row] = &[
    // The first line alone is too long.
    Row {
        sent: Text::Long {
            begin: b"GET /",
            part: b"a",
            times: 9_000,
            rest: b"",
        },
        parts: TARGET_TOO_LONG,
    },
    // Its head has 8,192 bytes, as many as it may have.
    Row {
        sent: Text::Long {
            begin: b"GET / HTTP/1.1\r\nHost: a\r\nConnection: close\r\nX: ",
            part: b"a",
            times: 8_141,
            rest: b"\r\n\r\n",
        },
        parts: PAGE,
    },
    // Its head has 8,193 bytes.
    Row {
        sent: Text::Long {
            begin: b"GET / HTTP/1.1\r\nHost: a\r\nConnection: close\r\nX: ",
            part: b"a",
            times: 8_142,
            rest: b"\r\n\r\n",
        },
        parts: FIELDS_TOO_LARGE,
    },
    // Its head has 65 fields.
    Row {
        sent: Text::Long {
            begin: b"GET / HTTP/1.1\r\nHost: a\r\n",
            part: b"X: a\r\n",
            times: 64,
            rest: b"\r\n",
        },
        parts: FIELDS_TOO_LARGE,
    },
    // A body of 1 MiB.
    Row {
        sent: Text::Long {
            begin: b"GET / HTTP/1.1\r\nHost: a\r\nContent-Length: 1048576\r\n\r\n",
            part: b"a",
            times: 1_048_576,
            rest: b"",
        },
        parts: BODY_TOO_LARGE,
    },
    // The same as one chunk.
    Row {
        sent: Text::Long {
            begin: b"GET / HTTP/1.1\r\nHost: a\r\nTransfer-Encoding: chunked\r\n\r\n100000\r\n",
            part: b"a",
            times: 1_048_576,
            rest: b"\r\n0\r\n\r\n",
        },
        parts: BODY_TOO_LARGE,
    },
    // The same under a coding that isn't known.
    Row {
        sent: Text::Long {
            begin: b"GET / HTTP/1.1\r\nHost: a\r\nTransfer-Encoding: gzip, chunked\r\n\r\n100000\r\n",
            part: b"a",
            times: 1_048_576,
            rest: b"\r\n0\r\n\r\n",
        },
        parts: UNKNOWN_CODING,
    },
    // A half of a head, and no more.
    Row {
        sent: Text::Ended(b"GET / HTTP/1.1\r\nHo"),
        parts: BAD_REQUEST,
    },
    // Nothing at all.
    Row {
        sent: Text::Ended(b""),
        parts: &[],
    },
];

/// Whether each row is answered as it should be.
fn are_answered<R: Net<Stream = TcpStream>>(
    rt: &R,
    place: &Place<'_>,
    rows: &[Row],
    what: &'static str,
) -> Result<(), Wrong> {
    for (i, row) in rows.iter().enumerate() {
        let got = answer_to(rt, place, &row.sent)?;
        expect(is_made_of(got.as_slice(), row.parts), what, i as u64)?;
    }
    Ok(())
}

/// Whether each text that is no request is refused with 400.
fn are_refused<R: Net<Stream = TcpStream>>(rt: &R, place: &Place<'_>) -> Result<(), Wrong> {
    for (i, sent) in DAMAGED.iter().enumerate() {
        let got = answer_to(rt, place, &Text::Whole(sent))?;
        expect(
            is_made_of(got.as_slice(), BAD_REQUEST),
            "a damaged head",
            i as u64,
        )?;
    }
    Ok(())
}

const POLL: Text = Text::Whole(b"GET /next?wait HTTP/1.1\r\nHost: a\r\nConnection: close\r\n\r\n");

/// A long poll for which no change comes: it gets the number from before when it has waited long enough.
fn is_patient<R: Net<Stream = TcpStream> + rt::Clock>(
    rt: &R,
    place: &Place<'_>,
) -> Result<(), Wrong> {
    let start = Instant::now(rt)?;
    let got = answer_to(rt, place, &POLL)?;
    let waited_ms = passed_ms(rt, start)?;
    let is_old = is_made_of(got.as_slice(), &[b"200 OK", b"\r\n\r\n{\"number\":0}"]);
    let is_timely = waited_ms >= WAIT_MS && waited_ms < 2_000;
    expect(
        is_old && is_timely,
        "a long poll without a change",
        waited_ms,
    )
}

/// A long poll for which a change comes: it gets the number from after, at once.
fn is_told<R: Net<Stream = TcpStream> + rt::Clock>(rt: &R, place: &Place<'_>) -> Result<(), Wrong> {
    let start = Instant::now(rt)?;
    let mut stream = sent(rt, place, &POLL)?;
    thread::sleep(rt, Duration::from_millis(50));
    place.number.store(1, SeqCst);
    place.signal.published();
    let got = told(place, &mut stream)?;
    let waited_ms = passed_ms(rt, start)?;
    let is_new = is_made_of(got.as_slice(), &[b"200 OK", b"\r\n\r\n{\"number\":1}"]);
    expect(
        is_new && waited_ms < 2_000,
        "a long poll with a change",
        waited_ms,
    )
}

/// Asks the rows, and then two long polls.
pub(crate) fn ask<R: Net<Stream = TcpStream> + rt::Clock>(
    rt: &R,
    place: &Place<'_>,
) -> Result<(), Wrong> {
    are_answered(rt, place, ANSWERS, "an answer")?;
    are_answered(rt, place, ACTS, "a request for POST")?;
    are_answered(rt, place, PIPELINED, "pipelined requests")?;
    are_refused(rt, place)?;
    are_answered(rt, place, REFUSED, "a refusal")?;
    is_patient(rt, place)?;
    is_told(rt, place)
}

#[test]
fn answers_what_it_should(rt: HostRuntime) {
    let played = played(&rt, rt.alloc(), Play::Rows);
    let rows = ANSWERS.len() + ACTS.len() + PIPELINED.len() + DAMAGED.len() + REFUSED.len();
    let met = played.as_ref().is_ok_and(|(end, counts, seen)| {
        *end == ServerEnd::Stopped
            && counts.accepted == rows as u64 + 2
            && counts.turned_away == 0
            && counts.failed == 0
            && seen.is_ok()
    });
    assert!(rt; met, "{played:?}");
}
