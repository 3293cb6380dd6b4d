//! As many clients as a server takes, and one more; as many long polls as may wait, and one more.

use super::client::{Text, all_sent, answer_to, is_made_of, passed_ms, sent, told};
use super::playing::{Place, Play, Wrong, expect, played};
use lg_http::{MAX_PARKED, MAX_PEERS, ServerEnd};
use std::io::{ErrorKind, Read};
use std::net::{Net, TcpStream};
use std::sync::atomic::Ordering::SeqCst;
use std::time::{Duration, Instant};
use std::{io, rt, thread};

/// A long poll.
const POLL: Text = Text::Whole(b"GET /next?long HTTP/1.1\r\nHost: a\r\nConnection: close\r\n\r\n");

/// A request that is answered at once.
const PAGE: Text = Text::Whole(b"GET / HTTP/1.1\r\nHost: a\r\nConnection: close\r\n\r\n");

/// No request yet.
const NOTHING: Text = Text::Whole(b"");

/// What comes for a long poll too many.
const CROWDED: &[&[u8]] = &[
    b"HTTP/1.1 503 Service Unavailable\r\n",
    b"connection: close\r\n",
    b"retry-after: 1\r\n",
    b"content-type: application/json\r\n",
    b"\r\n\r\n{\"error\":\"too many requests wait\"}",
];

/// What is answered at once while as many long polls wait as may, and texts that come for it.
const MEANWHILE: &[(Text, &[&[u8]])] = &[
    (PAGE, &[b"200 OK\r\n", b"<p>page</p>"]),
    // It doesn't wait, since it is to wait no time, or since only a GET waits.
    (
        Text::Whole(b"GET /next?at-once HTTP/1.1\r\nHost: a\r\nConnection: close\r\n\r\n"),
        &[b"200 OK\r\n", b"\r\n\r\n{\"number\":0}"],
    ),
    (
        Text::Whole(b"HEAD /next?long HTTP/1.1\r\nHost: a\r\nConnection: close\r\n\r\n"),
        &[b"200 OK\r\n", b"\r\n\r\n"],
    ),
    (
        Text::Whole(b"POST /next?long HTTP/1.1\r\nHost: a\r\nConnection: close\r\n\r\n"),
        &[
            b"405 Method Not Allowed\r\n",
            b"{\"error\":\"method not allowed\"}",
        ],
    ),
    // Nor does one that a body follows.
    (
        Text::Whole(b"GET /next?long HTTP/1.1\r\nHost: a\r\nContent-Length: 1\r\n\r\na"),
        &[b"200 OK\r\n", b"\r\n\r\n{\"number\":0}"],
    ),
];

/// How long the server gets for what has to happen first, in milliseconds.
const SETTLE_MS: u64 = 100;

/// How long a client that has sent nothing keeps its place, in milliseconds.
const FRESH_MS: u64 = 250;

/// How often the client tries to be faster than that.
const TRIES: u64 = 5;

/// How many clients there are beside the long polls.
const OTHERS: usize = MAX_PEERS - MAX_PARKED;

/// Takes all places that are left, and one more. Gives the clients, and whether the last was closed at once, if this
/// went so fast that no other client had to yield its place.
fn one_too_many<R: Net<Stream = TcpStream> + rt::Clock>(
    rt: &R,
    place: &Place<'_>,
) -> io::Result<(Vec<TcpStream>, bool)> {
    let start = Instant::now(rt)?;
    let others = all_sent(rt, place, &NOTHING, OTHERS)?;
    let mut last = sent(rt, place, &NOTHING)?;
    let is_empty = told(place, &mut last)?.is_empty();
    let is_fast = passed_ms(rt, start)? < FRESH_MS;
    Ok((others, is_empty && is_fast))
}

/// Takes all places that are left, until one client more was closed at once.
fn filled<R: Net<Stream = TcpStream> + rt::Clock>(
    rt: &R,
    place: &Place<'_>,
) -> Result<Vec<TcpStream>, Wrong> {
    for _ in 0..TRIES {
        let (others, is_met) = one_too_many(rt, place)?;
        if is_met {
            return Ok(others);
        }
        drop(others);
        thread::sleep(rt, Duration::from_millis(SETTLE_MS));
    }
    Err(Wrong {
        what: "a client too many",
        number: TRIES,
    })
}

/// How many of the connections the server has closed.
fn closed(streams: &mut Vec<TcpStream>) -> io::Result<u64> {
    let mut count: u64 = 0;
    for stream in streams.iter_mut() {
        stream.set_nonblocking(true)?;
        let mut room = [0; 1];
        match stream.read(&mut room) {
            Ok(0) => count = count.saturating_add(1),
            Ok(_) => {}
            Err(e) if e.kind() == ErrorKind::WouldBlock => {}
            Err(e) => return Err(e),
        }
    }
    Ok(count)
}

/// Publishes one change, and counts the long polls that get it.
fn told_of_change(place: &Place<'_>, polls: &mut Vec<TcpStream>) -> io::Result<u64> {
    place.number.store(1, SeqCst);
    place.signal.published();
    let mut count: u64 = 0;
    for poll in polls.iter_mut() {
        let got = told(place, poll)?;
        if is_made_of(got.as_slice(), &[b"200 OK", b"\r\n\r\n{\"number\":1}"]) {
            count = count.saturating_add(1);
        }
    }
    Ok(count)
}

/// Fills the server, and then publishes a change.
pub(crate) fn ask<R: Net<Stream = TcpStream> + rt::Clock>(
    rt: &R,
    place: &Place<'_>,
) -> Result<(), Wrong> {
    let mut polls = all_sent(rt, place, &POLL, MAX_PARKED)?;
    thread::sleep(rt, Duration::from_millis(SETTLE_MS));
    let got = answer_to(rt, place, &POLL)?;
    expect(
        is_made_of(got.as_slice(), CROWDED),
        "a long poll too many",
        0,
    )?;
    for (i, (text, parts)) in MEANWHILE.iter().enumerate() {
        let got = answer_to(rt, place, text)?;
        expect(
            is_made_of(got.as_slice(), *parts),
            "while many wait",
            i as u64,
        )?;
    }
    let mut others = filled(rt, place)?;
    thread::sleep(rt, Duration::from_millis(FRESH_MS + SETTLE_MS));
    let got = answer_to(rt, place, &PAGE)?;
    expect(
        is_made_of(got.as_slice(), &[b"<p>page</p>"]),
        "a client that gets the place of another",
        0,
    )?;
    let yielded = closed(&mut others)?;
    expect(yielded == 1, "how many clients lost their place", yielded)?;
    let told = told_of_change(place, &mut polls)?;
    expect(
        told == MAX_PARKED as u64,
        "how many long polls were told of a change",
        told,
    )
}

#[test]
fn takes_so_many_clients(rt: HostRuntime) {
    let played = played(&rt, rt.alloc(), Play::Crowd);
    let met = played.as_ref().is_ok_and(|(end, counts, seen)| {
        *end == ServerEnd::Stopped && counts.turned_away > 0 && counts.failed == 0 && seen.is_ok()
    });
    assert!(rt; met, "{played:?}");
}
