//! Clients that take their time.

use super::board::LARGE;
use super::client::{Heard, Text, passed_ms, sent, told_some};
use super::playing::{Place, Play, Wrong, expect, played};
use lg_http::ServerEnd;
use std::io::Write;
use std::net::{Net, TcpStream};
use std::time::{Duration, Instant};
use std::{io, rt, thread};

/// What a client sends, how slowly it reads, and what it has seen at the end.
struct Row {
    sent: &'static [u8],
    /// What it sends 2.5 s later.
    more: &'static [u8],
    /// How many bytes it reads for each millisecond that has passed, however long a step takes.
    reads: u64,
    sees: Sees,
}

/// What a client has seen at the end.
#[derive(Clone, Copy)]
enum Sees {
    /// Nothing, and its connection is open.
    Nothing,
    /// The end of its connection.
    End,
    /// A short answer, and the end.
    Short,
    /// A part of the large answer, and the end.
    Part,
    /// The large answer, and the end.
    Large,
}

impl Sees {
    /// Whether so many bytes are what it says, if the connection was closed or not.
    fn is_met(self, count: usize, is_closed: bool) -> bool {
        match self {
            Sees::Nothing => count == 0 && !is_closed,
            Sees::End => count == 0 && is_closed,
            Sees::Short => (80..200).contains(&count) && is_closed,
            Sees::Part => (1..LARGE).contains(&count) && is_closed,
            Sees::Large => count > LARGE && is_closed,
        }
    }
}

const ROWS: &[Row] = &[
    // No request in 5 s.
    Row {
        sent: b"",
        more: b"",
        reads: 0,
        sees: Sees::End,
    },
    Row {
        sent: b"G",
        more: b"",
        reads: 0,
        sees: Sees::End,
    },
    Row {
        sent: b"G",
        more: b"ET /",
        reads: 0,
        sees: Sees::End,
    },
    // A whole one in less than 5 s.
    Row {
        sent: b"GET / HTTP/1.1\r\nHo",
        more: b"st: a\r\nConnection: close\r\n\r\n",
        reads: 0,
        sees: Sees::Short,
    },
    // An answer, and no further request in 5 s.
    Row {
        sent: b"GET / HTTP/1.1\r\nHost: a\r\n\r\n",
        more: b"",
        reads: 0,
        sees: Sees::Short,
    },
    // A large answer, of which nothing is read in 5 s.
    Row {
        sent: b"GET /large HTTP/1.1\r\nHost: a\r\n\r\n",
        more: b"",
        reads: 0,
        sees: Sees::Part,
    },
    // A large answer, which is read slowly: it takes more than 5 s.
    Row {
        sent: b"GET /large HTTP/1.1\r\nHost: a\r\nConnection: close\r\n\r\n",
        more: b"",
        reads: 2 * 1024,
        sees: Sees::Large,
    },
    // A long poll waits on.
    Row {
        sent: b"GET /next?long HTTP/1.1\r\nHost: a\r\n\r\n",
        more: b"",
        reads: 0,
        sees: Sees::Nothing,
    },
];

/// How many steps the clients take at most.
const STEPS: u64 = 200;

/// How long a step takes at least, in milliseconds.
const STEP_MS: u64 = 50;

/// After how many milliseconds the clients send more.
const MORE_MS: u64 = 2_500;

/// How many milliseconds the steps take together: twice the time that the server gives, since it may be late on a busy
/// machine.
const ALL_MS: u64 = 10_000;

/// A client.
#[derive(Drop)]
struct Client {
    stream: TcpStream,
    /// How many bytes have come.
    got: usize,
}

/// The clients, each of which has sent its text.
fn begun<R: Net<Stream = TcpStream>>(rt: &R, place: &Place<'_>) -> io::Result<Vec<Client>> {
    let mut clients = Vec::new(place.alloc);
    for row in ROWS {
        let stream = sent(rt, place, &Text::Whole(row.sent))?;
        stream.set_nonblocking(true)?;
        clients.push(Client { stream, got: 0 })?;
    }
    Ok(clients)
}

impl Client {
    /// Reads until so many bytes have come, or no more are there. Gives whether the server has closed the connection.
    fn read_on(&mut self, place: &Place<'_>, most: usize) -> io::Result<bool> {
        let Heard { bytes, is_closed } = told_some(place, &mut self.stream, most)?;
        self.got = self.got.saturating_add(bytes.len());
        Ok(is_closed)
    }
}

/// What the clients do in a step, at which so many milliseconds have passed.
fn go_on(
    place: &Place<'_>,
    clients: &mut Vec<Client>,
    has_more: bool,
    passed: u64,
) -> io::Result<()> {
    for (client, row) in clients.iter_mut().zip(ROWS) {
        if has_more {
            client.stream.write_all(row.more)?;
        }
        let due = row.reads.saturating_mul(passed) as usize;
        client.read_on(place, due.saturating_sub(client.got))?;
    }
    Ok(())
}

/// Whether each client has seen what it should at the end.
fn have_seen(place: &Place<'_>, clients: &mut Vec<Client>) -> Result<(), Wrong> {
    for (i, (client, row)) in clients.iter_mut().zip(ROWS).enumerate() {
        let is_open = matches!(row.sees, Sees::Nothing);
        client.stream.set_nonblocking(is_open)?;
        let is_closed = client.read_on(place, usize::MAX)?;
        let is_met = row.sees.is_met(client.got, is_closed);
        expect(is_met, "a client that takes its time", i as u64)?;
    }
    Ok(())
}

/// Takes its time.
pub(crate) fn ask<R: Net<Stream = TcpStream> + rt::Clock>(
    rt: &R,
    place: &Place<'_>,
) -> Result<(), Wrong> {
    let start = Instant::now(rt)?;
    let mut clients = begun(rt, place)?;
    let mut has_sent = false;
    for _ in 0..STEPS {
        thread::sleep(rt, Duration::from_millis(STEP_MS));
        let passed = passed_ms(rt, start)?;
        if passed >= ALL_MS {
            break;
        }
        let has_more = !has_sent && passed >= MORE_MS;
        go_on(place, &mut clients, has_more, passed)?;
        has_sent |= has_more;
    }
    have_seen(place, &mut clients)
}

#[test]
fn closes_those_that_are_late(rt: HostRuntime) {
    let played = played(&rt, rt.alloc(), Play::Late);
    let met = played.as_ref().is_ok_and(|(end, counts, seen)| {
        *end == ServerEnd::Stopped
            && counts.accepted == ROWS.len() as u64
            && counts.turned_away == 0
            && counts.failed == 0
            && seen.is_ok()
    });
    assert!(rt; met, "{played:?}");
}
