//! Which requests a server answers that answers to addresses and `localhost` alone.

use super::client::{Text, answer_to, is_made_of};
use super::playing::{Place, Play, Wrong, expect, played};
use lg_http::ServerEnd;
use std::net::{Net, TcpStream};
use std::rt;

/// The answer to a request for a host that is taken.
const PAGE: &[&[u8]] = &[b" 200 OK\r\n", b"\r\n\r\n<p>page</p>"];

/// The answer to a request for another (RFC 9110, section 15.5.20).
const MISDIRECTED: &[&[u8]] = &[
    b" 421 Misdirected Request\r\n",
    b"content-type: application/json\r\n",
    b"\r\n\r\n{\"error\":\"misdirected request\"}",
];

/// The same to HEAD, behind whose head nothing comes.
const MISDIRECTED_HEAD: &[&[u8]] = &[b" 421 Misdirected Request\r\n", b"\r\n\r\n"];

/// What HTTP/1.1 wants if the hosts of a request aren't one host (RFC 9112, section 3.2).
const BAD_REQUEST: &[&[u8]] = &[
    b" 400 Bad Request\r\n",
    b"\r\n\r\n{\"error\":\"bad request\"}",
];

/// Values of `Host` in the forms of RFC 3986, sections 3.2.2 and 3.2.3, and what comes for the page.
const HOSTS: &[(&[u8], &[&[u8]])] = &[
    (b"127.0.0.1", PAGE),
    (b"127.0.0.1:7900", PAGE),
    (b"127.0.0.1:", PAGE),
    (b"192.0.2.16:80", PAGE),
    (b"0.0.0.0", PAGE),
    (b"255.255.255.255", PAGE),
    (b"[::1]", PAGE),
    (b"[::1]:7900", PAGE),
    (b"[2001:db8::7]:80", PAGE),
    (b"[::ffff:192.0.2.16]", PAGE),
    (b"localhost", PAGE),
    (b"localhost:7900", PAGE),
    (b"LocalHost:7900", PAGE),
    (b"LOCALHOST", PAGE),
    // Names, among them some that a name server may have lead to 127.0.0.1.
    (b"example.com", MISDIRECTED),
    (b"example.com:7900", MISDIRECTED),
    (b"localhost.example.com", MISDIRECTED),
    (b"localhost.", MISDIRECTED),
    (b"localhosts", MISDIRECTED),
    (b"127.0.0.1.example.com", MISDIRECTED),
    (b"127.0.0.1.example.com:7900", MISDIRECTED),
    (b"a", MISDIRECTED),
    // These are names by that grammar: too few numbers, too many, one too large, one with a zero in front, or none.
    (b"127.0.1", MISDIRECTED),
    (b"127.0.0.0.1", MISDIRECTED),
    (b"127.0.0.256", MISDIRECTED),
    (b"127.0.0.01", MISDIRECTED),
    (b"127.0.0.", MISDIRECTED),
    (b"2130706433", MISDIRECTED),
    (b"0x7f000001", MISDIRECTED),
    (b"", MISDIRECTED),
    // No hosts.
    (b":7900", BAD_REQUEST),
    (b"[::1", BAD_REQUEST),
    (b"[localhost]", BAD_REQUEST),
    (b"localhost:a", BAD_REQUEST),
    (b"a b", BAD_REQUEST),
];

/// Other requests, and what comes for them.
const REQUESTS: &[(&[u8], &[&[u8]])] = &[
    // HTTP/1.0 may name no host, and HTTP/1.1 has to name one.
    (b"GET / HTTP/1.0\r\n\r\n", MISDIRECTED),
    (b"GET / HTTP/1.0\r\nHost: localhost\r\n\r\n", PAGE),
    (b"GET / HTTP/1.1\r\n\r\n", BAD_REQUEST),
    (
        b"GET / HTTP/1.1\r\nHost: localhost\r\nHost: localhost\r\n\r\n",
        BAD_REQUEST,
    ),
    // Neither the method nor the target counts.
    (
        b"HEAD / HTTP/1.1\r\nHost: a\r\nConnection: close\r\n\r\n",
        MISDIRECTED_HEAD,
    ),
    (
        b"DELETE / HTTP/1.1\r\nHost: a\r\nConnection: close\r\n\r\n",
        MISDIRECTED,
    ),
    (
        b"GET /none HTTP/1.1\r\nHost: a\r\nConnection: close\r\n\r\n",
        MISDIRECTED,
    ),
    // A long poll for another host waits, and is told so then.
    (
        b"GET /next?wait HTTP/1.1\r\nHost: a\r\nConnection: close\r\n\r\n",
        MISDIRECTED,
    ),
    // Behind a request with a body the connection is closed.
    (
        b"POST / HTTP/1.1\r\nHost: a\r\nContent-Length: 3\r\n\r\nabc",
        MISDIRECTED,
    ),
    // The connection goes on for another host, and none is told of leave to read across origins.
    (
        b"GET / HTTP/1.1\r\nHost: a\r\nOrigin: http://a\r\n\r\n\
GET / HTTP/1.1\r\nHost: localhost\r\nConnection: close\r\n\r\n",
        &[
            b"HTTP/1.1 421 Misdirected Request\r\ncontent-type: application/json\r\ncontent-length: 31\r\n\r\n",
            b"{\"error\":\"misdirected request\"}HTTP/1.1 200 OK\r\n",
            b"\r\n\r\n<p>page</p>",
        ],
    ),
];

/// Asks for the page by each host, and then the other requests.
pub(crate) fn ask<R: Net<Stream = TcpStream>>(rt: &R, place: &Place<'_>) -> Result<(), Wrong> {
    for (i, (host, parts)) in HOSTS.iter().enumerate() {
        let text = Text::Long {
            begin: b"GET / HTTP/1.1\r\nHost: ",
            part: *host,
            times: 1,
            rest: b"\r\nConnection: close\r\n\r\n",
        };
        let got = answer_to(rt, place, &text)?;
        expect(is_made_of(got.as_slice(), *parts), "a host", i as u64)?;
    }
    for (i, (sent, parts)) in REQUESTS.iter().enumerate() {
        let got = answer_to(rt, place, &Text::Whole(*sent))?;
        expect(is_made_of(got.as_slice(), *parts), "a request", i as u64)?;
    }
    Ok(())
}

#[test]
fn answers_to_addresses_and_localhost(rt: HostRuntime) {
    let played = played(&rt, rt.alloc(), Play::Hosts);
    let met = played.as_ref().is_ok_and(|(end, counts, seen)| {
        *end == ServerEnd::Stopped && counts.failed == 0 && seen.is_ok()
    });
    assert!(rt; met, "{played:?}");
}
