//! Texts at which the commands are to ask: which of them are addresses, and which host a server sees.

use crate::answers::{FINE, answer};
use crate::bodies::{CHANGE, CHANGE_TEXT, HEALTH, HEALTH_TEXT, LEAVING, SUSPECT, SUSPECT_TEXT};
use crate::playing::{Asking, COMMANDS, Command, played_at};
use crate::server::Reply;
use std::alloc::Global;
use std::net::{Ipv6Addr, Net, SocketAddr, TcpListener, TcpStream};
use std::thread::Threads;
use std::{io, rt};

/// Texts that spell an address of loopback with port 1, where nobody listens. Those of IPv6 have the forms of RFC 4291,
/// section 2.2.
const ADDRESSES: &[&str] = &[
    "127.0.0.1:1",
    "127.0.0.1:0001",
    "127.255.255.254:0000000000000001",
    "[::1]:1",
    "[::1]:0001",
    "[::1]:0000000000000001",
    "[0:0:0:0:0:0:0:1]:1",
    "[0000:0000:0000:0000:0000:0000:0000:0001]:1",
    "[0:0:0::1]:1",
    "[::0:1]:1",
    "[::0.0.0.1]:1",
    "[0:0:0:0:0:0:0.0.0.1]:1",
    "[::ffff:127.0.0.1]:1",
    "[::FFFF:7F00:1]:1",
];

/// Texts that spell no address with a port.
const NO_ADDRESSES: &[&str] = &[
    "",
    "x",
    ":",
    ":8946",
    "127.0.0.1",
    "127.0.0.1:",
    "127.0.0.1:x",
    "127.0.0.1:+1",
    "127.0.0.1:-1",
    "127.0.0.1:0",
    "127.0.0.1:65536",
    "127.0.0.1:00000000000000001",
    "127.0.0.1:8946x",
    "127.0.0.1:8946 ",
    " 127.0.0.1:8946",
    "127.0.0.1 :8946",
    "127.0.0.1:8946:1",
    "127.0.0.1:8946\r\nx: 1",
    "127.0.0.01:8946",
    "256.0.0.1:8946",
    "127.0.0:8946",
    "127.0.0.1.1:8946",
    "localhost:8946",
    "http://127.0.0.1:8946",
    "b@127.0.0.1:8946",
    "[",
    "[]",
    "[]:8946",
    "[:8946",
    "::1",
    "::1:8946",
    "::1]:8946",
    "[::1",
    "[::1:8946",
    "[::1]",
    "[::1]:",
    "[::1]8946",
    "[::1]::8946",
    "[::1]:x",
    "[::1]:+1",
    "[::1]:0",
    "[::1]:65536",
    "[::1]:00000000000000001",
    "[::1]:8946x",
    "[::1]:8946 ",
    "[::1]:8946:1",
    "[::1]:8946\r\nx: 1",
    "[::1] :8946",
    "[::1 ]:8946",
    "[ ::1]:8946",
    " [::1]:8946",
    "[[::1]]:8946",
    "[::1]]:8946",
    "[[::1]:8946",
    "[:1]:8946",
    "[:::1]:8946",
    "[1::2::3]:8946",
    "[1:2:3:4:5:6:7]:8946",
    "[1:2:3:4:5:6:7:8:9]:8946",
    "[1:2:3:4::5:6:7:8]:8946",
    "[2001:db8::12345]:8946",
    "[2001:db8::g]:8946",
    "[2001:db8::/32]:8946",
    "[::127.0.0]:8946",
    "[::256.0.0.1]:8946",
    "[::127.0.0.01]:8946",
    "[::ffff:127.0.0.1:1]:8946",
    "[127.0.0.1]:8946",
    "[localhost]:8946",
    "http://[::1]:8946",
    "[::1]:8946/",
    "b@[::1]:8946",
    // The zone of RFC 4007, section 11, and of RFC 6874, section 2, and another kind of address: RFC 3986, section
    // 3.2.2.
    "[fe80::1234%1]:8946",
    "[fe80::a%25en1]:8946",
    "[v1.fe80::a]:8946",
    // The other forms of RFC 5952, section 6.
    "2001:db8::1:80",
    "2001:db8::1.80",
    "2001:db8::1 port 80",
    "2001:db8::1p80",
    "2001:db8::1#80",
];

/// The first command that doesn't end so at a text.
fn first_other<R: Net + rt::Clock>(
    rt: &R,
    alloc: Global,
    at: &str,
    status: u8,
    line: &str,
) -> Option<Command> {
    for command in COMMANDS {
        let outcome = Asking::by(command, false).run(rt, alloc, at);
        if !outcome.is(status, b"", line) {
            return Some(command);
        }
    }
    None
}

/// Each of the first is asked at. Without IPv6 on this machine nobody answers there either.
#[test]
fn addresses(rt: HostRuntime) {
    for at in ADDRESSES {
        let other = first_other(&rt, rt.alloc(), at, 7, "lg: no answer\n");
        assert!(rt; other.is_none(), "{other:?} at {at}");
    }
}

/// None of the others is.
#[test]
fn no_addresses(rt: HostRuntime) {
    for at in NO_ADDRESSES {
        let other = first_other(&rt, rt.alloc(), at, 3, "lg: bad address\n");
        assert!(rt; other.is_none(), "{other:?} at {at}");
    }
}

/// A command; what stands in its request before the host and behind it (RFC 9112, section 3.2); the body of the answer;
/// and the text, the status and the line that come of it. Nobody answers `watch` a second time.
type Row = (
    Command,
    &'static str,
    &'static str,
    &'static str,
    &'static str,
    u8,
    &'static str,
);

const ROWS: &[Row] = &[
    (
        Command::Members,
        "GET /v1/members HTTP/1.1\r\nhost: ",
        "\r\nconnection: close\r\n\r\n",
        SUSPECT,
        SUSPECT_TEXT,
        0,
        "",
    ),
    (
        Command::Status,
        "GET /v1/health HTTP/1.1\r\nhost: ",
        "\r\nconnection: close\r\n\r\n",
        HEALTH,
        HEALTH_TEXT,
        0,
        "",
    ),
    (
        Command::Watch,
        "GET /v1/changes?after=0&wait_ms=30000 HTTP/1.1\r\nhost: ",
        "\r\nconnection: close\r\n\r\n",
        CHANGE,
        CHANGE_TEXT,
        7,
        "lg: no answer\n",
    ),
    (
        Command::Leave("b"),
        "POST /v1/leave HTTP/1.1\r\nhost: ",
        "\r\nlg-leave: b\r\nconnection: close\r\n\r\n",
        LEAVING,
        "",
        0,
        "",
    ),
];

/// What stands before the port in texts that spell the address ::1.
const HOSTS: &[&str] = &["[::1]:", "[0:0:0:0:0:0:0:1]:", "[::0.0.0.1]:00"];

/// Whether a row comes out if a server at ::1 is asked by a text that begins so, and it sees this text as the host (RFC
/// 9110, section 7.2; RFC 3986, section 3.2.2).
fn is_met<R>(
    rt: &R,
    alloc: Global,
    listener: TcpListener,
    host: &str,
    row: &Row,
) -> io::Result<bool>
where
    R: Net<Listener = TcpListener, Stream = TcpStream> + rt::Clock + Threads + Sync,
{
    let (command, before, behind, body, text, status, line) = *row;
    let port = listener.local_addr()?.port();
    let at = format!(in alloc; "{host}{port}")?;
    let request = format!(in alloc; "{before}{host}{port}{behind}")?;
    let bytes = answer(alloc, FINE, body.as_bytes())?;
    let replies = [Reply::whole(bytes.as_slice())];
    let asking = Asking::by(command, false);
    let seen = played_at(rt, rt, alloc, listener, at, &replies, &asking)?;
    let has_asked = seen.requests.text() == request.as_bytes();
    Ok(has_asked && seen.outcome.is(status, text.as_bytes(), line))
}

/// Each command asks over IPv6. On a machine without the address ::1 there is nothing to see.
#[test]
fn asks_over_ipv6(rt: HostRuntime) {
    for host in HOSTS {
        for row in ROWS {
            let bound = TcpListener::bind(&rt, SocketAddr::from((Ipv6Addr::LOCALHOST, 0)));
            let Ok(listener) = bound else {
                return;
            };
            let met = is_met(&rt, rt.alloc(), listener, host, row);
            assert!(rt;
                met.as_ref().is_ok_and(|met| *met),
                "{row:?} at {host}: {met:?}"
            );
        }
    }
}
