//! A server on loopback that answers as a test says.

use crate::outputs::{Limit, Room};
use std::io::{ErrorKind, Read, Write};
use std::net::{SocketAddr, TcpListener, TcpStream};
use std::sync::atomic::AtomicBool;
use std::sync::atomic::Ordering::SeqCst;
use std::time::Duration;
use std::{io, rt, thread};

/// How long the server waits for a part of a request, in milliseconds.
const PATIENCE_MS: u64 = 5_000;

/// How often the server reads of a request at most.
const READS: u32 = 10_000;

/// How long the server waits between two pieces, in milliseconds.
const PAUSE_MS: u64 = 1;

/// How often a server that holds a connection looks whether the client has ended, at most.
const LOOKS: u32 = 30_000;

/// What a server sends for a request, and how.
#[derive(Clone, Copy)]
pub(crate) struct Reply<'a> {
    bytes: &'a [u8],
    /// The most bytes of one write.
    piece: usize,
    /// Whether the connection stays open behind them, until the client has ended.
    is_held: bool,
    /// Whether the connection is closed at once, with the request unread.
    is_dropped: bool,
}

impl<'a> Reply<'a> {
    /// These bytes in one write, and then the connection is closed.
    pub(crate) fn whole(bytes: &'a [u8]) -> Reply<'a> {
        Reply {
            bytes,
            piece: usize::MAX,
            is_held: false,
            is_dropped: false,
        }
    }

    /// These bytes in writes of so many bytes, with a pause between two of them.
    pub(crate) fn in_pieces(bytes: &'a [u8], piece: usize) -> Reply<'a> {
        Reply {
            bytes,
            piece,
            is_held: false,
            is_dropped: false,
        }
    }

    /// These bytes in one write, and then nothing, without an end.
    pub(crate) fn held(bytes: &'a [u8]) -> Reply<'a> {
        Reply {
            bytes,
            piece: usize::MAX,
            is_held: true,
            is_dropped: false,
        }
    }

    /// Nothing: the connection is closed at once, and the request isn't read.
    pub(crate) fn dropped() -> Reply<'a> {
        Reply {
            bytes: b"",
            piece: usize::MAX,
            is_held: false,
            is_dropped: true,
        }
    }
}

/// What a server and its client share.
#[derive(Clone, Copy)]
pub(crate) struct Place<'a> {
    pub(crate) address: SocketAddr,
    /// What is sent for each request, in order. Then the server closes its socket.
    pub(crate) replies: &'a [Reply<'a>],
    /// The server has begun.
    pub(crate) has_begun: &'a AtomicBool,
    /// The client has ended.
    pub(crate) is_over: &'a AtomicBool,
    /// The server has ended.
    pub(crate) is_closed: &'a AtomicBool,
}

/// Reads a request until its head is whole, and appends it to others.
fn hear(stream: &mut TcpStream, requests: &mut Room) -> io::Result<()> {
    let before = requests.text().len();
    for _ in 0..READS {
        let text = requests.text();
        if text.len() > before && text.ends_with(b"\r\n\r\n") {
            return Ok(());
        }
        let mut room = [0; 256];
        match stream.read(&mut room) {
            Ok(0) => return Err(io::Error::from(ErrorKind::UnexpectedEof)),
            Ok(count) => requests.write_all(&room[..count])?,
            Err(e) => return Err(e),
        }
    }
    Err(io::Error::from(ErrorKind::InvalidData))
}

/// Sends a reply. The client may have closed the connection before it has taken all of it.
fn send<R: rt::Clock>(rt: &R, stream: &mut TcpStream, reply: &Reply<'_>) -> io::Result<()> {
    stream.set_nodelay(true)?;
    for part in reply.bytes.chunks(reply.piece.max(1)) {
        if stream.write_all(part).is_err() {
            return Ok(());
        }
        if part.len() < reply.bytes.len() {
            thread::sleep(rt, Duration::from_millis(PAUSE_MS));
        }
    }
    Ok(())
}

/// Waits until the client has ended.
fn hold<R: rt::Clock>(rt: &R, place: &Place<'_>) {
    for _ in 0..LOOKS {
        if place.is_over.load(SeqCst) {
            break;
        }
        thread::sleep(rt, Duration::from_millis(PAUSE_MS));
    }
}

/// Answers the next client. Gives whether there was one: what comes once the client has ended is none.
fn answer_next<R: rt::Clock>(
    rt: &R,
    place: &Place<'_>,
    listener: &TcpListener,
    reply: &Reply<'_>,
    requests: &mut Room,
) -> io::Result<bool> {
    let (mut stream, _) = listener.accept()?;
    if place.is_over.load(SeqCst) {
        return Ok(false);
    }
    if reply.is_dropped {
        return Ok(true);
    }
    stream.set_read_timeout(Some(Duration::from_millis(PATIENCE_MS)))?;
    hear(&mut stream, requests)?;
    send(rt, &mut stream, reply)?;
    if reply.is_held {
        hold(rt, place);
    }
    Ok(true)
}

/// Answers each client in turn, until all replies are sent or the client has ended. Gives the requests, one behind
/// another.
fn answer_all<R: rt::Clock>(rt: &R, place: &Place<'_>, listener: &TcpListener) -> io::Result<Room> {
    let mut requests = Room::until(Limit::Never);
    for reply in place.replies {
        if !answer_next(rt, place, listener, reply, &mut requests)? {
            break;
        }
    }
    Ok(requests)
}

/// Serves, and then closes its socket.
pub(crate) fn serve<R: rt::Clock>(
    rt: &R,
    place: &Place<'_>,
    listener: TcpListener,
) -> io::Result<Room> {
    place.has_begun.store(true, SeqCst);
    let requests = answer_all(rt, place, &listener);
    place.is_closed.store(true, SeqCst);
    requests
}
