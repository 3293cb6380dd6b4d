//! Clients that ask for the page, one after the other.

use arrayvec::ArrayVec;
use std::io::{ErrorKind, Read, Write};
use std::net::{Net, SocketAddr, TcpStream};
use std::time::Duration;
use std::{io, str};

/// How long a client waits for a part of an answer, in milliseconds.
const PATIENCE_MS: u64 = 8_000;

/// How many bytes an answer has at most. It is enough for the page and its head.
const MOST: usize = 1_024;

/// How many clients ask.
const CLIENTS: u64 = 2;

/// What comes until the server closes the connection.
fn told(stream: &mut TcpStream) -> io::Result<ArrayVec<u8, MOST>> {
    let mut bytes = ArrayVec::new();
    for _ in 0..=MOST {
        let mut room = [0; MOST];
        match stream.read(&mut room) {
            Ok(0) => return Ok(bytes),
            Ok(count) if bytes.try_extend_from_slice(&room[..count]).is_ok() => {}
            Ok(_) => break,
            Err(e) if e.kind() == ErrorKind::ConnectionReset => return Ok(bytes),
            Err(e) => return Err(e),
        }
    }
    Err(io::Error::from(ErrorKind::InvalidData))
}

/// What comes for a request on a connection of its own.
fn answer<R: Net<Stream = TcpStream>>(
    rt: &R,
    address: SocketAddr,
) -> io::Result<ArrayVec<u8, MOST>> {
    let mut stream = TcpStream::connect(rt, address)?;
    stream.set_read_timeout(Some(Duration::from_millis(PATIENCE_MS)))?;
    stream.write_all(b"GET / HTTP/1.1\r\nHost: a\r\nConnection: close\r\n\r\n")?;
    told(&mut stream)
}

/// Whether an answer is the page.
fn is_page(bytes: &[u8]) -> bool {
    str::from_utf8(bytes).is_ok_and(|text| {
        text.starts_with("HTTP/1.1 200 OK\r\n")
            && text.contains("\r\ncontent-length: 11\r\n")
            && text.ends_with("\r\n\r\n<p>page</p>")
    })
}

/// Asks for the page again and again. Returns whether at least one client got it, and none a part of it. A client gets
/// nothing if its connection was refused memory. The client too may be refused it.
pub(crate) fn are_answered<R: Net<Stream = TcpStream>>(rt: &R, address: SocketAddr) -> bool {
    let mut is_answered = false;
    for _ in 0..CLIENTS {
        if let Ok(got) = answer(rt, address) {
            let is_whole = is_page(&got);
            if !is_whole && !got.is_empty() {
                return false;
            }
            is_answered = is_answered || is_whole;
        }
    }
    is_answered
}
