//! A server on loopback that answers one client.

use std::io::{ErrorKind, Read, Write};
use std::net::{Net, SocketAddr, TcpListener, TcpStream};
use std::sync::atomic::AtomicBool;
use std::sync::atomic::Ordering::SeqCst;
use std::time::Duration;
use std::{io, rt, thread};

/// How long the server waits for a part of a request, in milliseconds.
const PATIENCE_MS: u64 = 5_000;

/// How many bytes the head of a request has at most, and how often a client looks whether the server has begun.
const MOST: u32 = 5_000;

/// Where a server listens, and how far it and its client are.
#[derive(Drop)]
pub(crate) struct Place {
    pub(crate) address: SocketAddr,
    has_begun: AtomicBool,
    is_over: AtomicBool,
}

impl Place {
    /// A server that hasn't begun, at this address.
    pub(crate) fn at(address: SocketAddr) -> Place {
        Place {
            address,
            has_begun: AtomicBool::new(false),
            is_over: AtomicBool::new(false),
        }
    }

    /// Whether the server has begun. If no thread could be made for it, it doesn't.
    pub(crate) fn has_begun<R: rt::Clock>(&self, rt: &R) -> bool {
        for _ in 0..MOST {
            if self.has_begun.load(SeqCst) {
                return true;
            }
            thread::sleep(rt, Duration::from_millis(1));
        }
        false
    }

    /// Tells the server that its client has ended. A server that waits for one gets one, so that it can see this.
    pub(crate) fn end<R: Net<Stream = TcpStream>>(&self, rt: &R) {
        self.is_over.store(true, SeqCst);
        drop(TcpStream::connect(rt, self.address));
    }
}

/// Reads the head of a request, which has no body.
fn hear(stream: &mut TcpStream) -> io::Result<()> {
    let mut tail = [0; 4];
    for _ in 0..MOST {
        if tail == *b"\r\n\r\n" {
            return Ok(());
        }
        let mut next = [0];
        stream.read_exact(&mut next)?;
        tail = [tail[1], tail[2], tail[3], next[0]];
    }
    Err(io::Error::from(ErrorKind::InvalidData))
}

/// Answers one client by these bytes, and then nobody listens any more. A client that comes once the first has ended
/// isn't answered.
pub(crate) fn serve(place: &Place, listener: TcpListener, reply: &[u8]) -> io::Result<()> {
    place.has_begun.store(true, SeqCst);
    let (mut stream, _) = listener.accept()?;
    drop(listener);
    if place.is_over.load(SeqCst) {
        return Ok(());
    }
    stream.set_read_timeout(Some(Duration::from_millis(PATIENCE_MS)))?;
    hear(&mut stream)?;
    stream.write_all(reply)
}
