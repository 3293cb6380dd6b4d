//! A client of the server of the tests.

use super::playing::Place;
use std::alloc::AllocError;
use std::io::{ErrorKind, Read, Write};
use std::net::{Net, Shutdown, TcpStream};
use std::time::{Duration, Instant};
use std::{io, rt};

/// How long a client waits for a part of an answer, in milliseconds.
const PATIENCE_MS: u64 = 8_000;

/// How many milliseconds have passed since then.
pub(crate) fn passed_ms<R: rt::Clock>(rt: &R, start: Instant) -> io::Result<u64> {
    let passed = start.elapsed(rt)?.as_millis();
    Ok(u64::try_from(passed).unwrap_or(u64::MAX))
}

/// How often a client reads at most.
const READS: u32 = 100_000;

/// What is sent on a connection.
#[derive(Clone, Copy)]
pub(crate) enum Text {
    Whole(&'static [u8]),
    /// Behind it the client says that it sends no more.
    Ended(&'static [u8]),
    /// A beginning, a part so many times, and a rest.
    Long {
        begin: &'static [u8],
        part: &'static [u8],
        times: u32,
        rest: &'static [u8],
    },
}

impl Text {
    /// The bytes.
    fn bytes(&self, place: &Place<'_>) -> Result<Vec<u8>, AllocError> {
        let (begin, part, times, rest) = match *self {
            Text::Whole(text) | Text::Ended(text) => (text, b"".as_slice(), 0, b"".as_slice()),
            Text::Long {
                begin,
                part,
                times,
                rest,
            } => (begin, part, times, rest),
        };
        let mut bytes = Vec::from_slice(place.alloc, begin)?;
        for _ in 0..times {
            bytes.extend_from_slice(part)?;
        }
        bytes.extend_from_slice(rest)?;
        Ok(bytes)
    }
}

/// Sends a text on a connection of its own.
pub(crate) fn sent<R: Net<Stream = TcpStream>>(
    rt: &R,
    place: &Place<'_>,
    text: &Text,
) -> io::Result<TcpStream> {
    let mut stream = TcpStream::connect(rt, place.address)?;
    stream.set_read_timeout(Some(Duration::from_millis(PATIENCE_MS)))?;
    stream.write_all(text.bytes(place)?.as_slice())?;
    if matches!(text, Text::Ended(_)) {
        stream.shutdown(Shutdown::Write)?;
    }
    Ok(stream)
}

/// Sends a text on each of some connections.
pub(crate) fn all_sent<R: Net<Stream = TcpStream>>(
    rt: &R,
    place: &Place<'_>,
    text: &Text,
    count: usize,
) -> io::Result<Vec<TcpStream>> {
    let mut streams = Vec::new(place.alloc);
    for _ in 0..count {
        streams.push(sent(rt, place, text)?)?;
    }
    Ok(streams)
}

/// What came, and whether the server has closed the connection.
#[derive(Drop)]
pub(crate) struct Heard {
    pub(crate) bytes: Vec<u8>,
    pub(crate) is_closed: bool,
}

/// What comes until the server closes the connection, until nothing comes for the client's patience, or until so many
/// bytes are there.
pub(crate) fn told_some(
    place: &Place<'_>,
    stream: &mut TcpStream,
    most: usize,
) -> io::Result<Heard> {
    let mut bytes = Vec::new(place.alloc);
    for _ in 0..READS {
        if bytes.len() >= most {
            break;
        }
        let mut room = [0; 16_384];
        match stream.read(&mut room) {
            Ok(0) => {
                return Ok(Heard {
                    bytes,
                    is_closed: true,
                });
            }
            Ok(count) => bytes.extend_from_slice(&room[..count])?,
            Err(e) if e.kind() == ErrorKind::ConnectionReset => {
                return Ok(Heard {
                    bytes,
                    is_closed: true,
                });
            }
            Err(e) if e.kind() == ErrorKind::WouldBlock => break,
            Err(e) => return Err(e),
        }
    }
    Ok(Heard {
        bytes,
        is_closed: false,
    })
}

/// All that comes until the server closes the connection.
pub(crate) fn told(place: &Place<'_>, stream: &mut TcpStream) -> io::Result<Vec<u8>> {
    let Heard { bytes, is_closed } = told_some(place, stream, usize::MAX)?;
    if is_closed {
        Ok(bytes)
    } else {
        Err(io::Error::from(ErrorKind::TimedOut))
    }
}

/// What comes for a text on a connection of its own, until the server closes it.
pub(crate) fn answer_to<R: Net<Stream = TcpStream>>(
    rt: &R,
    place: &Place<'_>,
    text: &Text,
) -> io::Result<Vec<u8>> {
    let mut stream = sent(rt, place, text)?;
    told(place, &mut stream)
}

/// Where a text stands in what is left from an index on, and where it ends.
fn end_of(got: &[u8], from: usize, text: &[u8]) -> Option<usize> {
    let rest = got.get(from..)?;
    let at = rest
        .windows(text.len().max(1))
        .position(|part| part == text)?;
    from.checked_add(at)?.checked_add(text.len())
}

/// Whether these texts stand in what came, in order, and nothing behind the last one.
pub(crate) fn is_made_of(got: &[u8], parts: &[&[u8]]) -> bool {
    let mut from = 0;
    for part in parts {
        match end_of(got, from, part) {
            Some(end) => from = end,
            None => return false,
        }
    }
    from == got.len()
}
