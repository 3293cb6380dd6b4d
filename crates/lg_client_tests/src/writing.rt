//! Outputs that fail.

use crate::answers::{FINE, Head, UNAVAILABLE, answer};
use crate::bodies::{ALL, ALL_TEXT, HEALTH, HEALTH_TEXT, OUSTED, OUSTED_TEXT};
use crate::outputs::Limit;
use crate::playing::{Asking, Command, played};
use crate::server::Reply;
use crate::watching::{LIFE, watched};
use std::alloc::Global;
use std::net::{Net, TcpListener, TcpStream};
use std::thread::Threads;
use std::{io, rt};

/// What is asked, the head and the body of the answer, and the text that is written of it.
type Row = (Command, Head, &'static str, &'static str);

const ROWS: &[Row] = &[
    (Command::Members, FINE, ALL, ALL_TEXT),
    (Command::Status, FINE, HEALTH, HEALTH_TEXT),
    (Command::Status, UNAVAILABLE, OUSTED, OUSTED_TEXT),
];

/// What is told of a writer whose calls fail, and of one that takes no more.
const BROKEN: &str = "lg: write\nstandard output can't be written: nobody reads it\n";

const FULL: &str = "lg: write\nstandard output can't be written: it takes nothing\n";

/// Whether a writer that fails like this has taken the first bytes of a text, and that is told.
fn is_told<R>(rt: &R, alloc: Global, row: &Row, writer: Limit, taken: usize) -> io::Result<bool>
where
    R: Net<Listener = TcpListener, Stream = TcpStream> + rt::Clock + Threads + Sync,
{
    let (command, head, body, text) = *row;
    let bytes = answer(alloc, head, body.as_bytes())?;
    let mut asking = Asking::by(command, false);
    asking.writer = writer;
    let played = played(rt, alloc, &[Reply::whole(bytes.as_slice())], &asking)?;
    let front = text.as_bytes().get(..taken);
    let told = if matches!(writer, Limit::Full(_)) {
        FULL
    } else {
        BROKEN
    };
    Ok(front.is_some_and(|front| played.outcome.is(1, front, told)))
}

/// Each write fails in turn, or takes nothing; and the flush fails.
#[test]
fn failing_writes(rt: HostRuntime) {
    for row in ROWS {
        let (command, _, _, text) = *row;
        for taken in 0..text.len() {
            for writer in [Limit::Fails(taken), Limit::Full(taken)] {
                let met = is_told(&rt, rt.alloc(), row, writer, taken);
                assert!(rt;
                    met.as_ref().is_ok_and(|met| *met),
                    "{command:?}, {writer:?}: {met:?}"
                );
            }
        }
        let met = is_told(&rt, rt.alloc(), row, Limit::Flush, text.len());
        assert!(rt;
            met.as_ref().is_ok_and(|met| *met),
            "{command:?}, a flush: {met:?}"
        );
    }
}

/// Whether `watch` tells of a writer that takes so many bytes and then fails.
fn is_watch_told<R>(rt: &R, alloc: Global, taken: usize) -> io::Result<bool>
where
    R: Net<Listener = TcpListener, Stream = TcpStream> + rt::Clock + Threads + Sync,
{
    let mut asking = Asking::by(Command::Watch, false);
    asking.writer = Limit::Fails(taken);
    let watched = watched(rt, alloc, &LIFE, &asking)?;
    let front = watched.text.as_bytes().get(..taken);
    Ok(front.is_some_and(|front| watched.played.outcome.is(1, front, BROKEN)))
}

/// How many bytes `watch` writes of a whole life.
const LIFE_BYTES: usize = 209;

/// Each write of `watch` fails in turn.
#[test]
fn failing_writes_of_watch(rt: HostRuntime) {
    for taken in 0..LIFE_BYTES {
        let met = is_watch_told(&rt, rt.alloc(), taken);
        assert!(rt;
            met.as_ref().is_ok_and(|met| *met),
            "behind {taken} bytes: {met:?}"
        );
    }
}

/// What `watch` writes of the first turn if each flush fails: the whole of it.
#[test]
fn failing_flush_of_watch(rt: HostRuntime) {
    let mut asking = Asking::by(Command::Watch, false);
    asking.writer = Limit::Flush;
    let watched = watched(&rt, rt.alloc(), &LIFE, &asking);
    let (_, _, text) = LIFE[0];
    let met = watched.as_ref().is_ok_and(|watched| watched
        .played
        .outcome
        .is(1, text.as_bytes(), BROKEN));
    assert!(rt; met);
}

/// What a command is told of, and its status and its line.
#[derive(Clone, Copy, Debug)]
enum Of {
    /// A text that is no address.
    NoAddress,
    /// A server that closes the connection behind a part of its answer.
    NoAnswer,
    /// A bad answer.
    BadAnswer,
    /// A writer that takes nothing.
    NoWrite,
}

const FAULTS: [(Of, u8, &str); 4] = [
    (Of::NoAddress, 3, "lg: bad address\n"),
    (Of::NoAnswer, 7, "lg: no answer\n"),
    (Of::BadAnswer, 8, "lg: bad answer\n"),
    (Of::NoWrite, 1, BROKEN),
];

/// Whether a fault has its status, and as much of its line is reported as is taken.
fn is_reported<R>(
    rt: &R,
    alloc: Global,
    fault: (Of, u8, &str),
    faults: Limit,
    taken: usize,
) -> io::Result<bool>
where
    R: Net<Listener = TcpListener, Stream = TcpStream> + rt::Clock + Threads + Sync,
{
    let (of, status, line) = fault;
    let mut asking = Asking::by(Command::Members, false);
    asking.faults = faults;
    asking.writer = Limit::Fails(0);
    let bytes = answer(alloc, FINE, ALL.as_bytes())?;
    let outcome = match of {
        Of::NoAddress => asking.run(rt, alloc, "x"),
        Of::NoAnswer => played(rt, alloc, &[Reply::whole(b"HTTP/1.1 200")], &asking)?.outcome,
        Of::BadAnswer => played(rt, alloc, &[Reply::whole(b"220 mail\r\n\r\n")], &asking)?.outcome,
        Of::NoWrite => played(rt, alloc, &[Reply::whole(bytes.as_slice())], &asking)?.outcome,
    };
    let is_told = outcome.status == status && outcome.writer.text().is_empty();
    Ok(is_told && Some(outcome.faults.text()) == line.as_bytes().get(..taken))
}

/// A line that isn't taken, or not whole, is dropped. The status stays.
#[test]
fn failing_reports(rt: HostRuntime) {
    let limits = [
        (Limit::Fails(0), 0),
        (Limit::Full(0), 0),
        (Limit::Fails(4), 4),
        (Limit::Full(4), 4),
    ];
    for fault in FAULTS {
        for (faults, taken) in limits {
            let met = is_reported(&rt, rt.alloc(), fault, faults, taken);
            assert!(rt;
                met.as_ref().is_ok_and(|met| *met),
                "{fault:?}, {faults:?}: {met:?}"
            );
        }
    }
}
