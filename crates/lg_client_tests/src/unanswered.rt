//! Nobody answers, or not to the end.

use crate::answers::{FINE, answer};
use crate::bodies::{CHANGE, CHANGE_TEXT, FORGOTTEN, HEALTH, SUSPECT};
use crate::playing::{Asking, COMMANDS, Command, Outcome, deserted, played};
use crate::server::Reply;
use std::alloc::Global;
use std::net::{Net, TcpListener, TcpStream};
use std::thread::Threads;
use std::time::Instant;
use std::{io, rt};

/// What comes of a command if nobody listens.
fn alone<R>(rt: &R, alloc: Global, asking: &Asking) -> io::Result<Outcome>
where
    R: Net<Listener = TcpListener, Stream = TcpStream> + rt::Clock,
{
    let at = deserted(rt, alloc)?;
    Ok(asking.run(rt, alloc, at.as_str()))
}

/// Nobody listens.
#[test]
fn nobody_listens(rt: HostRuntime) {
    for command in COMMANDS {
        for json in [false, true] {
            let outcome = alone(&rt, rt.alloc(), &Asking::by(command, json));
            let met = outcome
                .as_ref()
                .is_ok_and(|outcome| outcome.is(7, b"", "lg: no answer\n"));
            assert!(rt; met, "{command:?}, json {json}: {outcome:?}");
        }
    }
}

/// A command, and a body that answers it.
const WELL: &[(Command, &str)] = &[
    (Command::Members, SUSPECT),
    (Command::Status, HEALTH),
    (Command::Watch, CHANGE),
    (Command::Watch, FORGOTTEN),
];

/// The place of the first byte of an answer behind which the end isn't told as it should be: nothing is written, and
/// nobody has answered. Behind no byte it is asked again, and nobody listens any more.
fn first_untold<R>(rt: &R, alloc: Global, command: Command, body: &str) -> io::Result<Option<usize>>
where
    R: Net<Listener = TcpListener, Stream = TcpStream> + rt::Clock + Threads + Sync,
{
    let bytes = answer(alloc, FINE, body.as_bytes())?;
    for cut in 0..bytes.len() {
        let replies = [Reply::whole(&bytes[..cut])];
        let played = played(rt, alloc, &replies, &Asking::by(command, false))?;
        if !played.outcome.is(7, b"", "lg: no answer\n") {
            return Ok(Some(cut));
        }
    }
    Ok(None)
}

/// An answer that is cut off behind each of its bytes, or is closed at once.
#[test]
fn cut_off(rt: HostRuntime) {
    for (command, body) in WELL {
        let first = first_untold(&rt, rt.alloc(), *command, body);
        assert!(rt;
            first.as_ref().is_ok_and(|first| first.is_none()),
            "{command:?}, {body}: {first:?}"
        );
    }
}

/// The same of the second answer to `watch`. The first is written.
fn first_untold_later<R>(rt: &R, alloc: Global) -> io::Result<Option<usize>>
where
    R: Net<Listener = TcpListener, Stream = TcpStream> + rt::Clock + Threads + Sync,
{
    let bytes = answer(alloc, FINE, CHANGE.as_bytes())?;
    for cut in 0..bytes.len() {
        let replies = [Reply::whole(bytes.as_slice()), Reply::whole(&bytes[..cut])];
        let played = played(rt, alloc, &replies, &Asking::by(Command::Watch, false))?;
        if !played
            .outcome
            .is(7, CHANGE_TEXT.as_bytes(), "lg: no answer\n")
        {
            return Ok(Some(cut));
        }
    }
    Ok(None)
}

/// The second answer to `watch` is cut off behind each of its bytes.
#[test]
fn cut_off_later(rt: HostRuntime) {
    let first = first_untold_later(&rt, rt.alloc());
    assert!(rt;
        first.as_ref().is_ok_and(|first| first.is_none()),
        "{first:?}"
    );
}

/// How long a command waits for a silent server, in milliseconds: 10 s, with room for clocks that differ.
const LEAST_MS: u64 = 9_900;

const MOST_MS: u64 = 20_000;

/// What comes of a command whose answer stops behind its first bytes while the connection stays open, and how many
/// milliseconds that takes.
fn silent<R>(rt: &R, alloc: Global) -> io::Result<(Outcome, u64)>
where
    R: Net<Listener = TcpListener, Stream = TcpStream> + rt::Clock + Threads + Sync,
{
    let start = Instant::now(rt)?;
    let replies = [Reply::held(b"HTTP/1.1 200 OK\r\ncontent-length: 14\r\n\r\n{\"members\":[]")];
    let played = played(rt, alloc, &replies, &Asking::by(Command::Members, false))?;
    let passed_ms = u64::try_from(start.elapsed(rt)?.as_millis()).unwrap_or(u64::MAX);
    Ok((played.outcome, passed_ms))
}

/// A server that is silent.
#[test]
fn falls_silent(rt: HostRuntime) {
    let seen = silent(&rt, rt.alloc());
    let met = seen.as_ref().is_ok_and(|(outcome, passed_ms)| {
        outcome.is(7, b"", "lg: no answer\n") && (LEAST_MS..MOST_MS).contains(passed_ms)
    });
    assert!(rt; met, "{seen:?}");
}
