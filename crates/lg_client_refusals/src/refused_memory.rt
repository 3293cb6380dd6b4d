//! Memory that is refused once. This test passes with memory, and with any one allocation refused.

use crate::server::{Place, serve};
use lg_client::{NodeQuestion, Resource, leave_node, tell_answer, watch_changes};
use lg_testing::Room;
use std::alloc::Global;
use std::io::ErrorKind;
use std::net::{Ipv4Addr, Net, SocketAddr, TcpListener, TcpStream};
use std::thread::{Threads, join};
use std::{io, rt};

/// A command.
#[derive(Clone, Copy, Debug)]
enum Command {
    Members,
    Status,
    Watch,
    /// To leave, by the name `b`.
    Leave,
}

/// What is asked, the answer, the text that is written of it, and the status and the line at the end. Nobody answers
/// `watch` a second time. Nobody listens any more behind the answer, so a node that leaves has ended.
type Row = (Command, &'static str, &'static str, u8, &'static str);

const ROWS: &[Row] = &[
    (
        Command::Members,
        "HTTP/1.1 200 OK\r\ncontent-length: 150\r\nconnection: close\r\n\r\n\
        {\"version\":41,\"moment_ms\":5120,\"name\":\"b\",\"members\":[{\"name\":\"a\",\"status\":\"suspect\",\
        \"incarnation\":0,\"address\":\"127.0.0.1\",\"port\":7101,\"accuser\":\"c\"}]}",
        "record a suspect 0 127.0.0.1:7101 by c\n",
        0,
        "",
    ),
    (
        Command::Status,
        "HTTP/1.1 200 OK\r\ncontent-length: 108\r\nconnection: close\r\n\r\n\
        {\"name\":\"b\",\"score\":0,\"incarnation\":0,\"live\":3,\"known\":3,\"ousted\":false,\
        \"uptime_ms\":5120,\"stood_still_ms\":0}",
        "name b\nscore 0\nincarnation 0\nlive 3\nknown 3\nousted false\nuptime_ms 5120\nstood_still_ms 0\n",
        0,
        "",
    ),
    (
        Command::Watch,
        "HTTP/1.1 200 OK\r\ncontent-length: 166\r\nconnection: close\r\n\r\n\
        {\"version\":41,\"missed\":false,\"changes\":[{\"version\":41,\"moment_ms\":5120,\"name\":\"a\",\
        \"status\":\"alive\",\"incarnation\":1,\"address\":\"127.0.0.1\",\"port\":7101,\"accuser\":null}]}",
        "5120 record a alive 1 127.0.0.1:7101\n",
        7,
        "lg: no answer\n",
    ),
    (
        Command::Leave,
        "HTTP/1.1 200 OK\r\ncontent-length: 15\r\nconnection: close\r\n\r\n{\"leaving\":\"b\"}",
        "",
        0,
        "",
    ),
];

/// The status of a command, what it wrote, and what it reported.
#[derive(Drop)]
struct Outcome {
    status: u8,
    writer: Room,
    faults: Room,
}

impl Outcome {
    /// Whether this is the status, and these texts were written and reported.
    fn is(&self, status: u8, text: &str, line: &str) -> bool {
        self.status == status
            && self.writer.has(text.as_bytes())
            && self.faults.has(line.as_bytes())
    }
}

/// Asks at an address.
fn ask<R: Net + rt::Clock>(rt: &R, alloc: Global, command: Command, at: &str) -> Outcome {
    let (mut writer, mut faults) = (Room::failing(0), Room::failing(0));
    let resource = match command {
        Command::Status => Resource::Health,
        _ => Resource::Members,
    };
    let json = false;
    let question = NodeQuestion { at, resource, json };
    let status = match command {
        Command::Watch => watch_changes(rt, alloc, at, json, &mut writer, &mut faults),
        Command::Leave => leave_node(rt, alloc, at, "b", &mut faults),
        _ => tell_answer(rt, alloc, &question, &mut writer, &mut faults),
    };
    Outcome {
        status,
        writer,
        faults,
    }
}

/// Asks the server once it has begun.
fn ask_and_end<R: Net<Stream = TcpStream> + rt::Clock>(
    rt: &R,
    alloc: Global,
    place: &Place,
    command: Command,
    at: &str,
) -> Option<Outcome> {
    let outcome = if place.has_begun(rt) {
        Some(ask(rt, alloc, command, at))
    } else {
        None
    };
    place.end(rt);
    outcome
}

/// What comes of a command that asks a server with this answer. The error is that something beside the command was
/// refused memory.
fn played<R>(rt: &R, alloc: Global, command: Command, answer: &str) -> io::Result<Outcome>
where
    R: Net<Listener = TcpListener, Stream = TcpStream> + rt::Clock + Threads + Sync,
{
    let listener = TcpListener::bind(rt, SocketAddr::from((Ipv4Addr::LOCALHOST, 0)))?;
    let address = listener.local_addr()?;
    let at = format!(in alloc; "{address}")?;
    let place = Place::at(address);
    let (at, place) = (at.as_str(), &place);
    let (_served, outcome) = join(
        rt,
        move || -> io::Result<()> { serve(place, listener, answer.as_bytes()) },
        move || -> Option<Outcome> { ask_and_end(rt, alloc, place, command, at) },
    );
    outcome.ok_or(io::Error::from(ErrorKind::OutOfMemory))
}

/// Whether memory was refused, and nothing was written; or of `watch`, nothing but the whole text of its answer.
fn is_refused(row: &Row, outcome: &Outcome) -> bool {
    let (command, _, text, ..) = *row;
    let has_watched = matches!(command, Command::Watch) && outcome.is(1, text, "lg: memory\n");
    has_watched || outcome.is(1, "", "lg: memory\n")
}

/// How many of two runs came out as they do with memory. None if another run wasn't refused. What a run needs beside
/// the command may be refused too, and then it isn't made.
fn whole_among_two<R>(rt: &R, alloc: Global, row: &Row) -> Option<usize>
where
    R: Net<Listener = TcpListener, Stream = TcpStream> + rt::Clock + Threads + Sync,
{
    let (command, answer, text, status, line) = *row;
    let mut whole = 0_usize;
    for _ in 0..2 {
        let Ok(outcome) = played(rt, alloc, command, answer) else {
            continue;
        };
        if outcome.is(status, text, line) {
            whole = whole.saturating_add(1);
        } else if !is_refused(row, &outcome) {
            return None;
        }
    }
    Some(whole)
}

/// Each row.
#[test]
fn refused_memory(rt: HostRuntime) {
    for row in ROWS {
        let whole = whole_among_two(&rt, rt.alloc(), row);
        assert!(rt; matches!(whole, Some(1..=2)), "{row:?}: {whole:?}");
    }
}
