//! A command that asks a server, and what came of it.

use crate::outputs::{Limit, Room};
use crate::server::{Place, Reply, serve};
use lg_client::{NodeQuestion, Resource, leave_node, tell_answer, watch_changes};
use std::alloc::{AllocError, Global};
use std::io::ErrorKind;
use std::net::{Ipv4Addr, Net, SocketAddr, TcpListener, TcpStream};
use std::sync::atomic::AtomicBool;
use std::sync::atomic::Ordering::SeqCst;
use std::thread::{Threads, join};
use std::time::Duration;
use std::{io, rt, thread};

/// How often a client looks whether its server has begun, at most.
const LOOKS: u32 = 5_000;

/// A command.
#[derive(Clone, Copy, Debug)]
pub(crate) enum Command {
    Members,
    Status,
    Watch,
    /// To leave, by this name, or by the one of its health if the name is empty. It writes nothing.
    Leave(&'static str),
}

/// All commands.
pub(crate) const COMMANDS: [Command; 5] = [
    Command::Members,
    Command::Status,
    Command::Watch,
    Command::Leave(""),
    Command::Leave("b"),
];

/// How a command asks, and how its outputs fail.
#[derive(Clone, Copy, Debug)]
pub(crate) struct Asking {
    pub(crate) command: Command,
    pub(crate) json: bool,
    pub(crate) writer: Limit,
    pub(crate) faults: Limit,
}

/// The status of a command, what it wrote, and what it reported.
#[derive(Drop, Debug)]
pub(crate) struct Outcome {
    pub(crate) status: u8,
    pub(crate) writer: Room,
    pub(crate) faults: Room,
}

impl Outcome {
    /// Whether this is the status, and these texts were written and reported.
    pub(crate) fn is(&self, status: u8, text: &[u8], line: &str) -> bool {
        self.status == status && self.writer.text() == text && self.faults.text() == line.as_bytes()
    }
}

impl Asking {
    /// A command whose outputs don't fail.
    pub(crate) fn by(command: Command, json: bool) -> Asking {
        Asking {
            command,
            json,
            writer: Limit::Never,
            faults: Limit::Never,
        }
    }

    /// Asks at an address.
    pub(crate) fn run<R: Net + rt::Clock>(&self, rt: &R, alloc: Global, at: &str) -> Outcome {
        let mut writer = Room::until(self.writer);
        let mut faults = Room::until(self.faults);
        let (out, told) = (&mut writer, &mut faults);
        let json = self.json;
        let status = match self.command {
            Command::Members => {
                let resource = Resource::Members;
                let question = NodeQuestion { at, resource, json };
                tell_answer(rt, alloc, &question, out, told)
            }
            Command::Status => {
                let resource = Resource::Health;
                let question = NodeQuestion { at, resource, json };
                tell_answer(rt, alloc, &question, out, told)
            }
            Command::Watch => watch_changes(rt, alloc, at, json, out, told),
            Command::Leave(name) => leave_node(rt, alloc, at, name, told),
        };
        Outcome {
            status,
            writer,
            faults,
        }
    }
}

/// What came of a command that asked a server.
#[derive(Drop, Debug)]
pub(crate) struct Seen {
    /// Where the server listened.
    pub(crate) at: String,
    pub(crate) outcome: Outcome,
    /// The requests that the server saw, one behind another.
    pub(crate) requests: Room,
}

impl Seen {
    /// Whether the server saw requests for these targets (RFC 9112, section 3), and no other byte.
    pub(crate) fn has_asked(&self, alloc: Global, targets: &[&str]) -> Result<bool, AllocError> {
        let at = self.at.as_str();
        let mut text = String::new(alloc);
        for target in targets {
            let request = format!(in alloc;
                "GET {target} HTTP/1.1\r\nhost: {at}\r\nconnection: close\r\n\r\n"
            )?;
            text.push_str(request.as_str())?;
        }
        Ok(self.requests.text() == text.as_bytes())
    }
}

/// Whether the server has begun. If no thread could be made for it, it doesn't.
fn has_begun<R: rt::Clock>(rt: &R, place: &Place<'_>) -> bool {
    for _ in 0..LOOKS {
        if place.has_begun.load(SeqCst) {
            return true;
        }
        thread::sleep(rt, Duration::from_millis(1));
    }
    false
}

/// Asks the server through `net`, and then tells it that the client has ended. A server that waits for another client
/// gets one, so that it can see this.
fn ask_and_end<R: Net<Stream = TcpStream> + rt::Clock, M: Net + rt::Clock>(
    rt: &R,
    net: &M,
    alloc: Global,
    place: &Place<'_>,
    at: &str,
    asking: &Asking,
) -> Option<Outcome> {
    let outcome = if has_begun(rt, place) {
        Some(asking.run(net, alloc, at))
    } else {
        None
    };
    place.is_over.store(true, SeqCst);
    if !place.is_closed.load(SeqCst) {
        drop(TcpStream::connect(rt, place.address));
    }
    outcome
}

/// Runs a server, and a command that asks it through `net`.
fn both<R, M>(
    rt: &R,
    net: &M,
    alloc: Global,
    place: &Place<'_>,
    listener: TcpListener,
    at: &str,
    asking: &Asking,
) -> (io::Result<Room>, Option<Outcome>)
where
    R: Net<Stream = TcpStream> + rt::Clock + Threads + Sync,
    M: Net + rt::Clock + Sync,
{
    join(
        rt,
        move || -> io::Result<Room> { serve(rt, place, listener) },
        move || -> Option<Outcome> { ask_and_end(rt, net, alloc, place, at, asking) },
    )
}

/// A socket that listens at a free port of loopback.
fn listen<R: Net<Listener = TcpListener, Stream = TcpStream>>(rt: &R) -> io::Result<TcpListener> {
    TcpListener::bind(rt, SocketAddr::from((Ipv4Addr::LOCALHOST, 0)))
}

/// An address of loopback at which nobody listens.
pub(crate) fn deserted<R: Net<Listener = TcpListener, Stream = TcpStream>>(
    rt: &R,
    alloc: Global,
) -> io::Result<String> {
    let address = listen(rt)?.local_addr()?;
    Ok(format!(in alloc; "{address}")?)
}

/// What comes of a command that asks a server with these replies.
pub(crate) fn played<R>(
    rt: &R,
    alloc: Global,
    replies: &[Reply<'_>],
    asking: &Asking,
) -> io::Result<Seen>
where
    R: Net<Listener = TcpListener, Stream = TcpStream> + rt::Clock + Threads + Sync,
{
    played_through(rt, rt, alloc, replies, asking)
}

/// The same if the command connects and sleeps through `net`.
pub(crate) fn played_through<R, M>(
    rt: &R,
    net: &M,
    alloc: Global,
    replies: &[Reply<'_>],
    asking: &Asking,
) -> io::Result<Seen>
where
    R: Net<Listener = TcpListener, Stream = TcpStream> + rt::Clock + Threads + Sync,
    M: Net + rt::Clock + Sync,
{
    let listener = listen(rt)?;
    let address = listener.local_addr()?;
    let at = format!(in alloc; "{address}")?;
    played_at(rt, net, alloc, listener, at, replies, asking)
}

/// The same if the server listens with this socket, and the command is told that it is at the address of this text.
pub(crate) fn played_at<R, M>(
    rt: &R,
    net: &M,
    alloc: Global,
    listener: TcpListener,
    at: String,
    replies: &[Reply<'_>],
    asking: &Asking,
) -> io::Result<Seen>
where
    R: Net<Listener = TcpListener, Stream = TcpStream> + rt::Clock + Threads + Sync,
    M: Net + rt::Clock + Sync,
{
    let address = listener.local_addr()?;
    let has_begun = AtomicBool::new(false);
    let is_over = AtomicBool::new(false);
    let is_closed = AtomicBool::new(false);
    let place = Place {
        address,
        replies,
        has_begun: &has_begun,
        is_over: &is_over,
        is_closed: &is_closed,
    };
    let (requests, outcome) = both(rt, net, alloc, &place, listener, at.as_str(), asking);
    match outcome {
        Some(outcome) => Ok(Seen {
            at,
            outcome,
            requests: requests?,
        }),
        None => Err(io::Error::from(ErrorKind::OutOfMemory)),
    }
}
