//! A server at a free port of loopback, and a client in another thread that asks it.

use super::board::Board;
use super::{crowd, hosts, late, serving};
use lg_clock::MachineClock;
use lg_http::{Desk, Hosts, Listener, Server, ServerCounts, ServerEnd, Signal};
use std::alloc::{AllocError, Global};
use std::net::{Ipv4Addr, Net, SocketAddr, TcpListener, TcpStream};
use std::random::RandomSource;
use std::sync::atomic::AtomicU64;
use std::thread::{Threads, join};
use std::{io, rt};

/// What the client does.
#[derive(Clone, Copy)]
pub(crate) enum Play {
    /// It asks one thing after another.
    Rows,
    /// It has as many connections as it can.
    Crowd,
    /// It names one host after another.
    Hosts,
    /// It takes its time.
    Late,
}

impl Play {
    /// The hosts that the server answers to.
    fn hosts(self) -> Hosts {
        match self {
            Play::Hosts => Hosts::Local,
            Play::Rows | Play::Crowd | Play::Late => Hosts::Any,
        }
    }
}

/// What the client has.
#[derive(Clone, Copy)]
pub(crate) struct Place<'a> {
    pub(crate) alloc: Global,
    pub(crate) address: SocketAddr,
    /// What the server shows.
    pub(crate) number: &'a AtomicU64,
    pub(crate) signal: &'a Signal,
}

/// What isn't as it should be.
#[derive(Clone, Copy, Debug, PartialEq, Eq)]
pub(crate) struct Wrong {
    pub(crate) what: &'static str,
    /// Which row, or how many.
    pub(crate) number: u64,
}

impl From<io::Error> for Wrong {
    fn from(_error: io::Error) -> Wrong {
        Wrong {
            what: "the client's input and output",
            number: 0,
        }
    }
}

impl From<AllocError> for Wrong {
    fn from(_error: AllocError) -> Wrong {
        Wrong {
            what: "the client's memory",
            number: 0,
        }
    }
}

/// Whether something is as it should be, or what isn't.
pub(crate) fn expect(is_so: bool, what: &'static str, number: u64) -> Result<(), Wrong> {
    if is_so {
        Ok(())
    } else {
        Err(Wrong { what, number })
    }
}

/// What a server did.
type Served = io::Result<(ServerEnd, ServerCounts)>;

/// Serves the number until the signal says to stop.
fn serve<R: rt::Clock>(rt: &R, place: &Place<'_>, server: Server, hosts: Hosts) -> Served {
    let mut server = server;
    let clock = MachineClock::new(rt)?;
    let board = Board {
        number: place.number,
        seen: 0,
    };
    let mut desk = Desk::new(place.alloc, board, hosts);
    Ok(server.serve(&mut desk, &clock, place.signal))
}

/// Does what a play says, and then tells the server to stop.
fn ask_and_stop<R: Net<Stream = TcpStream> + rt::Clock>(
    rt: &R,
    place: &Place<'_>,
    play: Play,
) -> Result<(), Wrong> {
    let seen = match play {
        Play::Rows => serving::ask(rt, place),
        Play::Crowd => crowd::ask(rt, place),
        Play::Hosts => hosts::ask(rt, place),
        Play::Late => late::ask(rt, place),
    };
    place.signal.stop();
    seen
}

/// Runs a server, and a client that asks it.
fn both<R>(rt: &R, place: &Place<'_>, server: Server, play: Play) -> (Served, Result<(), Wrong>)
where
    R: Net<Stream = TcpStream> + rt::Clock + Threads + Sync,
{
    join(
        rt,
        move || -> Served { serve(rt, place, server, play.hosts()) },
        move || -> Result<(), Wrong> { ask_and_stop(rt, place, play) },
    )
}

/// How the server ended, what it did, and what the client saw.
pub(crate) fn played<R>(
    rt: &R,
    alloc: Global,
    play: Play,
) -> io::Result<(ServerEnd, ServerCounts, Result<(), Wrong>)>
where
    R: Net<Listener = TcpListener, Stream = TcpStream> + RandomSource + rt::Clock + Threads + Sync,
{
    let any = SocketAddr::from((Ipv4Addr::LOCALHOST, 0));
    let listener = Listener::bind(rt, any).map_err(io::Error::from)?;
    let address = listener.address().map_err(io::Error::from)?;
    let (server, signal) = Server::new(rt, alloc, listener)?;
    let number = AtomicU64::new(0);
    let place = Place {
        alloc,
        address,
        number: &number,
        signal: &signal,
    };
    let (served, seen) = both(rt, &place, server, play);
    let (end, counts) = served?;
    Ok((end, counts, seen))
}
