//! Memory that is refused once. This test passes with memory, and with any one allocation refused.

use crate::client::are_answered;
use crate::site::Page;
use lg_clock::MachineClock;
use lg_http::{Desk, Hosts, Listener, Server, ServerCounts, ServerEnd, Signal};
use std::alloc::Global;
use std::net::{Ipv4Addr, Net, SocketAddr, TcpListener, TcpStream};
use std::random::RandomSource;
use std::thread::{Threads, join};
use std::{io, rt};

/// How a server ended, and what it did.
type Served = io::Result<(ServerEnd, ServerCounts)>;

/// Serves the page until the signal says to stop.
fn serve<R: rt::Clock>(rt: &R, alloc: Global, server: Server, signal: &Signal) -> Served {
    let mut server = server;
    let clock = MachineClock::new(rt)?;
    let mut desk = Desk::new(alloc, Page, Hosts::Any);
    Ok(server.serve(&mut desk, &clock, signal))
}

/// What a server did, and whether its clients were answered. Once they are, it is told to stop.
fn played<R>(rt: &R, alloc: Global) -> io::Result<(ServerEnd, ServerCounts, bool)>
where
    R: Net<Listener = TcpListener, Stream = TcpStream> + RandomSource + rt::Clock + Threads + Sync,
{
    let any = SocketAddr::from((Ipv4Addr::LOCALHOST, 0));
    let listener = Listener::bind(rt, any).map_err(io::Error::from)?;
    let address = listener.address().map_err(io::Error::from)?;
    let (server, signal) = Server::new(rt, alloc, listener)?;
    let signal = &signal;
    let (served, answered) = join(
        rt,
        move || -> Served { serve(rt, alloc, server, signal) },
        move || -> bool {
            let answered = are_answered(rt, address);
            signal.stop();
            answered
        },
    );
    let (end, counts) = served?;
    Ok((end, counts, answered))
}

/// Whether a server answered, and was stopped. Nothing if it was refused memory before it began: for itself, or for the
/// thread in which it serves.
fn serves<R>(rt: &R, alloc: Global) -> Option<bool>
where
    R: Net<Listener = TcpListener, Stream = TcpStream> + RandomSource + rt::Clock + Threads + Sync,
{
    let (end, counts, answered) = played(rt, alloc).ok()?;
    if counts.turns == 0 {
        return None;
    }
    Some(end == ServerEnd::Stopped && answered)
}

/// A server that didn't begin does so the next time. One that began answers all but the client that met the refusal.
#[test]
fn answers_after_refused_memory(rt: HostRuntime) {
    let met = match serves(&rt, rt.alloc()) {
        None => serves(&rt, rt.alloc()),
        met => met,
    };
    assert_eq!(rt; met, Some(true));
}
