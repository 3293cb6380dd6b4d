//! The status server of a node, from its socket to its end.
//!
//! Defined in: `specs/Meaning/Served.antt`, `specs/Meaning/Shown.antt`, `lg_http/specs/Meaning/Slots.antt`.
//! Tested in: `cases/status`.
ghost use Rattle.std.specs.Prelude.{◌≡◌, IfOk};
ghost use Rattle.std.specs.Option.{option_map};
ghost use Rattle.lg_follow.specs.Meaning.Sights.{OnlyLooked};
ghost use Rattle.lg_http.specs.Meaning.Slots.{AreFree, slots_of};
ghost use Rattle.lg_status_server.specs.Meaning.Served.{ServedAs, served_line};

use crate::site::{NodeSite, SiteBasis};
use lg_agent::{AgentName, Pass, Refusal};
use lg_clock::Clock;
use lg_http::{Desk, Hosts, Listener, Server, ServerCounts, ServerEnd, Signal};
use lg_rules::Addr;
use std::alloc::Global;
use std::fs::Files;
use std::io::ErrorKind;
use std::net::{Net, SocketAddr};
use std::random::RandomSource;

/// How the status server of a node ended.
#[derive(Clone, Copy, Debug, PartialEq, Eq)]
pub enum Served {
    /// Its first look was refused, so it served nobody.
    Refused(Refusal),
    /// It served until it was told to stop, or until the system's wait failed.
    Ended(ServerEnd, ServerCounts),
}

impl Served {
    /// Why the server ended before its node, as a line. It is empty if it was told to stop.
    pub fn line(&self) -> &'static str
        ensures { result.now ≡ served_line self.now }
    {
        match self {
            Served::Refused(_) => "the status server couldn't begin: memory is refused\n",
            Served::Ended(ServerEnd::Stopped, _) => "",
            Served::Ended(ServerEnd::WaitFailed(_), _) =>
                "the status server ended early: the machine's wait failed\n",
        }
    }
}

/// A server at an address, and the signal by which other threads reach it. Its memory for 256 connections is allocated
/// here. The error is the system's kind, as [`ErrorKind::AddrInUse`] if another process has the address, or refused
/// memory.
pub fn bind(
    rt: &(impl Net + RandomSource),
    alloc: Global,
    addr: Addr,
) -> Result<(Server, Signal), ErrorKind>
    ensures { IfOk result (λ made. AreFree (slots_of made.0)) }
{
    let listener = Listener::bind(rt, SocketAddr::from(addr))?;
    match Server::new(rt, alloc, listener) {
        Ok(made) => Ok(made),
        Err(fault) => Err(fault.kind()),
    }
}

/// Serves what a node shows until the signal tells the server to stop, by looks of a pass, which it gives back. The
/// machine's clock is for the deadlines of connections: they go on while the node stands still.
pub fn serve<'p, A, C, R, M>(
    server: &mut Server,
    signal: &Signal,
    machine: &M,
    pass: Pass<'p, A>,
    basis: SiteBasis<'_, C, R>,
    hosts: Hosts,
) -> (Pass<'p, A>, Served)
where
    A: AgentName,
    C: Clock,
    R: Files + AllocGlobal + Clone + Drop,
    M: Clock,
    ensures looked { OnlyLooked pass.entry result.0 }
    ensures served { ServedAs result.1 basis.entry.counters.now.name basis.entry.config basis.entry.leave
        (option_map (λ f. f.now) basis.entry.folder) hosts pass.entry result.0 server.old server.new }
{
    let alloc = basis.alloc;
    let site = match NodeSite::new(pass, basis) {
        Ok(site) => site,
        Err((refusal, pass)) => return (pass, Served::Refused(refusal)),
    };
    let mut desk = Desk::new(alloc, site, hosts);
    let (end, counts) = server.serve(&mut desk, machine, signal);
    (desk.finish().finish(), Served::Ended(end, counts))
}
