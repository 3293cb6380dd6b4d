//! The thread that resolves the hosts among the seeds of a node.
//!
//! Defined in: `specs/Meaning/Rounds.antt`.
//! Tested in: `cases/nodes`.
use crate::resolver::{Families, NetResolver};
use crate::seed_hosts::{FIRST_RETRY_MS, SeedHosts, next_wait};
use arrayvec::ArrayVec;
use lg_config::Host;
use lg_rules::Addr;
use lg_text::FaultStream;
use lg_timing::MAX_SEEDS;
use lg_turns::{MAX_FOUND, ResolvedSeeds};
use std::alloc::{AllocError, Global};
use std::net::{Net, TcpListener, TcpStream};
use std::rt::Clock;
use std::sync::{Arc, Wait};
use std::thread;
use std::thread::Threads;
use std::time::Duration;

/// How the hosts among the seeds of a node are resolved.
#[derive(Clone, Copy, Debug)]
pub struct Resolving {
    /// How long it is from one round to the next, in milliseconds.
    pub every_ms: u64,
    /// The families of addresses that the node's socket reaches.
    pub families: Families,
}

/// Starts a thread that resolves these hosts at once and then again and again, and tells the addresses whenever they
/// have changed. A round in which a host didn't resolve is followed by the next after [`FIRST_RETRY_MS`], and by each
/// further one after twice as long as before, until that is `how.every_ms` (this project's choice). What is told of
/// hosts goes to `faults`.
///
/// The thread isn't joined, since a resolver may hang. It is cut off when the program ends. The error is that memory or
/// a thread was refused; nothing is resolved then.
pub fn start_resolving<M, F>(
    rt: &M,
    hosts: &ArrayVec<Host, MAX_SEEDS>,
    how: Resolving,
    resolved: Arc<ResolvedSeeds, Global>,
    faults: F,
) -> Result<(), AllocError>
where
    M: AllocGlobal + Threads + Wait + Clock + Copy + Send + 'static,
    M: Net<Listener = TcpListener, Stream = TcpStream>,
    F: FaultStream + Send + Drop + 'static,
{
    let (handle, mut faults) = (*rt, faults);
    let seeds = SeedHosts::new(hosts);
    thread::spawn(rt, move || {
        resolve_on(&handle, seeds, how, &resolved, &mut faults)
    })?;
    Ok(())
}

/// Resolves hosts for as long as the program runs.
fn resolve_on<M, F>(
    rt: &M,
    seeds: SeedHosts,
    how: Resolving,
    resolved: &ResolvedSeeds,
    faults: &mut F,
)
where
    M: AllocGlobal + Wait + Net + Clock,
    F: FaultStream,
{
    let mut seeds = seeds;
    let mut resolver = NetResolver::new(rt, how.families);
    let mut told: ArrayVec<Addr, MAX_FOUND> = ArrayVec::new();
    let mut retry_ms = FIRST_RETRY_MS;
    for _ in rt.forever() {
        seeds.resolve(rt.alloc(), &mut resolver, faults);
        let found = seeds.found();
        if found.as_slice() != told.as_slice() {
            resolved.tell(rt, &found);
            told = found;
        }
        let fails = seeds.fails();
        thread::sleep(
            rt,
            Duration::from_millis(next_wait(fails, retry_ms, how.every_ms)),
        );
        retry_ms = if fails {
            retry_ms.saturating_mul(2)
        } else {
            FIRST_RETRY_MS
        };
    }
}
