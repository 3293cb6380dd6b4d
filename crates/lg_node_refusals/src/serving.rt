//! A node with a status server, whose loops end at once.
use arrayvec::ArrayVec;
use lg_loops::NodeLoops;
use lg_node::{NodeStart, ResolvedSeeds, Served, Settings, Unrecorded, run_node};
use lg_testing::{Room, at, letter, local};
use lg_timing::Config;
use std::alloc::Global;
use std::fs::Files;
use std::io;
use std::net::{Ipv4Addr, Net, UdpSocket};
use std::random::RandomSource;
use std::rt::Clock;
use std::sync::Wait;
use std::sync::atomic::AtomicBool;
use std::test::Fail;
use std::thread::Threads;

/// What is told of a status server whose first look was refused.
const NOT_BEGUN: &[u8; 52] = b"the status server couldn't begin: memory is refused\n";

/// The port for which the system gives a free one.
const ANY_PORT: u16 = 0;

/// A port that is free: that of a socket which is closed again.
fn free_port<R: Net>(rt: &R) -> io::Result<u16> {
    let socket = UdpSocket::bind(rt, (Ipv4Addr::LOCALHOST, ANY_PORT))?;
    let address = socket.local_addr()?;
    Ok(address.port())
}

/// Runs b at a port, and tells its faults on a stream. Gives the end of its status server, if the node had loops.
fn run_at<R>(rt: &R, alloc: Global, port: u16, faults: &mut Room) -> Option<Served>
where
    R: Threads + Wait + Net + Files + Clock + RandomSource + AllocGlobal + Clone + Sync + Drop,
    R::File: Send,
    R::Dir: Send,
{
    let config = Config::new(letter(b'b'), local(port));
    config.check().ok()?;
    let settings = Settings {
        bind: config.addr,
        seeds: ArrayVec::new(),
        learns: false,
        resolve_ms: 60_000,
        shown_seeds: ArrayVec::new(),
        dice: 1,
        pull_ms: 0,
        stall_ms: 0,
        follow: false,
        status: Some(local(ANY_PORT)),
        status_open: false,
        leave: true,
        record_folder: None,
        keys: None,
    };
    let stop = AtomicBool::new(false);
    let resolved = ResolvedSeeds::new();
    let mut unread = Room::failing(0);
    let start = NodeStart {
        loops: NodeLoops,
        config: &config,
        settings: &settings,
        until: at(0),
        stop: &stop,
        resolved: &resolved,
    };
    let ran = run_node(rt, alloc, &start, None::<Unrecorded>, &mut unread, faults);
    ran.ok()?.served
}

/// What should be told of a status server that ended so.
fn wanted(served: Option<Served>) -> &'static [u8] {
    match served {
        Some(Served::Refused(_)) => NOT_BEGUN,
        _ => b"",
    }
}

/// A status server that can't begin, since memory for its first look is refused, is told on the stream of faults. One
/// that is told to stop is not.
#[test]
fn tells_of_refused_memory(rt: HostRuntime) -> Result<(), Fail> {
    let port = free_port(&rt)?;
    let mut faults = Room::failing(0);
    let served = run_at(&rt, rt.alloc(), port, &mut faults);
    assert!(rt; faults.has(wanted(served)), "{served:?}");
    Ok(())
}
