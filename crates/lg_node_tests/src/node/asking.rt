//! A node over UDP asks its seeds before its loops run. The ticking loop ends at once. The ports are free ones that the
//! system gives, so two runs on one machine don't meet.
use arrayvec::ArrayVec;
use lg_agent::{CloseFault, Closed};
use lg_detector::Event;
use lg_loops::NodeLoops;
use lg_node::{LoopEnd, NodeStart, ResolvedSeeds, Settings, Unrecorded, Why, run_node};
use lg_rules::Addr;
use lg_testing::{Room, at, letter, local};
use lg_timing::{Config, Seed};
use std::alloc::Global;
use std::fs::Files;
use std::io;
use std::net::{Ipv4Addr, Net, UdpSocket};
use std::random::RandomSource;
use std::rt::Clock;
use std::sync::Wait;
use std::sync::atomic::AtomicBool;
use std::test::Fail;
use std::thread::Threads;
use std::time::Duration;

/// The port to which nothing can be sent. If a socket is bound to it, the system gives a free one.
const NO_PORT: u16 = 0;

/// The Pull of b at 127.0.0.1 for the first records, up to b's port. The port follows, and then the incarnation 0.
const PULL_OF_B: &[u8; 15] = b"SL\x01\x05\x01b\x00\x01\x01\x01b\x7f\x00\x00\x01";

/// Whether these bytes are the Pull of b at this port.
fn is_pull_of_b(bytes: &[u8], port: u16) -> bool {
    let [high, low] = port.to_be_bytes();
    bytes.strip_prefix(&PULL_OF_B[..]) == Some(&[high, low, 0, 0, 0, 0][..])
}

/// The configuration of b at a port, which knows c and d at these ports.
fn config(own: u16, first: u16, second: u16) -> Config {
    let mut config = Config::new(letter(b'b'), local(own));
    for (name, port) in [(b'c', first), (b'd', second)] {
        if !config.seeds.is_full() {
            config.seeds.push(Seed {
                name: letter(name),
                addr: local(port),
            });
        }
    }
    config
}

/// A socket at a free port, which waits a second for a datagram.
fn bound<R: Net>(rt: &R) -> io::Result<UdpSocket> {
    let socket = UdpSocket::bind(rt, (Ipv4Addr::from_octets([127, 0, 0, 1]), NO_PORT))?;
    socket.set_read_timeout(Some(Duration::from_millis(1000)))?;
    Ok(socket)
}

/// A socket of a seed.
#[derive(Drop)]
struct Listener {
    socket: UdpSocket,
    port: u16,
}

impl Listener {
    /// One at a free port.
    fn new<R: Net>(rt: &R) -> io::Result<Listener> {
        let socket = bound(rt)?;
        match socket.local_addr() {
            Ok(addr) => Ok(Listener {
                socket,
                port: addr.port(),
            }),
            Err(fault) => Err(fault),
        }
    }

    /// Its port, or one to which nothing can be sent.
    fn port_if(&self, is_asked: bool) -> u16 {
        if is_asked { self.port } else { NO_PORT }
    }

    /// Whether the Pull of b at this port has come.
    fn has_heard(&self, port: u16) -> bool {
        let mut buffer = [0; 64];
        match self.socket.recv_from(&mut buffer) {
            Ok((length, _)) => buffer
                .get(..length)
                .is_some_and(|bytes| is_pull_of_b(bytes, port)),
            Err(_) => false,
        }
    }
}

/// A port that is free: that of a socket which is closed again.
pub(super) fn free_port<R: Net>(rt: &R) -> io::Result<u16> {
    let Listener { socket: _, port } = Listener::new(rt)?;
    Ok(port)
}

/// Whom the entries after the opening asked, in order, if there are two.
fn asked(closed: &Result<Closed, CloseFault>) -> Option<(Addr, Addr)> {
    let Ok(closed) = closed else {
        return None;
    };
    let [_opening, first, second] = closed.history() else {
        return None;
    };
    match (first.event(), second.event()) {
        (Event::Pull { peer: first, .. }, Event::Pull { peer: second, .. }) => {
            Some((first, second))
        }
        _ => None,
    }
}

/// How the ticking loop of a node ended, and whom the node asked, in order.
fn ran<R>(rt: &R, alloc: Global, config: &Config) -> Option<(LoopEnd, Option<(Addr, Addr)>)>
where
    R: Threads + Wait + Net + Files + Clock + RandomSource + AllocGlobal + Clone + Sync + Drop,
    R::File: Send,
    R::Dir: Send,
{
    config.check().ok()?;
    let mut asks = ArrayVec::new();
    asks.extend(config.seeds.iter().map(|seed| seed.addr)).ok()?;
    let settings = Settings {
        bind: config.addr,
        seeds: asks,
        learns: false,
        resolve_ms: 60_000,
        shown_seeds: ArrayVec::new(),
        dice: 1,
        pull_ms: 0,
        stall_ms: 0,
        follow: false,
        status: None,
        status_open: false,
        leave: true,
        record_folder: None,
        keys: None,
    };
    let stop = AtomicBool::new(false);
    let resolved = ResolvedSeeds::new();
    let (mut unread, mut faults) = (Room::failing(0), Room::failing(0));
    let start = NodeStart {
        loops: NodeLoops,
        config,
        settings: &settings,
        until: at(0),
        stop: &stop,
        resolved: &resolved,
    };
    let ran = run_node(
        rt,
        alloc,
        &start,
        None::<Unrecorded>,
        &mut unread,
        &mut faults,
    )
    .ok()?;
    Some((ran.ticked, asked(&ran.closed)))
}

/// A ticking loop that ended at once. This many packets weren't sent.
fn ended(unsent: u64) -> LoopEnd {
    LoopEnd {
        why: Why::Stopped,
        dropped: 0,
        unsent,
        turns: 0,
    }
}

/// The sockets of both seeds, and the port of b.
#[derive(Drop)]
struct Group {
    one: Listener,
    two: Listener,
    own: u16,
}

impl Group {
    /// A group at free ports.
    fn new<R: Net>(rt: &R) -> io::Result<Group> {
        let one = Listener::new(rt)?;
        let two = Listener::new(rt)?;
        let own = free_port(rt)?;
        Ok(Group { one, two, own })
    }

    /// Whether the Pull of b has come to each seed to which it can be sent.
    fn has_heard(&self, first: bool, second: bool) -> bool {
        (!first || self.one.has_heard(self.own)) && (!second || self.two.has_heard(self.own))
    }

    /// Whether b asks both seeds in order, if something can be sent to the first and to the second or not.
    fn is_asked<R>(&self, rt: &R, alloc: Global, first: bool, second: bool, unsent: u64) -> bool
    where
        R: Threads + Wait + Net + Files + Clock + RandomSource + AllocGlobal + Clone + Sync + Drop,
        R::File: Send,
        R::Dir: Send,
    {
        let (one, two) = (self.one.port_if(first), self.two.port_if(second));
        let seen = ran(rt, alloc, &config(self.own, one, two));
        let want = Some((ended(unsent), Some((local(one), local(two)))));
        seen == want && self.has_heard(first, second)
    }
}

/// To which seeds something can be sent, and how many packets aren't sent.
const ROWS: &[(bool, bool, u64)] = &[(true, true, 0), (false, true, 1), (true, false, 1)];

/// Both seeds are asked, in order, even if a packet isn't sent. The ticking loop counts that packet.
#[test]
fn each_seed_is_asked(rt: HostRuntime) -> Result<(), Fail> {
    let group = Group::new(&rt)?;
    for &(first, second, unsent) in ROWS {
        let met = group.is_asked(&rt, rt.alloc(), first, second, unsent);
        assert!(rt; met, "{first}, {second}");
    }
    Ok(())
}
