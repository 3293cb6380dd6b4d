//! Finds the address of a node that its configuration leaves to be found: `address` is `auto`.
//!
//! Defined in: `specs/Meaning/OwnAddress.antt`, `lg_config/specs/Meaning/Finding.antt`.
//! Tested in: `lg_command_tests/src/launch/finding.rt`, `cases/nodes`.
ghost use Rattle.std.specs.Prelude.{◌≡◌, ◌⊎◌, IfErr, IfOk};
ghost use Rattle.lg_timing.specs.Meaning.Config.{IsChecked};
ghost use Rattle.lg_text.specs.Meaning.Reporting.{Reports};
ghost use Rattle.lg_run.specs.Meaning.OwnAddress.{HasOwnAddress, LacksOwnAddress};
ghost use Rattle.lg_run.specs.Meaning.Words.{auto_line};

use crate::words::auto_line;
use arrayvec::ArrayVec;
use lg_config::{FileFault, NodeConfig, Place};
use lg_resolve::{Families, MAX_OF_HOST, NetResolver, Resolver};
use lg_rules::{Addr, Ip, Version};
use lg_text::{FaultStream, report};
use std::alloc::Global;
use std::net::{IpAddr, Ipv4Addr, Ipv6Addr, Net, SocketAddr, UdpSocket};

/// Why a node has no address of its own.
#[derive(Clone, Copy, Debug, PartialEq, Eq)]
pub enum NoAddress {
    /// No seed resolves to an address towards which this machine has one.
    Unfound,
    /// The configuration doesn't go with the address that was found.
    Fault(FileFault),
}

/// The IP address from which this machine reaches a peer, or none if it doesn't. No packet is sent for this.
fn ip_towards<R: Net>(rt: &R, peer: Addr) -> Option<Ip> {
    let any = match peer.ip {
        Ip::V4(_) => IpAddr::V4(Ipv4Addr::UNSPECIFIED),
        Ip::V6(_) => IpAddr::V6(Ipv6Addr::UNSPECIFIED),
    };
    let socket = UdpSocket::bind(rt, SocketAddr::new(any, 0)).ok()?;
    socket.connect(SocketAddr::from(peer)).ok()?;
    match socket.local_addr().ok()?.ip() {
        IpAddr::V4(ip) => Some(Ip::V4(ip.octets())),
        IpAddr::V6(ip) => Some(Ip::V6(ip.octets())),
    }
}

/// The addresses of a seed: its own, or those that its host has.
fn addrs_of<S: Resolver>(resolver: &mut S, place: &Place) -> ArrayVec<Addr, MAX_OF_HOST> {
    let mut addrs = ArrayVec::new();
    match place {
        Place::Addr(addr) => addrs.push(*addr),
        Place::Host(host) => return resolver.resolve(host).unwrap_or(addrs),
    }
    addrs
}

/// The IP address from which this machine reaches the first of these addresses that it reaches.
fn ip_towards_first<R: Net>(rt: &R, peers: &[Addr]) -> Option<Ip> {
    for peer in peers {
        let ip = ip_towards(rt, *peer);
        if ip.is_some() {
            return ip;
        }
    }
    None
}

/// The IP address from which this machine reaches a seed, the first one that resolves and is reached. It waits for the
/// machine's resolver if seeds are hosts. No contract says what a machine's addresses are.
fn own_ip<R: Net>(rt: &R, node: &NodeConfig) -> Option<Ip> {
    let families = match node.config.version() {
        Version::Three => Families::Both,
        Version::One | Version::Two => Families::Ipv4,
    };
    let mut resolver = NetResolver::new(rt, families);
    for seed in node.seeds.as_slice() {
        let addrs = addrs_of(&mut resolver, &seed.place);
        let ip = ip_towards_first(rt, addrs.as_slice());
        if ip.is_some() {
            return ip;
        }
    }
    None
}

/// Tells which address was found. A line for which memory is refused is dropped.
fn tell_found<F: FaultStream>(alloc: Global, addr: Addr, faults: &mut F)
    ensures { (faults.new ≡ faults.old) ⊎ Reports (F.reported faults.old) (F.reported faults.new) (auto_line addr) }
{
    if let Ok(line) = auto_line(alloc, addr) {
        report(faults, line.as_str());
    }
}

/// A configuration with the address of its own that was found, if it is to be found, and else as it is. An address that
/// was found is told on `faults`. Memory is allocated for that line alone.
///
/// The error is that no address was found, or that the configuration doesn't go with it. Nothing is told of it yet.
pub(crate) fn with_own_address<R: Net, F: FaultStream>(
    rt: &R,
    alloc: Global,
    node: NodeConfig,
    faults: &mut F,
) -> Result<NodeConfig, NoAddress>
    requires { IsChecked node.config }
    ensures found { IfOk result (HasOwnAddress node (F.reported faults.old) (F.reported faults.new)) }
    ensures checked { IfOk result (λ found. IsChecked found.config) }
    ensures lacking { IfErr result (λ fault. (faults.new ≡ faults.old) × LacksOwnAddress node fault) }
{
    if !node.auto {
        return Ok(node);
    }
    let Some(ip) = own_ip(rt, &node) else {
        drop(node);
        return Err(NoAddress::Unfound);
    };
    match node.with_ip(ip) {
        Ok(node) => {
            tell_found(alloc, node.config.addr, faults);
            Ok(node)
        }
        Err(fault) => Err(NoAddress::Fault(fault)),
    }
}
