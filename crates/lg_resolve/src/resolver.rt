//! A resolver: it answers which addresses a host has.
//!
//! Defined in: `specs/Meaning/Answers.antt`.
//! Tested in: `lg_command_tests/src/resolving.rt`, `cases/nodes`.
use arrayvec::ArrayVec;
use lg_config::Host;
use lg_rules::{Addr, Ip};
use std::net::{IpAddr, Net, SocketAddr, ToSocketAddrs};

/// The most addresses of one host that are asked: 32, which is what the toolchain's resolver gives.
pub const MAX_OF_HOST: usize = 32;

/// Answers which addresses hosts have.
pub trait Resolver {
    ghost use Rattle.std.specs.Prelude.{◌≡◌, Bool, true, List, [], ◌∷◌, ◌++◌};
    ghost use Rattle.lg_resolve.specs.Meaning.Answers.{HostAnswer, answered};

    // Whether contracts can see what it answered.
    ghost tells: { Bool };

    // What it answered, if contracts can see that.
    ghost log: { Self → List HostAnswer };

    /// The addresses that a host has, with its port. None if its name doesn't resolve, or has no address that can be
    /// asked. It may take as long as it takes.
    fn resolve(&mut self, host: &Host) -> Option<ArrayVec<Addr, MAX_OF_HOST>>
        ensures { tells ≡ true → log self.new ≡ log self.old ++ answered host.now result ∷ [] };
}

/// The families of addresses that a node's socket reaches.
#[derive(Clone, Copy, Debug, PartialEq, Eq)]
pub enum Families {
    /// IPv4 alone: the socket is bound at an IPv4 address.
    Ipv4,
    /// Both, as far as the system lets it: the socket is bound at an IPv6 address.
    Both,
}

impl Families {
    ghost use Rattle.std.specs.Prelude.{◌≡◌};
    ghost use Rattle.lg_resolve.specs.Meaning.Answers.{families_of, is_reached};

    /// Those that a socket reaches that is bound at this address.
    pub fn of(bound: Ip) -> Families
        ensures { result ≡ families_of bound }
    {
        match bound {
            Ip::V4(_) => Families::Ipv4,
            Ip::V6(_) => Families::Both,
        }
    }

    /// Whether an address is of one of them.
    pub fn reach(self, ip: Ip) -> bool
        ensures { result ≡ is_reached self ip }
    {
        match (self, ip) {
            (Families::Ipv4, Ip::V6(_)) => false,
            (Families::Ipv4 | Families::Both, _) => true,
        }
    }
}

/// The machine's resolver, as the C library's `getaddrinfo` asks it. Contracts see nothing of what it answers.
#[derive(Clone, Copy, Debug)]
pub struct NetResolver<'a, R> {
    rt: &'a R,
    families: Families,
}

impl<'a, R: Net> NetResolver<'a, R> {
    /// The resolver of this machine, for a node whose socket reaches these families.
    pub fn new(rt: &'a R, families: Families) -> NetResolver<'a, R> {
        NetResolver { rt, families }
    }
}

/// The address of a socket. An IPv6 address that maps one of IPv4 is taken as that (RFC 4291, section 2.5.5.2).
fn addr_of(socket: SocketAddr) -> Addr {
    match socket.ip().to_canonical() {
        IpAddr::V4(ip) => Addr::v4(ip.octets(), socket.port()),
        IpAddr::V6(ip) => Addr::v6(ip.octets(), socket.port()),
    }
}

impl<'a, R: Net> Resolver for NetResolver<'a, R> {
    ghost use Rattle.std.specs.Prelude.{false, []};

    ghost tells = { false };

    ghost log = { λ r. [] };

    fn resolve(&mut self, host: &Host) -> Option<ArrayVec<Addr, MAX_OF_HOST>> {
        let found = (host.name.as_str(), host.port)
            .to_socket_addrs(self.rt)
            .ok()?;
        let mut addrs = ArrayVec::new();
        for socket in found {
            let addr = addr_of(socket);
            if self.families.reach(addr.ip) && !addrs.is_full() {
                addrs.push(addr);
            }
        }
        if addrs.is_empty() { None } else { Some(addrs) }
    }
}
