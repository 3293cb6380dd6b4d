//! A link over a UDP socket.
//!
//! Defined in: `specs/Meaning/Turns.antt`, `specs/Meaning/Families.antt`.
//! Tested in: `lg_node_tests/src/node/asking.rt`, `cases/nodes`.
ghost use Rattle.std.specs.Prelude.{◌≡◌, ◌+◌, MatchBool};
ghost use Rattle.std.specs.Net.Socket.{socket_port};
ghost use Rattle.lg_turns.specs.Meaning.Families.{is_ipv6, CameFrom, GoesTo};

use crate::link::{Link, LinkFault, MAX_DATAGRAM};
use lg_rules::{Addr, Ip};
use std::io;
use std::io::ErrorKind;
use std::net::{IpAddr, SocketAddr, UdpSocket};
use std::time::Duration;

/// A link over a socket that others may use too. Contracts see how often it failed, and nothing of the bytes.
///
/// A socket that is bound at an IPv6 address has IPv4 addresses as the IPv6 addresses that map them (RFC 4291, section
/// 2.5.5.2). So one that is bound at `::` reaches members of both families, if the system lets it (RFC 3493, section
/// 5.3). The link has each address in its own family.
///
/// The failures are counted up to 2^64 - 1, and later ones aren't reported.
#[derive(Drop)]
pub struct UdpLink<'a> {
    socket: &'a UdpSocket,
    /// Whether the socket is bound at an IPv6 address.
    is_ipv6: bool,
    /// How long the socket waits, in milliseconds; 0 if that isn't known.
    limit_ms: u64,
    failures: u64,
}

impl<'a> UdpLink<'a> {
    /// A link over a socket that is bound at this address. It hasn't failed yet.
    pub fn new(socket: &'a UdpSocket, bound: Addr) -> UdpLink<'a>
        ensures family { result.is_ipv6 ≡ is_ipv6 bound.ip }
        ensures unfailed { result.failures ≡ 0 }
    {
        UdpLink {
            socket,
            is_ipv6: matches!(bound.ip, Ip::V6(_)),
            limit_ms: 0,
            failures: 0,
        }
    }

    /// Makes the socket wait this long, at least 1 ms. The system is called only if that changes.
    fn limit(&mut self, limit_ms: u64) -> io::Result<()>
        ensures { self.new.failures ≡ self.old.failures }
    {
        let limit_ms = limit_ms.max(1);
        if self.limit_ms != limit_ms {
            let limit = Duration::from_millis(limit_ms);
            self.socket.set_read_timeout(Some(limit))?;
            self.limit_ms = limit_ms;
        }
        Ok(())
    }

    /// Counts a failure, if a number is left for it. Returns whether it did.
    fn count(&mut self) -> bool
        ensures { MatchBool result (self.new.failures ≡ self.old.failures + 1)
            (self.new.failures ≡ self.old.failures) }
    {
        if self.failures == u64::MAX {
            return false;
        }
        self.failures += 1;
        true
    }
}

/// The address from which a datagram came, by what the socket says. An IPv6 address that maps one of IPv4 is taken as
/// that.
fn source_of(from: SocketAddr) -> Addr
    ensures ip { CameFrom from result.ip }
    ensures port { result.port ≡ socket_port from }
{
    match from.ip().to_canonical() {
        IpAddr::V4(ip) => Addr::v4(ip.octets(), from.port()),
        IpAddr::V6(ip) => Addr::v6(ip.octets(), from.port()),
    }
}

/// The address at which a socket reaches another. One that is bound at an IPv6 address reaches an IPv4 address at the
/// IPv6 address that maps it.
fn reached_at(to: Addr, is_ipv6: bool) -> SocketAddr
    ensures { GoesTo is_ipv6 to result }
{
    let plain = SocketAddr::from(to);
    match plain.ip() {
        IpAddr::V4(ip) if is_ipv6 => SocketAddr::new(IpAddr::V6(ip.to_ipv6_mapped()), to.port),
        _ => plain,
    }
}

/// Whether no datagram came in time, or a signal came.
fn is_nothing(kind: ErrorKind) -> bool {
    matches!(kind, ErrorKind::WouldBlock | ErrorKind::Interrupted)
}

impl<'a> Link for UdpLink<'a> {
    ghost use Rattle.std.specs.Prelude.{false, []};

    ghost tells = { false };

    ghost log = { λ l. [] };

    ghost failed = { λ l. l.failures };

    fn send(&mut self, to: Addr, bytes: &[u8]) -> Result<(), LinkFault> {
        let reached = reached_at(to, self.is_ipv6);
        if self.socket.send_to(bytes, reached).is_err() && self.count() {
            return Err(LinkFault);
        }
        Ok(())
    }

    /// A signal is taken as no datagram.
    fn receive(
        &mut self,
        buffer: &mut [u8; MAX_DATAGRAM],
        limit_ms: u64,
    ) -> Result<Option<(Addr, usize)>, LinkFault> {
        let received = match self.limit(limit_ms) {
            Ok(()) => self.socket.recv_from(buffer),
            Err(fault) => Err(fault),
        };
        match received {
            Ok((length, from)) => Ok(Some((source_of(from), length))),
            Err(fault) if is_nothing(fault.kind()) || !self.count() => Ok(None),
            Err(_) => Err(LinkFault),
        }
    }

    fn failures(&self) -> u64 {
        self.failures
    }
}
