//! The address of a member.
//!
//! Defined in: `specs/Meaning/Addr.antt`.
//! Tested in: `lg_command_tests/src/addresses.rt`.
ghost use Rattle.std.specs.Prelude.{◌≡◌};
ghost use Rattle.std.specs.Str.{bytes_eq};
ghost use Rattle.lg_rules.specs.Meaning.Addr.{ipv6_loopback, is_loopback};
ghost use Rattle.lg_rules.specs.declared.addr.Ip.TheVariants.{V4, V6};

use std::net::{IpAddr, Ipv4Addr, Ipv6Addr, SocketAddr};

/// The bytes of ::1, the loopback address of IPv6 (RFC 4291, section 2.5.3).
const IPV6_LOOPBACK: [u8; 16] = [0, 0, 0, 0, 0, 0, 0, 0, 0, 0, 0, 0, 0, 0, 0, 1];

/// The IP address of a host, of one of two families.
#[derive(Clone, Copy, Debug, PartialEq, Eq)]
pub enum Ip {
    /// The four bytes of an IPv4 address, in the order in which they are written.
    V4([u8; 4]),
    /// The sixteen bytes of an IPv6 address, the highest first.
    V6([u8; 16]),
}

/// Whether the bytes of an IPv6 address are those of ::1.
fn is_ipv6_loopback(octets: [u8; 16]) -> bool
    ensures { result ≡ bytes_eq octets ipv6_loopback }
{
    octets == IPV6_LOOPBACK
}

impl Ip {
    /// Whether no other machine reaches it: it is one of 127.0.0.0/8 (RFC 1122, section 3.2.1.3), or ::1 (RFC 4291,
    /// section 2.5.3).
    pub fn is_loopback(&self) -> bool
        ensures { result ≡ is_loopback self.now }
    {
        match self {
            Ip::V4(octets) => octets[0] == 127,
            Ip::V6(octets) => is_ipv6_loopback(*octets),
        }
    }
}

/// The IPv4 address 0.0.0.0.
impl Default for Ip {
    ghost use Rattle.std.specs.Prelude.{◌≡◌, [], ◌∷◌};
    ghost use Rattle.lg_rules.specs.declared.addr.Ip.TheVariants.{V4};

    ghost is_default = { λ ip. ip ≡ V4 (0 ∷ 0 ∷ 0 ∷ 0 ∷ []) };

    fn default() -> Self {
        Ip::V4([0; 4])
    }
}

/// Where a member is reached: an IP address and a port.
#[derive(Clone, Copy, Debug, Default, PartialEq, Eq)]
pub struct Addr {
    /// The IP address.
    pub ip: Ip,
    /// The port.
    pub port: u16,
}

impl Addr {
    /// An IPv4 address with a port. The four bytes are in the order in which they are written.
    pub fn v4(octets: [u8; 4], port: u16) -> Addr
        ensures { result ≡ record { ip = V4 octets; port = port } }
    {
        Addr {
            ip: Ip::V4(octets),
            port,
        }
    }

    /// An IPv6 address with a port. The sixteen bytes are in the order of the network, the highest first.
    pub fn v6(octets: [u8; 16], port: u16) -> Addr
        ensures { result ≡ record { ip = V6 octets; port = port } }
    {
        Addr {
            ip: Ip::V6(octets),
            port,
        }
    }
}

/// The address as the standard library has it. One of IPv6 has no flow information and no scope.
impl From<Addr> for SocketAddr {
    ghost use Rattle.lg_rules.specs.Meaning.Addr.{IsSocketOf};

    ghost from_gives = { λ addr socket. IsSocketOf addr socket };

    fn from(addr: Addr) -> SocketAddr {
        let ip = match addr.ip {
            Ip::V4(octets) => IpAddr::V4(Ipv4Addr::from_octets(octets)),
            Ip::V6(octets) => IpAddr::V6(Ipv6Addr::from_octets(octets)),
        };
        SocketAddr::new(ip, addr.port)
    }
}
