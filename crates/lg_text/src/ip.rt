//! Reads an IP address.
//!
//! Defined in: `specs/Meaning/IpReading.antt`, `specs/Meaning/Octets.antt`.
//! Tested in: `lg_command_tests/src/addresses.rt`, `lg_client_tests/src/asking.rt`.
ghost use Rattle.std.specs.Prelude.{◌≡◌};
ghost use Rattle.lg_text.specs.Meaning.IpReading.{IsIpv6Read, ip_of, ipv6_of};

use crate::octets::octets_in;
use lg_rules::Ip;
use std::net::Ipv6Addr;

/// The sixteen bytes of the IPv6 address that a text spells.
fn ipv6_in(text: &str) -> Option<[u8; 16]>
    ensures is { result ≡ ipv6_of text.now }
    ensures spelled { IsIpv6Read text.now result }
{
    match text.parse::<Ipv6Addr>() {
        Ok(ip) => Some(ip.octets()),
        Err(_) => None,
    }
}

/// The IP address that a text spells: `A.B.C.D`, as [`octets_in`](crate::octets_in) reads it, or an IPv6 address in one
/// of the forms of RFC 4291, section 2.2, without brackets and without a zone. Allocates no memory.
pub fn ip_in(text: &str) -> Option<Ip>
    ensures { result ≡ ip_of text.now }
{
    if let Some(octets) = octets_in(text.as_bytes()) {
        return Some(Ip::V4(octets));
    }
    match ipv6_in(text) {
        Some(octets) => Some(Ip::V6(octets)),
        None => None,
    }
}
