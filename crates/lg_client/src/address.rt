//! Reads the address of a node.
//!
//! Defined in: `specs/Meaning/Addresses.antt`, `lg_text/specs/Meaning/Cutting.antt`, `IpReading.antt`, `Numbers.antt`,
//! `Octets.antt`.
//! Tested in: `cases/ask.case`, `lg_client_tests/src/addresses.rt`.
ghost use Rattle.std.specs.Prelude.{◌≡◌};
ghost use Rattle.std.specs.Option.{option_map};
ghost use Rattle.lg_text.specs.Meaning.IpReading.{ipv6_of};
ghost use Rattle.lg_client.specs.Meaning.Addresses.{IsNodeAddress, behind_first, ipv4_node, ipv6_node, node_addr_of};

use crate::fault::AskFault;
use lg_rules::Addr;
use lg_text::{cut_at, octets_in, port_in};
use std::net::Ipv6Addr;

/// The sixteen bytes of the IPv6 address that a text spells, without brackets and without a zone.
fn ipv6_in(text: &[u8]) -> Option<[u8; 16]>
    ensures { result ≡ ipv6_of text.now }
{
    match Ipv6Addr::parse_ascii(text) {
        Ok(ip) => Some(ip.octets()),
        Err(_) => None,
    }
}

/// What stands behind a byte, if a text begins with it.
fn behind_first(text: &[u8], byte: u8) -> Option<&[u8]>
    ensures { option_map (λ rest. rest.now) result ≡ behind_first byte text.now }
{
    match text {
        [] => None,
        [first, rest @ ..] => { if *first == byte { Some(rest) } else { None } }
    }
}

/// The IPv4 address with its port that a text spells: A.B.C.D:PORT.
fn ipv4_node(text: &[u8]) -> Option<Addr>
    ensures { result ≡ ipv4_node text.now }
{
    let (octets, port) = cut_at(text, b':');
    let octets = octets_in(octets)?;
    let port = port_in(port?)?;
    Some(Addr::v4(octets, port))
}

/// The IPv6 address with its port that a text spells: the address in brackets before :PORT.
fn ipv6_node(text: &[u8]) -> Option<Addr>
    ensures { result ≡ ipv6_node text.now }
{
    let inner = behind_first(text, b'[')?;
    let (octets, outer) = cut_at(inner, b']');
    let octets = ipv6_in(octets)?;
    let port = behind_first(outer?, b':')?;
    let port = port_in(port)?;
    Some(Addr::v6(octets, port))
}

/// The address with its port that a text spells: A.B.C.D:PORT, or an IPv6 address in brackets before :PORT.
#[tactic(auto, unfolding(crate::specs::Meaning::Addresses::node_addr_of))]
fn node_addr(text: &[u8]) -> Option<Addr>
    ensures { result ≡ node_addr_of text.now }
{
    match ipv4_node(text) {
        Some(addr) => Some(addr),
        None => ipv6_node(text),
    }
}

/// The address of a node that a text spells. The only fault is [`AskFault::Address`]. Allocates no memory.
pub(crate) fn address_in(text: &str) -> Result<Addr, AskFault>
    ensures { IsNodeAddress text.now result }
{
    match node_addr(text.as_bytes()) {
        Some(addr) => Ok(addr),
        None => Err(AskFault::Address),
    }
}
