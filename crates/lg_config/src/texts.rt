//! Reads the texts of a file: names, addresses, ports, hosts and seeds.
//!
//! Defined in: `specs/Meaning/Texts.antt`, `lg_text/specs/Meaning/Cutting.antt`, `IpReading.antt`, `Names.antt`,
//! `Numbers.antt`, `Octets.antt`.
//! Tested in: `cases/config_forms.case`, `cases/config_seeds.case`.
ghost use Rattle.std.specs.Prelude.{◌≡◌};
ghost use Rattle.std.specs.Option.{option_map};
ghost use Rattle.lg_text.specs.Meaning.IpReading.{ipv6_of};
ghost use Rattle.lg_config.specs.Meaning.Texts.{address_of, address_with_port, ipv4_place, ipv4_with_port, ipv6_place};
ghost use Rattle.lg_config.specs.Meaning.Texts.{ipv6_with_port, named_seed, nameless_seed, port_or, rest_behind};
ghost use Rattle.lg_config.specs.Meaning.Texts.{host_with_its_port, host_with_port, place_of, place_with_port};
ghost use Rattle.lg_config.specs.Meaning.Texts.{seed_of_text};

use crate::host::{Host, HostName, Place};
use crate::seeds::SeedPlace;
use crate::settings::DEFAULT_PORT;
use lg_rules::Addr;
pub(crate) use lg_text::{ip_in, name_in, port_among};
use lg_text::{cut_at, octets_in, port_in};
use std::net::Ipv6Addr;

/// The sixteen bytes of the IPv6 address that a text spells, without brackets and without a zone.
fn ipv6_in(text: &[u8]) -> Option<[u8; 16]>
    ensures { result ≡ ipv6_of text.now }
{
    match Ipv6Addr::parse_ascii(text) {
        Ok(ip) => Some(ip.octets()),
        Err(_) => None,
    }
}

/// What stands behind a byte with which a text begins. None if the text doesn't begin with it.
fn rest_behind(text: &[u8], byte: u8) -> Option<&[u8]>
    ensures { option_map (λ rest. rest.now) result ≡ rest_behind byte text.now }
{
    match text {
        [] => None,
        [first, rest @ ..] => { if *first == byte { Some(rest) } else { None } }
    }
}

/// The IPv4 address with its port that a text spells: A.B.C.D:PORT.
fn ipv4_place(text: &[u8]) -> Option<Addr>
    ensures { result ≡ ipv4_place text.now }
{
    let (octets, port) = cut_at(text, b':');
    let octets = octets_in(octets)?;
    let port = port_in(port?)?;
    Some(Addr::v4(octets, port))
}

/// The IPv6 address with its port that a text spells: the address in brackets before :PORT.
fn ipv6_place(text: &[u8]) -> Option<Addr>
    ensures { result ≡ ipv6_place text.now }
{
    let inner = rest_behind(text, b'[')?;
    let (octets, outer) = cut_at(inner, b']');
    let octets = ipv6_in(octets)?;
    let port = rest_behind(outer?, b':')?;
    let port = port_in(port)?;
    Some(Addr::v6(octets, port))
}

/// The IPv6 address that a text spells without brackets, with this port.
fn ipv6_with_port(text: &[u8], port: u16) -> Option<Addr>
    ensures { result ≡ ipv6_with_port port text.now }
{
    let octets = ipv6_in(text)?;
    Some(Addr::v6(octets, port))
}

/// The address with its port that a text spells: A.B.C.D:PORT, or an IPv6 address in brackets before :PORT.
#[tactic(auto, unfolding(crate::specs::Meaning::Texts::address_of))]
pub(crate) fn address_in(text: &[u8]) -> Option<Addr>
    ensures { result ≡ address_of text.now }
{
    match ipv4_place(text) {
        Some(addr) => Some(addr),
        None => ipv6_place(text),
    }
}

/// The port that stands behind an address, or this one if none does.
fn port_or(text: Option<&[u8]>, usual: u16) -> Option<u16>
    ensures { result ≡ port_or usual (option_map (λ bytes. bytes.now) text.entry) }
{
    match text {
        Some(text) => port_in(text),
        None => Some(usual),
    }
}

/// The IPv4 address with its port that a text spells: A.B.C.D:PORT, or A.B.C.D, which has this port.
fn ipv4_with_port(text: &[u8], usual: u16) -> Option<Addr>
    ensures { result ≡ ipv4_with_port usual text.now }
{
    let (octets, port) = cut_at(text, b':');
    let octets = octets_in(octets)?;
    let port = port_or(port, usual)?;
    Some(Addr::v4(octets, port))
}

/// The address with its port that a text spells, as [`address_in`] reads it, or an address alone, which has this port.
#[tactic(auto, unfolding(crate::specs::Meaning::Texts::address_with_port))]
pub(crate) fn address_with_port(text: &[u8], usual: u16) -> Option<Addr>
    ensures { result ≡ address_with_port usual text.now }
{
    if let Some(addr) = ipv4_with_port(text, usual) {
        return Some(addr);
    }
    match ipv6_place(text) {
        Some(addr) => Some(addr),
        None => ipv6_with_port(text, usual),
    }
}

/// The host with its port that a text spells: HOST:PORT.
fn host_with_its_port(text: &[u8]) -> Option<Host>
    ensures { result ≡ host_with_its_port text.now }
{
    let (name, port) = cut_at(text, b':');
    let name = HostName::of(name)?;
    let port = port_in(port?)?;
    Some(Host { name, port })
}

/// The host with its port that a text spells: HOST:PORT, or HOST, which has this port.
fn host_with_port(text: &[u8], usual: u16) -> Option<Host>
    ensures { result ≡ host_with_port usual text.now }
{
    let (name, port) = cut_at(text, b':');
    let name = HostName::of(name)?;
    let port = port_or(port, usual)?;
    Some(Host { name, port })
}

/// The place with its port that a text spells: an address, or else a host.
#[tactic(auto, unfolding(crate::specs::Meaning::Texts::place_of))]
fn place_in(text: &[u8]) -> Option<Place>
    ensures { result ≡ place_of text.now }
{
    if let Some(addr) = address_in(text) {
        return Some(Place::Addr(addr));
    }
    match host_with_its_port(text) {
        Some(host) => Some(Place::Host(host)),
        None => None,
    }
}

/// The place that a text spells: an address, or else a host, with its port, or alone, and then it has this port.
#[tactic(auto, unfolding(crate::specs::Meaning::Texts::place_with_port))]
fn place_with_port(text: &[u8], usual: u16) -> Option<Place>
    ensures { result ≡ place_with_port usual text.now }
{
    if let Some(addr) = address_with_port(text, usual) {
        return Some(Place::Addr(addr));
    }
    match host_with_port(text, usual) {
        Some(host) => Some(Place::Host(host)),
        None => None,
    }
}

/// The seed with a name and a place with its port that two texts spell.
fn named_seed(name: &[u8], place: &[u8]) -> Option<SeedPlace>
    ensures { result ≡ named_seed name.now place.now }
{
    let name = name_in(name)?;
    let place = place_in(place)?;
    Some(SeedPlace {
        name: Some(name),
        place,
    })
}

/// The seed without a name that a text spells: a place with its port, or alone, and then it has the default port.
fn nameless_seed(text: &[u8]) -> Option<SeedPlace>
    ensures { result ≡ nameless_seed text.now }
{
    let place = place_with_port(text, DEFAULT_PORT)?;
    Some(SeedPlace { name: None, place })
}

/// The seed that a text spells. It has a name if it has an `@`.
#[tactic(auto, unfolding(crate::specs::Meaning::Texts::seed_of_text))]
pub(crate) fn seed_in(text: &[u8]) -> Option<SeedPlace>
    ensures { result ≡ seed_of_text text.now }
{
    let (name, place) = cut_at(text, b'@');
    match place {
        Some(place) => named_seed(name, place),
        None => nameless_seed(text),
    }
}
