//! Spells names, addresses, hosts, seeds, paths, groups, truth values and whether something is on.
//!
//! Defined in: `specs/Meaning/Spelling.antt`, `lg_text/specs/Meaning/Addresses.antt`.
//! Tested in: `cases/check.case`.
ghost use Rattle.std.specs.Prelude.{◌≡◌, ◌++◌, IfOk, OnOk, string_bytes};
ghost use Rattle.std.specs.List.{flat_map};
ghost use Rattle.lg_text.specs.Meaning.Addresses.{addr_text, ip_text};
ghost use Rattle.lg_check.specs.Meaning.Spelling.{host_text, named_spelled, next_seed, place_text, seed_spelled};
ghost use Rattle.lg_check.specs.Meaning.Spelling.{group_spelled, path_spelled, status_spelled, switch_spelled};
ghost use Rattle.lg_check.specs.Meaning.Spelling.{seeds_spelled, truth_spelled};

use lg_config::{FilePath, Host, Place, SeedPlace};
use lg_rules::{Addr, Ip, Name};
use lg_text::{put_addr, put_ip};
use std::alloc::{AllocError, Global};
use std::str;

/// The text of a name.
pub fn text_of_name(name: &Name) -> &str
    ensures { result.now ≡ name.now }
{
    match str::from_utf8(name.as_bytes()) {
        Ok(text) => text,
        Err(_) => "",
    }
}

/// The text of an IP address. Allocates the text; the only error is that memory was refused.
pub(crate) fn ip_text(alloc: Global, ip: &Ip) -> Result<String, AllocError>
    ensures { IfOk result (λ text. string_bytes text ≡ ip_text ip.now) }
{
    let mut text = String::new(alloc);
    put_ip(ip, &mut text)?;
    Ok(text)
}

/// The text of an address with its port: A.B.C.D:PORT, or for IPv6 the address in brackets before :PORT. Allocates the
/// text; the only error is that memory was refused.
pub fn addr_text(alloc: Global, addr: Addr) -> Result<String, AllocError>
    ensures { IfOk result (λ text. string_bytes text ≡ addr_text addr) }
{
    let mut text = String::new(alloc);
    put_addr(&addr, &mut text)?;
    Ok(text)
}

/// The text of a host with its port: HOST:PORT. Allocates the text; the only error is that memory was refused.
pub fn host_text(alloc: Global, host: &Host) -> Result<String, AllocError>
    ensures { IfOk result (λ text. string_bytes text ≡ host_text host.now) }
{
    let name = host.name.as_str();
    let port = host.port;
    format!(in alloc; "{name}:{port}")
}

/// The text of a place with its port: ADDRESS:PORT or HOST:PORT.
fn place_text(alloc: Global, place: &Place) -> Result<String, AllocError>
    ensures { IfOk result (λ text. string_bytes text ≡ place_text place.now) }
{
    match place {
        Place::Addr(addr) => addr_text(alloc, *addr),
        Place::Host(host) => host_text(alloc, host),
    }
}

/// The text NAME@PLACE of a seed that has this name.
fn named_spelled(alloc: Global, name: &Name, place: &Place) -> Result<String, AllocError>
    ensures { IfOk result (λ text. string_bytes text ≡ named_spelled name.now place.now) }
{
    let place = place_text(alloc, place)?;
    let name = text_of_name(name);
    format!(in alloc; "{name}@{place}")
}

/// The text of a seed: NAME@PLACE, or PLACE if it has no name. A place has its port.
fn seed_spelled(alloc: Global, seed: &SeedPlace) -> Result<String, AllocError>
    ensures { IfOk result (λ text. string_bytes text ≡ seed_spelled seed.now) }
{
    match &seed.name {
        Some(name) => named_spelled(alloc, name, &seed.place),
        None => place_text(alloc, &seed.place),
    }
}

/// Appends seeds to a text, each behind a comma.
fn put_seeds(alloc: Global, seeds: &[SeedPlace], text: &mut String) -> Result<(), AllocError>
    ensures { OnOk result (string_bytes text.new ≡ string_bytes text.old ++ flat_map next_seed seeds.now) }
{
    for seed in seeds {
        let spelled = seed_spelled(alloc, seed)?;
        write!(text, ", {spelled}")?;
    }
    Ok(())
}

/// The text of some seeds, with commas between them, or a word for none.
pub(crate) fn seeds_spelled(alloc: Global, seeds: &[SeedPlace]) -> Result<String, AllocError>
    ensures { IfOk result (λ text. string_bytes text ≡ seeds_spelled seeds.now) }
{
    match seeds {
        [] => String::from_str(alloc, "none"),
        [seed, others @ ..] => {
            let mut text = seed_spelled(alloc, seed)?;
            put_seeds(alloc, others, &mut text)?;
            Ok(text)
        }
    }
}

/// The text of the address with its port at which a status server listens, or a word for no server. Allocates the text;
/// the only error is that memory was refused.
pub(crate) fn status_spelled(alloc: Global, status: Option<Addr>) -> Result<String, AllocError>
    ensures { IfOk result (λ text. string_bytes text ≡ status_spelled status) }
{
    match status {
        None => String::from_str(alloc, "none"),
        Some(addr) => addr_text(alloc, addr),
    }
}

/// The path of a file, or a word for no file.
pub(crate) fn path_spelled(path: &Option<FilePath>) -> &str
    ensures { result.now ≡ path_spelled path.now }
{
    match path {
        None => "none",
        Some(path) => path.as_str(),
    }
}

/// The name of a group, or a word for no group.
pub(crate) fn group_spelled(group: &Option<Name>) -> &str
    ensures { result.now ≡ group_spelled group.now }
{
    match group {
        None => "none",
        Some(name) => text_of_name(name),
    }
}

/// The word for something that is on, or off.
pub(crate) fn switch_spelled(is_on: bool) -> &'static str
    ensures { result.now ≡ switch_spelled is_on }
{
    if is_on { "on" } else { "off" }
}

/// The text of a truth value.
pub(crate) fn truth_spelled(truth: bool) -> &'static str
    ensures { result.now ≡ truth_spelled truth }
{
    if truth { "true" } else { "false" }
}
