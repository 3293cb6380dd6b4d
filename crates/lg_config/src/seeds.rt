//! Reads the seeds of a file.
//!
//! Defined in: `specs/Meaning/Settings.antt`, `Seeds.antt`.
//! Tested in: `cases/config_seeds.case`, `lg_command_tests/src/config.rt`.
ghost use Rattle.std.specs.Prelude.{◌≡◌, ◌+◌, ◌<◌, ◌≤◌, ◌++◌, length};
ghost use Rattle.std.specs.Option.{option_map};
ghost use Rattle.arrayvec.specs.ArrayVec.{array_vec_len};
ghost use Rattle.toml.specs.View.{items_view, view};
ghost use Rattle.lg_config.specs.Meaning.Seeds.{asked_addr, asked_addrs, known_seed, known_seeds, seed_host};
ghost use Rattle.lg_config.specs.Meaning.Seeds.{seed_hosts, seed_name, seed_names};
ghost use Rattle.lg_config.specs.Meaning.Settings.{first_seeds, seed_of_value};

use crate::host::{Host, Place};
use crate::texts::seed_in;
use arrayvec::ArrayVec;
use lg_rules::{Addr, Name};
use lg_timing::{MAX_SEEDS, Seed};
use toml::Value;

/// A seed of a file: a place that the node asks for a table of the group's members when it starts.
#[derive(Clone, Copy, Debug, Default, PartialEq, Eq)]
pub struct SeedPlace {
    /// The member that is there. None if the file doesn't name it. A member that is named, and is at an address, is
    /// known from the start.
    pub name: Option<Name>,
    /// Where it is reached.
    pub place: Place,
}

/// The seed that a value spells, if it is a text.
pub(crate) fn seed_of_value(value: &Value) -> Option<SeedPlace>
    ensures { result ≡ seed_of_value (view value.now) }
{
    seed_in(value.as_str()?.as_bytes())
}

/// The first 16 of the seeds that some values spell. None if one of the values, even a later one, is out of its form.
pub(crate) fn first_seeds(values: &[Value]) -> Option<ArrayVec<SeedPlace, MAX_SEEDS>>
    ensures { option_map (λ seeds. seeds.items) result ≡ first_seeds (items_view values.now) }
{
    let mut seeds = ArrayVec::new();
    for value in values {
        let seed = seed_of_value(value)?;
        if !seeds.is_full() {
            seeds.push(seed);
        }
    }
    Some(seeds)
}

/// Adds a seed as the member knows it, if it has a name and an address.
fn push_known(known: &mut ArrayVec<Seed, MAX_SEEDS>, seed: &SeedPlace)
    requires { array_vec_len known.old < MAX_SEEDS }
    ensures items { known.new.items ≡ known.old.items ++ known_seed seed.now }
    ensures few { array_vec_len known.new ≤ array_vec_len known.old + 1 }
{
    let Some(name) = seed.name else {
        return;
    };
    if let Place::Addr(addr) = seed.place {
        known.push(Seed { name, addr });
    }
}

/// The seeds that have names and addresses, as the member knows them.
pub(crate) fn known_seeds(seeds: &[SeedPlace]) -> ArrayVec<Seed, MAX_SEEDS>
    requires { length seeds.now ≤ MAX_SEEDS }
    ensures { result.items ≡ known_seeds seeds.now }
{
    let mut known = ArrayVec::new();
    for seed in seeds {
        push_known(&mut known, seed);
    }
    known
}

/// Adds the name of a seed, if it has one.
fn push_name(names: &mut ArrayVec<Name, MAX_SEEDS>, seed: &SeedPlace)
    requires { array_vec_len names.old < MAX_SEEDS }
    ensures items { names.new.items ≡ names.old.items ++ seed_name seed.now }
    ensures few { array_vec_len names.new ≤ array_vec_len names.old + 1 }
{
    if let Some(name) = seed.name {
        names.push(name);
    }
}

/// The names of some seeds, at addresses and at hosts.
pub(crate) fn names_among(seeds: &[SeedPlace]) -> ArrayVec<Name, MAX_SEEDS>
    requires { length seeds.now ≤ MAX_SEEDS }
    ensures { result.items ≡ seed_names seeds.now }
{
    let mut names = ArrayVec::new();
    for seed in seeds {
        push_name(&mut names, seed);
    }
    names
}

/// Adds the address of a seed, if it is at one, unless that is the member's own.
fn push_asked(asked: &mut ArrayVec<Addr, MAX_SEEDS>, own: &Addr, seed: &SeedPlace)
    requires { array_vec_len asked.old < MAX_SEEDS }
    ensures items { asked.new.items ≡ asked.old.items ++ asked_addr own.now seed.now }
    ensures few { array_vec_len asked.new ≤ array_vec_len asked.old + 1 }
{
    let Place::Addr(addr) = seed.place else {
        return;
    };
    if addr == *own {
        return;
    }
    asked.push(addr);
}

/// The addresses of some seeds but for the member's own.
pub(crate) fn asked_among(own: &Addr, seeds: &[SeedPlace]) -> ArrayVec<Addr, MAX_SEEDS>
    requires { length seeds.now ≤ MAX_SEEDS }
    ensures { result.items ≡ asked_addrs own.now seeds.now }
{
    let mut asked = ArrayVec::new();
    for seed in seeds {
        push_asked(&mut asked, own, seed);
    }
    asked
}

/// Adds the host of a seed, if it is at one.
fn push_host(hosts: &mut ArrayVec<Host, MAX_SEEDS>, seed: &SeedPlace)
    requires { array_vec_len hosts.old < MAX_SEEDS }
    ensures items { hosts.new.items ≡ hosts.old.items ++ seed_host seed.now }
    ensures few { array_vec_len hosts.new ≤ array_vec_len hosts.old + 1 }
{
    if let Place::Host(host) = seed.place {
        hosts.push(host);
    }
}

/// The hosts of some seeds.
pub(crate) fn hosts_among(seeds: &[SeedPlace]) -> ArrayVec<Host, MAX_SEEDS>
    requires { length seeds.now ≤ MAX_SEEDS }
    ensures { result.items ≡ seed_hosts seeds.now }
{
    let mut hosts = ArrayVec::new();
    for seed in seeds {
        push_host(&mut hosts, seed);
    }
    hosts
}
