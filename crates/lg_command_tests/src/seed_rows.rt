//! Whether the seeds of a configuration are those of a row.
use lg_config::{Host, NodeConfig, Place, SeedPlace};
use lg_rules::Addr;
use lg_testing::name;

/// A seed at an address: its name, which is empty if it has none, its address and its port.
pub type Known = (&'static [u8], [u8; 4], u16);

/// A seed at a host: its name, which is empty if it has none, its host and its port.
pub type KnownAt = (&'static [u8], &'static str, u16);

/// Whether a seed has this name, which is empty if it has none.
fn is_called(seed: &SeedPlace, letters: &[u8]) -> bool {
    match seed.name {
        Some(found) => !letters.is_empty() && found == name(letters),
        None => letters.is_empty(),
    }
}

/// Whether a host is this one, with this port.
fn is_host(host: &Host, text: &str, port: u16) -> bool {
    host.name.as_str() == text && host.port == port
}

/// Whether a seed is at this address, and is called so.
fn is_seed(seed: &SeedPlace, wanted: &Known) -> bool {
    is_called(seed, wanted.0) && seed.place == Place::Addr(Addr::v4(wanted.1, wanted.2))
}

/// Whether a seed is at this host, and is called so.
fn is_seed_at(seed: &SeedPlace, wanted: &KnownAt) -> bool {
    match &seed.place {
        Place::Host(host) => is_called(seed, wanted.0) && is_host(host, wanted.1, wanted.2),
        Place::Addr(_) => false,
    }
}

/// Whether the hosts of a configuration are these.
fn has_hosts(node: &NodeConfig, wanted: &[KnownAt]) -> bool {
    let hosts = node.hosts();
    hosts.len() == wanted.len()
        && hosts
            .iter()
            .zip(wanted)
            .all(|(host, wanted)| is_host(host, wanted.1, wanted.2))
}

/// Whether the seeds of a configuration are these: those at addresses, and then those at hosts.
pub fn has_places(node: &NodeConfig, seeds: &[Known], hosts: &[KnownAt]) -> bool {
    node.seeds.len() == seeds.len() + hosts.len()
        && node
            .seeds
            .iter()
            .zip(seeds)
            .all(|(seed, wanted)| is_seed(seed, wanted))
        && node
            .seeds
            .iter()
            .skip(seeds.len())
            .zip(hosts)
            .all(|(seed, wanted)| is_seed_at(seed, wanted))
        && has_hosts(node, hosts)
}

/// Whether the seeds that the member knows from the start are these, and whom the node asks for a table.
pub fn has_seeds(node: &NodeConfig, known: &[Known], asked: &[([u8; 4], u16)]) -> bool {
    let seeds = &node.config.seeds;
    let addrs = node.asked();
    seeds.len() == known.len()
        && seeds.iter().zip(known).all(|(seed, wanted)| {
            seed.name == name(wanted.0) && seed.addr == Addr::v4(wanted.1, wanted.2)
        })
        && addrs.len() == asked.len()
        && addrs
            .iter()
            .zip(asked)
            .all(|(addr, wanted)| *addr == Addr::v4(wanted.0, wanted.1))
}
