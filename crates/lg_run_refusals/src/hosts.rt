//! The lines that tell of hosts among the seeds, while memory is refused.
use arrayvec::ArrayVec;
use lg_config::{Host, HostName};
use lg_resolve::{MAX_OF_HOST, Resolver, SeedHosts};
use lg_rules::Addr;
use lg_testing::{Room, local};

/// A resolver that finds one address of each host, or none.
#[derive(Clone, Copy, Debug)]
struct OneAddress {
    resolves: bool,
}

impl Resolver for OneAddress {
    ghost use Rattle.std.specs.Prelude.{false, []};

    ghost tells = { false };

    ghost log = { λ r. [] };

    fn resolve(&mut self, host: &Host) -> Option<ArrayVec<Addr, MAX_OF_HOST>> {
        if !self.resolves {
            return None;
        }
        let mut addrs = ArrayVec::new();
        addrs.push(local(host.port));
        Some(addrs)
    }
}

/// What is told of a host that doesn't resolve, and once it does.
const FAILS: &[u8] = b"lg: the host db.example of the seeds doesn't resolve\n";

const RESOLVES: &[u8] = b"lg: the host db.example of the seeds resolves\n";

const BOTH: &[u8] = b"lg: the host db.example of the seeds doesn't resolve\n\
    lg: the host db.example of the seeds resolves\n";

/// Whether hosts have this one address, or none.
fn have(hosts: &SeedHosts, addr: Option<Addr>) -> bool {
    let found = hosts.found();
    found.len() <= 1 && found.first().copied() == addr
}

/// A host doesn't resolve at first, and then it does. Each is told in a line, or memory for that line is refused. What
/// is known of the host is the same in both cases.
#[test]
fn tells_after_refused_memory(rt: HostRuntime) {
    let mut seeds = ArrayVec::new();
    let name = HostName::of(b"db.example").unwrap_or(HostName::default());
    seeds.push(Host { name, port: 7001 });
    let mut hosts = SeedHosts::new(&seeds);
    let mut faults = Room::failing(0);
    let rounds = [(false, None), (false, None), (true, Some(local(7001)))];
    for (resolves, addr) in rounds {
        let mut resolver = OneAddress { resolves };
        hosts.resolve(rt.alloc(), &mut resolver, &mut faults);
        assert!(rt;
            have(&hosts, addr) && hosts.fails() != resolves,
            "{resolves}"
        );
    }
    let is_told = faults.has(BOTH) || faults.has(FAILS) || faults.has(RESOLVES);
    assert!(rt; is_told);
}
