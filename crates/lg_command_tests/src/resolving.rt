//! What is known of the hosts among the seeds of a node, and what is told of them, by the answers of a resolver in
//! memory.
use arrayvec::ArrayVec;
use lg_config::{Host, NodeConfig};
use lg_resolve::{Families, MAX_OF_HOST, Resolver, SeedHosts};
use lg_rules::{Addr, Ip};
use lg_testing::{Room, local};
use lg_timing::MAX_SEEDS;
use std::alloc::Global;

/// A resolver that gives these answers in turn, the ports of the addresses of a host each, and fails when there are no
/// more.
#[derive(Drop)]
struct InTurn<'a> {
    answers: &'a [Option<&'a [u16]>],
    next: usize,
}

impl<'a> Resolver for InTurn<'a> {
    ghost use Rattle.std.specs.Prelude.{false, []};

    ghost tells = { false };

    ghost log = { λ r. [] };

    fn resolve(&mut self, _host: &Host) -> Option<ArrayVec<Addr, MAX_OF_HOST>> {
        let answer = *self.answers.get(self.next)?;
        self.next = self.next.saturating_add(1);
        let mut addrs = ArrayVec::new();
        for port in answer? {
            if !addrs.is_full() {
                addrs.push(local(*port));
            }
        }
        Some(addrs)
    }
}

/// The hosts a.example and b.example, as a file gives them.
fn two_hosts(alloc: Global) -> Option<ArrayVec<Host, MAX_SEEDS>> {
    let text = b"name = \"b\"\nseeds = [\"a.example\", \"127.0.0.1\", \"b.example:7001\"]";
    Some(NodeConfig::read(alloc, text, &[]).ok()?.hosts())
}

/// The answers for both hosts, round by round, and then the ports of the addresses that are found, what was told, and
/// whether a host failed in the last round.
type Row = (
    &'static [Option<&'static [u16]>],
    &'static [u16],
    &'static str,
    bool,
);

const ROWS: [Row; 6] = [
    (&[], &[], "", false),
    (&[Some(&[1, 2]), Some(&[3])], &[1, 2, 3], "", false),
    (
        &[Some(&[1]), None],
        &[1],
        "lg: the host b.example of the seeds doesn't resolve\n",
        true,
    ),
    // It is told once. What was found before counts.
    (
        &[Some(&[1]), Some(&[3]), None, Some(&[4]), None, Some(&[5])],
        &[1, 5],
        "lg: the host a.example of the seeds doesn't resolve\n",
        true,
    ),
    (
        &[None, None, Some(&[1]), None],
        &[1],
        "lg: the host a.example of the seeds doesn't resolve\nlg: the host b.example of the seeds doesn't resolve\n\
         lg: the host a.example of the seeds resolves\n",
        true,
    ),
    // A host whose name resolves to no address any more has none.
    (
        &[Some(&[1]), Some(&[3]), Some(&[]), Some(&[3])],
        &[3],
        "",
        false,
    ),
];

/// Whether hosts have these addresses.
fn have(hosts: &SeedHosts, ports: &[u16]) -> bool {
    let found = hosts.found();
    found.len() == ports.len()
        && found
            .iter()
            .zip(ports)
            .all(|(addr, port)| *addr == local(*port))
}

/// Whether the rounds of a row end so.
fn ends_so(alloc: Global, row: Row) -> Option<bool> {
    let (answers, ports, told, fails) = row;
    let mut hosts = SeedHosts::new(&two_hosts(alloc)?);
    let mut resolver = InTurn { answers, next: 0 };
    let mut faults = Room::failing(0);
    for _ in 0..answers.len() / 2 {
        hosts.resolve(alloc, &mut resolver, &mut faults);
    }
    Some(have(&hosts, ports) && faults.has(told.as_bytes()) && hosts.fails() == fails)
}

#[test]
fn answers_are_kept_and_told(rt: HostRuntime) {
    for row in ROWS {
        assert!(rt; ends_so(rt.alloc(), row) == Some(true), "{row:?}");
    }
}

/// At most 64 addresses are found: the first ones.
#[test]
fn many_addresses_are_cut_off(rt: HostRuntime) {
    let ports: [u16; 32] = [9; 32];
    let text = b"name = \"b\"\nseeds = [\"a.example\", \"b.example\", \"c.example\"]";
    let hosts = NodeConfig::read(rt.alloc(), text, &[]).map(|node| node.hosts());
    let count = hosts.is_ok_and(|hosts| {
        let mut hosts = SeedHosts::new(&hosts);
        let answers = [Some(&ports[..]), Some(&ports[..]), Some(&[8][..])];
        let mut resolver = InTurn {
            answers: &answers,
            next: 0,
        };
        hosts.resolve(rt.alloc(), &mut resolver, &mut Room::failing(0));
        hosts.found().len() == 64
    });
    assert!(rt; count);
}

/// A socket that is bound at an IPv4 address reaches no other.
#[test]
fn families_are_those_of_the_socket(rt: HostRuntime) {
    let (four, six) = (Ip::V4([0; 4]), Ip::V6([0; 16]));
    let reached = [
        Families::of(four).reach(four),
        Families::of(four).reach(six),
        Families::of(six).reach(four),
        Families::of(six).reach(six),
    ];
    assert!(rt; reached == [true, false, true, true]);
}
