//! What b answers from: it knows that a is suspected by c, and that c has failed.
use crate::target::parts_of;
use arrayvec::ArrayVec;
use lg_answers::{
    Changes, Counts, Drops, Host, HostName, MAX_CHANGES, NodeNumber, Place, RecordedCounts,
    SeedPlace, ShownConfig, Snapshot, answer_to,
};
use lg_http::HttpAnswer;
use lg_rules::{Addr, Name, Record, Status};
use lg_testing::{at, claim, incarnation, letter, local};
use lg_timing::{Config, MAX_SEEDS};
use std::alloc::{AllocError, Global};

/// How b is.
#[derive(Clone, Copy, Debug, PartialEq, Eq)]
pub enum Node {
    /// It lives, and keeps three changes.
    Usual,
    /// It is ousted, and may answer at any address, but has none. It is bound at an address of IPv6, no request may end
    /// it, and it has no seed.
    Ousted,
    /// Before the three there were 1,024 changes of a at version 7.
    Busy,
}

/// What the answers of b are made of.
#[derive(Drop)]
pub struct Sources {
    snapshot: Snapshot,
    changes: Changes,
    setup: ShownConfig,
}

/// The record of a member at a port.
fn record(member: u8, port: u16, status: Status, number: u32) -> Record {
    let mut record = claim(letter(member), status, number);
    record.addr = local(port);
    record
}

/// The record of b.
fn own_record() -> Record {
    record(b'b', 7102, Status::Alive, 4)
}

/// The record of a, which c suspects.
fn suspected() -> Record {
    record(b'a', 7101, Status::Suspect(letter(b'c')), 0)
}

/// The record of c, which has failed.
fn gone() -> Record {
    record(b'c', 7103, Status::Failed, 2)
}

/// Counts of which no two are the same.
fn counts() -> Counts {
    Counts {
        received: 111,
        sent: 112,
        unsent: 113,
        probes_begun: 114,
        probes_failed: 115,
        probes_helped: 116,
        suspicions_raised: 117,
        suspicions_refuted: 118,
        members_forgotten: 119,
        history_entries: 120,
        history_rotations: 121,
        calls_refused: 122,
        recorded: RecordedCounts {
            entries: 123,
            bytes: 124,
            lost: 125,
            failures: 126,
        },
    }
}

/// Datagrams that were dropped.
fn drops(fault: &'static str, count: u64) -> Drops {
    Drops { fault, count }
}

/// A look of b after 41 events.
fn snapshot(alloc: Global, ousted: bool) -> Result<Snapshot, AllocError> {
    let records = Vec::from_array(alloc, [suspected(), own_record(), gone()])?;
    let dropped = Vec::from_array(alloc, [drops("Short", 0), drops("Magic", 3)])?;
    Ok(Snapshot {
        version: 41,
        moment: at(5120),
        name: letter(b'b'),
        records,
        score: 2,
        incarnation: incarnation(4),
        ousted,
        uptime_ms: 5370,
        stood_still_ms: 250,
        last_event_ms: 5003,
        counts: counts(),
        dropped,
    })
}

/// A seed of this name, or without one, at an address.
fn seed(name: Option<Name>, addr: Addr) -> SeedPlace {
    SeedPlace {
        name,
        place: Place::Addr(addr),
    }
}

/// A seed of this name at a host.
fn seed_at(name: Option<Name>, host: &[u8], port: u16) -> SeedPlace {
    let name_of_host = HostName::of(host).unwrap_or_default();
    SeedPlace {
        name,
        place: Place::Host(Host {
            name: name_of_host,
            port,
        }),
    }
}

/// An address of IPv6 for documents (RFC 3849).
fn documentation(port: u16) -> Addr {
    Addr::v6(
        [0x20, 0x01, 0x0d, 0xb8, 0, 0, 0, 0, 0, 0, 0, 0, 0, 0, 0, 1],
        port,
    )
}

/// The seeds of b: one without a name between two that have names, one of IPv6, and two at hosts.
fn seeds() -> ArrayVec<SeedPlace, MAX_SEEDS> {
    let seeds = [
        seed(Some(letter(b'a')), local(7101)),
        seed(None, local(7105)),
        seed(Some(letter(b'd')), local(7104)),
        seed(None, documentation(7106)),
        seed_at(None, b"db.example", 7946),
        seed_at(Some(letter(b'e')), b"DB-2", 1),
    ];
    let mut kept = ArrayVec::new();
    for seed in seeds {
        if !kept.is_full() {
            kept.push(seed);
        }
    }
    kept
}

/// The default configuration but for its interval.
fn config() -> Config {
    let mut config = Config::new(letter(b'b'), local(7102));
    config.interval_ms = 2000;
    config
}

/// A number of the node's own.
fn own(key: &'static str, value: u64) -> NodeNumber {
    NodeNumber { key, value }
}

/// What b runs with.
fn setup(alloc: Global, node: Node) -> Result<ShownConfig, AllocError> {
    let is_open = node == Node::Ousted;
    let (bind, seeds) = match node {
        Node::Ousted => (documentation(7102), ArrayVec::new()),
        Node::Usual | Node::Busy => (local(7102), seeds()),
    };
    let numbers = [
        own("dice", 1),
        own("pull_ms", 30_000),
        own("stall_ms", 100),
        own("resolve_ms", 60_000),
    ];
    Ok(ShownConfig {
        config: config(),
        numbers: Vec::from_array(alloc, numbers)?,
        status: (!is_open).then_some(local(8946)),
        status_open: is_open,
        leave: !is_open,
        bind,
        seeds,
    })
}

/// Changes of a at version 7, so many, and then three: of b at version 30, and of a and c at version 41.
fn changes(alloc: Global, older: usize) -> Result<Changes, AllocError> {
    let mut changes = Changes::new(alloc)?;
    for _ in 0..older {
        changes.keep_changed(7, at(700), &[record(b'a', 7101, Status::Alive, 0)]);
    }
    changes.keep_changed(30, at(4000), &[own_record()]);
    changes.keep_changed(41, at(5120), &[suspected(), gone()]);
    Ok(changes)
}

impl Node {
    /// What the answers are made of.
    pub fn sources(self, alloc: Global) -> Result<Sources, AllocError> {
        let older = if self == Node::Busy { MAX_CHANGES } else { 0 };
        Ok(Sources {
            snapshot: snapshot(alloc, self == Node::Ousted)?,
            changes: changes(alloc, older)?,
            setup: setup(alloc, self)?,
        })
    }

    /// The answer to a request for a target.
    pub fn answer(self, alloc: Global, target: &str) -> Result<HttpAnswer, AllocError> {
        let sources = self.sources(alloc)?;
        sources.answer(alloc, target)
    }
}

impl Sources {
    /// The answer to a request for a target.
    pub fn answer(&self, alloc: Global, target: &str) -> Result<HttpAnswer, AllocError> {
        let (path, query) = parts_of(target);
        answer_to(
            alloc,
            &self.snapshot,
            &self.changes,
            &self.setup,
            path,
            query,
        )
    }
}
