//! The hosts among the seeds of a node, and what a resolver answered of them, round by round.
//!
//! Defined in: `specs/Meaning/Rounds.antt`, `specs/Meaning/Answers.antt`.
//! Tested in: `lg_command_tests/src/resolving.rt`.
ghost use Rattle.std.specs.Prelude.{◌≡◌, ◌<◌, ◌≤◌, ◌++◌, true, ℕ, List, length, map, take};
ghost use Rattle.arrayvec.specs.ArrayVec.{array_vec_len};
ghost use Rattle.lg_resolve.specs.Meaning.Answers.{answers_by, Found};
ghost use Rattle.lg_resolve.specs.Meaning.Rounds.{are_fresh, fails_any, found_in, hosts_in, next_wait};
ghost use Rattle.lg_resolve.specs.Meaning.Rounds.{AreAfter, IsRound};

use crate::known::KnownHost;
use crate::lines::tell_news;
use crate::resolver::Resolver;
use arrayvec::ArrayVec;
use lg_config::Host;
use lg_rules::Addr;
use lg_text::FaultStream;
use lg_timing::MAX_SEEDS;
use lg_turns::MAX_FOUND;
use std::alloc::Global;

/// How long it is from a round in which a host didn't resolve to the next, the first time, in milliseconds (this
/// project's choice).
pub const FIRST_RETRY_MS: u64 = 1000;

/// The hosts among the seeds of a node, in the order of its file, and what is known of them.
#[derive(Debug, Drop)]
pub struct SeedHosts {
    rows: ArrayVec<KnownHost, MAX_SEEDS>,
}

impl SeedHosts {
    /// These hosts, of which nothing was answered.
    pub fn new(hosts: &ArrayVec<Host, MAX_SEEDS>) -> SeedHosts
        ensures hosts { hosts_in result.rows.items ≡ hosts.now.items }
        ensures after { AreAfter (are_fresh hosts.now.items) result.rows.items }
    {
        let mut rows = ArrayVec::new();
        for host in hosts.as_slice() {
            rows.push(KnownHost::new(*host));
        }
        SeedHosts { rows }
    }

    /// Asks a resolver for each host once, in order, and keeps what it answers. A host whose name doesn't resolve is
    /// told once on `faults`, and once more when it resolves again. Memory is allocated for these lines, and a line for
    /// which it is refused is dropped.
    pub fn resolve<S: Resolver, F: FaultStream>(
        &mut self,
        alloc: Global,
        resolver: &mut S,
        faults: &mut F,
    )
        ensures hosts { hosts_in self.new.rows.items ≡ hosts_in self.old.rows.items }
        ensures after { (histories : List (List Found)) → AreAfter histories self.old.rows.items
            → (found : List Found) × IsRound histories found self.old.rows.items self.new.rows.items
            (F.reported faults.old) (F.reported faults.new) × (S.tells ≡ true
            → S.log resolver.new ≡ S.log resolver.old ++ answers_by (hosts_in self.old.rows.items) found) }
    {
        let mut rows = ArrayVec::new();
        for known in self.rows.as_slice() {
            let found = resolver.resolve(&known.host);
            tell_news(alloc, &known.host.name, known.news(&found), faults);
            rows.push(known.after(found));
        }
        self.rows = rows;
    }

    /// The addresses that the hosts were found to have, in the order of the hosts: the first 64 of them.
    pub fn found(&self) -> ArrayVec<Addr, MAX_FOUND>
        ensures { result.items ≡ take MAX_FOUND (found_in self.now.rows.items) }
    {
        let mut found = ArrayVec::new();
        for known in self.rows.as_slice() {
            push_each(&mut found, known.addrs.as_slice());
        }
        found
    }

    /// Whether a host didn't resolve the last time.
    pub fn fails(&self) -> bool
        ensures { result ≡ fails_any self.now.rows.items }
    {
        self.rows.iter().any(|known| known.fails)
    }
}

/// Adds these addresses, as long as there is room.
fn push_each(found: &mut ArrayVec<Addr, MAX_FOUND>, addrs: &[Addr])
    ensures { found.new.items ≡ take MAX_FOUND (found.old.items ++ addrs.now) }
{
    let room = MAX_FOUND - found.len();
    let count = room.min(addrs.len());
    found.try_extend_from_slice(&addrs[..count]).unwrap();
}

/// How long it is until the next round, in milliseconds, if a host failed or not: after a failure as long as `retry_ms`
/// says, and else `every_ms`. It is never longer than that.
pub(crate) fn next_wait(fails: bool, retry_ms: u64, every_ms: u64) -> u64
    ensures { result ≡ next_wait fails retry_ms every_ms }
{
    if fails {
        retry_ms.min(every_ms)
    } else {
        every_ms
    }
}
