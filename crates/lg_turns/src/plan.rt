//! What a ticking loop does besides its ticks.
//!
//! Defined in: `specs/Meaning/Pulling.antt`, `specs/Meaning/Leaving.antt`, `specs/Meaning/Resolving.antt`.
//! Tested in: `lg_node_tests/src/node/finding.rt`, `lg_node_tests/src/node/leaving.rt`,
//! `lg_node_tests/src/node/resolving.rt`, `cases/groups`.

ghost use Rattle.std.specs.Prelude.{◌≡◌, ◌+◌, ◌<◌, ◌≤◌, ◌++◌, [], ◌∷◌, if◌then◌else◌, length, min};
ghost use Rattle.std.specs.List.{filter};
ghost use Rattle.arrayvec.specs.ArrayVec.{array_vec_len};
ghost use Rattle.lg_turns.specs.Meaning.Leaving.{lingering};
ghost use Rattle.lg_turns.specs.Meaning.Pulling.{plan_of};
ghost use Rattle.lg_turns.specs.Meaning.Resolving.{is_elsewhere, learning};

use crate::resolved::MAX_FOUND;
use arrayvec::ArrayVec;
use lg_rules::{Addr, Name, Version};
use lg_timing::{Config, MAX_MOMENT, MAX_SEEDS, Moment};

/// The most addresses of seeds that are asked: 80, which are 16 that were given and 64 that hosts have.
pub const MAX_ASKED: usize = MAX_SEEDS + MAX_FOUND;

/// What a ticking loop does besides its ticks, until when, and whether this member leaves its group then.
#[derive(Drop)]
pub struct Plan {
    /// This member's name. It isn't asked.
    pub name: Name,
    /// This member's own address. It isn't asked, even if a host among the seeds has it.
    pub own: Addr,
    /// The addresses of those seeds that were given by their addresses.
    pub fixed: ArrayVec<Addr, MAX_SEEDS>,
    /// The addresses of the seeds: those that were given, and those that hosts were found to have. They are asked until
    /// a Page is heard, and again while no other member is known that isn't gone. In turn with members they are asked
    /// for ever.
    pub seeds: ArrayVec<Addr, MAX_ASKED>,
    /// Whether the loop learns which addresses the hosts among the seeds have. If there are none, it doesn't.
    pub learns: bool,
    /// The interval of the member's probes, in milliseconds. So long after its beginning the loop asks for a table for
    /// the first time, and so long it goes on once the member has left.
    pub interval_ms: u64,
    /// How long it is at most from one asking for a table in turn to the next, in milliseconds. With 0 there is none.
    pub pull_ms: u64,
    /// When the loop ends, or the member leaves.
    pub until: Moment,
    /// Whether this member leaves its group when the loop is told to stop, or its end time comes.
    pub leaves: bool,
}

/// The moment so many milliseconds behind a moment, or the last moment of all.
fn moment_behind(now: Moment, milliseconds: u64) -> Moment
    ensures { result ≡ min (now + milliseconds) MAX_MOMENT }
{
    let sum = now.milliseconds().saturating_add(milliseconds);
    Moment::new(sum.min(MAX_MOMENT)).unwrap_or(now)
}

/// Adds an address, unless it is this member's own.
fn push_other(others: &mut ArrayVec<Addr, MAX_FOUND>, own: &Addr, addr: &Addr)
    requires { array_vec_len others.old < MAX_FOUND }
    ensures items { others.new.items
        ≡ others.old.items ++ (if is_elsewhere own.now addr.now then addr.now ∷ [] else []) }
    ensures few { array_vec_len others.new ≤ array_vec_len others.old + 1 }
{
    if *addr == *own {
        return;
    }
    others.push(*addr);
}

/// These addresses but for this member's own, in their order.
fn others_among(own: &Addr, found: &[Addr]) -> ArrayVec<Addr, MAX_FOUND>
    requires { length found.now ≤ MAX_FOUND }
    ensures { result.items ≡ filter (is_elsewhere own.now) found.now }
{
    let mut others = ArrayVec::new();
    for addr in found {
        push_other(&mut others, own, addr);
    }
    others
}

impl Plan {
    /// The plan of a node with this configuration, whose seeds have these addresses, and which learns others if hosts
    /// are among the seeds too. It leaves at its end if it writes its packets in version 3, the only one that can tell
    /// this.
    pub fn new(
        config: &Config,
        seeds: &ArrayVec<Addr, MAX_SEEDS>,
        learns: bool,
        pull_ms: u64,
        until: Moment,
    ) -> Plan
        ensures { result ≡ plan_of config.now seeds.now.items learns pull_ms until }
    {
        let leaves = matches!(config.version(), Version::Three);
        let mut fixed = ArrayVec::new();
        fixed.try_extend_from_slice(seeds).unwrap();
        let mut asked = ArrayVec::new();
        asked.try_extend_from_slice(seeds).unwrap();
        Plan {
            name: config.name,
            own: config.addr,
            fixed,
            seeds: asked,
            learns,
            interval_ms: config.interval_ms,
            pull_ms,
            until,
            leaves,
        }
    }

    /// The hosts among the seeds were found to have these addresses. From now on they are asked, but for this member's
    /// own, in the place of those that were found before.
    pub fn learn(&mut self, found: &ArrayVec<Addr, MAX_FOUND>)
        ensures { self.new ≡ learning self.old found.now.items }
    {
        let others = others_among(&self.own, found.as_slice());
        self.seeds.clear();
        self.seeds.try_extend_from_slice(&self.fixed).unwrap();
        self.seeds.try_extend_from_slice(&others).unwrap();
    }

    /// The member has left at a moment. For one interval more the loop only ticks, so that others hear of the leave.
    pub fn linger(&mut self, now: Moment)
        ensures { self.new ≡ lingering self.old now }
    {
        self.seeds.clear();
        self.learns = false;
        self.pull_ms = 0;
        self.until = moment_behind(now, self.interval_ms);
        self.leaves = false;
    }
}
