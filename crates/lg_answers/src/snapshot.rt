//! What the answers are made of: plain values that were read of a node.
//!
//! Defined in: this file.
//! Tested in: `lg_answers_tests/src/answer.rt`.

use arrayvec::ArrayVec;
use lg_config::SeedPlace;
use lg_counters::{Counts, Drops};
use lg_rules::{Addr, Incarnation, Name, Record};
use lg_timing::{Config, MAX_SEEDS, Moment};

/// What is shown of a node: what its last answered look found, and what was read of its clock and its counters.
///
/// The version, the records, the score, the incarnation and `ousted` are of one list of events. The rest is read after
/// that look, while the node goes on. If a look is refused, those five stay as they are, and the rest is read anew.
#[derive(Debug, Drop)]
pub struct Snapshot {
    /// How many events there had been when the records stood so.
    pub version: u64,
    /// The moment of the look.
    pub moment: Moment,
    /// This member's name.
    pub name: Name,
    /// The records of all members that are known, this member's too, in the order of names.
    pub records: Vec<Record>,
    /// The health score of this member.
    pub score: u64,
    /// The incarnation of this member.
    pub incarnation: Incarnation,
    /// Whether this member is ousted.
    pub ousted: bool,
    /// How long the node has run, in milliseconds, with the time that its clock left out.
    pub uptime_ms: u64,
    /// How much of the machine's time the node's clock has left out, in milliseconds.
    pub stood_still_ms: u64,
    /// The moment of the last event, in milliseconds.
    pub last_event_ms: u64,
    /// What the node counted.
    pub counts: Counts,
    /// How many datagrams it dropped for each fault.
    pub dropped: Vec<Drops>,
}

/// A number of the configuration file that only the node uses.
#[derive(Clone, Copy, Debug, PartialEq, Eq)]
pub struct NodeNumber {
    /// Its key, such as `pull_ms`. It has letters and `_` only, so that no byte needs an escape.
    pub key: &'static str,
    /// Its value.
    pub value: u64,
}

/// The configuration that a node runs with, defaults filled in.
#[derive(Debug, Drop)]
pub struct ShownConfig {
    /// The configuration of its member. Its own list of seeds isn't shown: `seeds` has all of them.
    pub config: Config,
    /// The numbers of the node's own, in the order in which they are shown.
    pub numbers: Vec<NodeNumber>,
    /// Where the node answers over HTTP. None if it doesn't.
    pub status: Option<Addr>,
    /// Whether it may answer at an address that isn't loopback.
    pub status_open: bool,
    /// Whether a request over HTTP may end the node.
    pub leave: bool,
    /// Where its socket for datagrams is bound.
    pub bind: Addr,
    /// All its seeds, with names and without, in the order in which they are shown.
    pub seeds: ArrayVec<SeedPlace, MAX_SEEDS>,
}
