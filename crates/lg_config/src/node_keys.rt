//! The keys of the node's own numbers: one table of their names, ranges, defaults and faults. The numbers of its
//! member have a table of their own, [`lg_timing::Key`].
//!
//! Defined in: `specs/Meaning/NodeKeys.antt`.
//! Tested in: `cases/config_own.case`, `lg_command_tests/src/config.rt`.
ghost use Rattle.std.specs.Prelude.{◌≡◌};
ghost use Rattle.lg_config.specs.Meaning.NodeKeys.{allows_own, has_node_key_name, node_key_name, node_key_named};
ghost use Rattle.lg_config.specs.Meaning.NodeKeys.{node_row_of};

use crate::fault::FileFault;
use lg_timing::is_within;

/// The longest time from one Pull of a member to the next, in milliseconds: 3,600,000, an hour (this project's
/// choice).
pub const MAX_PULL_MS: u64 = 3_600_000;

/// The longest time by which a node's clock passes a loop's last turn, in milliseconds: 60,000 (this project's
/// choice).
pub const MAX_STALL_MS: u64 = 60_000;

/// The shortest time from one resolving of the hosts among the seeds to the next, in milliseconds: 1,000 (this
/// project's choice).
pub const MIN_RESOLVE_MS: u64 = 1000;

/// The longest time from one resolving of the hosts among the seeds to the next, in milliseconds: 3,600,000, an hour
/// (this project's choice).
pub const MAX_RESOLVE_MS: u64 = 3_600_000;

/// The least that a recording takes, in units of 1,000,000 bytes: 1 (this project's choice).
pub const MIN_RECORD_MB: u64 = 1;

/// The most that a recording takes, in units of 1,000,000 bytes: 100,000 (this project's choice).
pub const MAX_RECORD_MB: u64 = 100_000;

/// The key of a number of the node's own: which field of [`NodeConfig`](crate::NodeConfig) has the number.
#[derive(Clone, Copy, Debug, PartialEq, Eq)]
pub enum NodeKey {
    /// `pull_ms`.
    PullMs,
    /// `stall_ms`.
    StallMs,
    /// `resolve_ms`.
    ResolveMs,
    /// `record_mb`.
    RecordMb,
}

/// All keys of the node's own, in the order of the numbers of their faults. It is the order in which a file is judged.
pub const NODE_KEYS: [NodeKey; 4] = [
    NodeKey::PullMs,
    NodeKey::StallMs,
    NodeKey::ResolveMs,
    NodeKey::RecordMb,
];

/// What the table says of a key's number.
#[derive(Clone, Copy, Debug, PartialEq, Eq)]
pub struct NodeKeyRow {
    /// The least number.
    pub least: u64,
    /// The greatest number.
    pub most: u64,
    /// The number of a file that says nothing of the key.
    pub default: u64,
    /// What is wrong with a file whose number is out of its range.
    pub fault: FileFault,
}

impl NodeKey {
    /// The key's name, which is that of its field in [`NodeConfig`](crate::NodeConfig).
    pub fn name(self) -> &'static str
        ensures { result.now ≡ node_key_name self }
    {
        match self {
            NodeKey::PullMs => "pull_ms",
            NodeKey::StallMs => "stall_ms",
            NodeKey::ResolveMs => "resolve_ms",
            NodeKey::RecordMb => "record_mb",
        }
    }

    /// The key's range, default and fault (this project's choice).
    pub fn row(self) -> NodeKeyRow
        ensures { result ≡ node_row_of self }
    {
        match self {
            NodeKey::PullMs => NodeKeyRow {
                least: 0,
                most: MAX_PULL_MS,
                default: 30_000,
                fault: FileFault::Pull,
            },
            NodeKey::StallMs => NodeKeyRow {
                least: 0,
                most: MAX_STALL_MS,
                default: 100,
                fault: FileFault::Stall,
            },
            NodeKey::ResolveMs => NodeKeyRow {
                least: MIN_RESOLVE_MS,
                most: MAX_RESOLVE_MS,
                default: 60_000,
                fault: FileFault::Resolve,
            },
            NodeKey::RecordMb => NodeKeyRow {
                least: MIN_RECORD_MB,
                most: MAX_RECORD_MB,
                default: 64,
                fault: FileFault::RecordMb,
            },
        }
    }

    /// Whether a number is in the key's range.
    pub fn allows(self, number: u64) -> bool
        ensures { result ≡ allows_own self number }
    {
        let row = self.row();
        is_within(row.least, row.most, number)
    }

    /// Whether a word is the key's name.
    fn has_name(self, word: &[u8]) -> bool
        ensures { result ≡ has_node_key_name word.now self }
    {
        word == self.name().as_bytes()
    }

    /// The key with a name. None if no key of the node's own has it.
    pub fn named(word: &[u8]) -> Option<NodeKey>
        ensures { result ≡ node_key_named word.now }
    {
        NODE_KEYS.iter().copied().find(|key| key.has_name(word))
    }
}
