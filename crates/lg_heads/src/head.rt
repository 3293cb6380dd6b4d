//! What a file of a recording says of its node.
//!
//! Defined in: `specs/Meaning/Heads.antt`.
//! Tested in: `lg_heads_tests/src/heads.rt`.

use lg_detector::Standing;
use lg_rules::{Name, Record};
use lg_timing::{Config, Moment};

/// What was known before the first entry of a file, by which the entries can be played.
#[derive(Debug, Drop)]
pub struct Before {
    /// What the member knew of itself.
    pub standing: Standing,
    /// The records of its table, 1 to [`MAX_MEMBERS`](lg_rules::MAX_MEMBERS), in the order of their names. The order
    /// isn't judged.
    pub table: Vec<Record>,
}

/// What a file of a recording says of its node before its entries.
#[derive(Debug, Drop)]
pub struct Head<'a> {
    /// The node's name.
    pub name: Name,
    /// Its configuration, as its detector was opened with it.
    pub config: Config,
    /// The bytes of its configuration file. There are none if it had no file.
    pub text: &'a [u8],
    /// The version of its program, such as `0.9.0`.
    pub program: &'a [u8],
    /// The wall time at which the file was begun, in milliseconds since the beginning of 1970 in UTC.
    pub wall_ms: u64,
    /// The moment of the node's clock then.
    pub now: Moment,
    /// How many entries the node had made, since its opening, before the first one of this file.
    pub first: u64,
    /// What was known before the first entry of this file: `None` exactly if `first` is 0.
    pub before: Option<Before>,
}
