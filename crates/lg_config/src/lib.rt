//! The configuration of a node: what the bytes of its file and options mean together, or why they mean nothing.
//!
//! [`NodeConfig::read`] reads the bytes of a file, which are TOML, and puts options in place of what they say.
//! [`reason`] says in words what is wrong with both. Contracts of other crates cite `IsAnswer` and `answer_of`
//! (`specs/Meaning/Answer.antt`), `options_of` and `source_of` (`Options.antt`), `fault_number` (`Faults.antt`),
//! `may_listen` (`Status.antt`), `asked_addrs` and `seed_hosts` (`Seeds.antt`), `host_of` (`Hosts.antt`), `with_ip`
//! (`Finding.antt`) and `IsReason` (`Reasons.antt`).
#![tactic(auto)]

mod bind;
mod bind_reasons;
mod dice;
mod document;
mod family;
mod fault;
mod file_path;
mod finding;
mod form_reasons;
mod given;
mod group;
mod group_reasons;
mod host;
mod key_file;
mod key_reasons;
mod keys;
mod leave;
mod leave_reasons;
mod lookup;
mod names;
mod nearest;
mod node;
mod node_keys;
mod quoting;
mod ranges;
mod reasons;
mod seeds;
mod settings;
mod status;
mod status_reasons;
mod texts;

pub use dice::own_dice;
pub use document::MAX_FILE;
pub use fault::{FileFault, ReadFault};
pub use file_path::{FilePath, MAX_PATH};
pub use given::{Given, Source};
pub use host::{Host, HostName, MAX_HOST, Place};
pub use keys::FILE_KEYS;
pub use nearest::KNOWN_KEYS;
pub use node::NodeConfig;
pub use node_keys::{
    MAX_PULL_MS, MAX_RECORD_MB, MAX_RESOLVE_MS, MAX_STALL_MS, MIN_RECORD_MB, MIN_RESOLVE_MS,
    NODE_KEYS, NodeKey, NodeKeyRow,
};
pub use reasons::reason;
pub use seeds::SeedPlace;
pub use settings::{DEFAULT_ADDRESS, DEFAULT_PORT};
