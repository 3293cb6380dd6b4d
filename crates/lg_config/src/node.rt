//! The configuration of a node.
//!
//! Defined in: `specs/Meaning/Answer.antt`, `lg_timing/specs/Meaning/Config.antt`.
//! Tested in: `cases/config.case`, `lg_command_tests/src/config.rt`.
ghost use Rattle.std.specs.Prelude.{◌≡◌, IfOk, None, true};
ghost use Rattle.toml.specs.View.{table_view};
ghost use Rattle.lg_timing.specs.Meaning.Config.{IsChecked};
ghost use Rattle.lg_timing.specs.Meaning.Config.{check_of};
ghost use Rattle.lg_config.specs.Meaning.Answer.{fault_of_seeds, go_together, is_late, meaning_of, unless_apart};
ghost use Rattle.lg_config.specs.Meaning.Answer.{unless_broken, unless_config, unless_late, unless_node, IsAnswer};
ghost use Rattle.lg_config.specs.Meaning.Settings.{item_count, seeds_at, settings_of};

use crate::bind::with_bind;
use crate::document::table_with;
use crate::family::unless_untold;
use crate::fault::{FileFault, ReadFault};
use crate::file_path::FilePath;
use crate::finding::{unless_unfindable, with_own_ip};
use crate::given::Given;
use crate::group::with_group;
use crate::host::Host;
use crate::key_file::with_key_file;
use crate::keys::are_right_keys;
use crate::leave::with_leave;
use crate::lookup::seeds_at;
use crate::names::have_good_names;
use crate::node_keys::{NODE_KEYS, NodeKey};
use crate::seeds::{SeedPlace, asked_among, hosts_among};
use crate::settings::settings_in;
use crate::status::with_status;
use arrayvec::ArrayVec;
use lg_rules::{Addr, Ip};
use lg_timing::{Config, ConfigFault, MAX_SEEDS};
use std::alloc::Global;
use toml::Table;

/// What the configuration of a node says.
#[derive(Debug, Drop)]
pub struct NodeConfig {
    /// The configuration of its member. It passes its check.
    pub config: Config,
    /// The number that the dice start from, 0 to 9,223,372,036,854,775,807. The dice choose members.
    pub dice: u64,
    /// How often the node asks a member that it knows for its table, in milliseconds: 0 to 3,600,000. With 0 it asks
    /// nobody after its start.
    pub pull_ms: u64,
    /// The most by which the node's clock passes a loop's last turn, in milliseconds: 0 to 60,000. With 0 its clock is
    /// the machine's.
    pub stall_ms: u64,
    /// How long it is from one resolving of the hosts among the seeds to the next, in milliseconds: 1,000 to 3,600,000.
    /// If no seed is at a host, this means nothing.
    pub resolve_ms: u64,
    /// The most that its recording takes, in units of 1,000,000 bytes: 1 to 100,000. If there is none, this means
    /// nothing.
    pub record_mb: u64,
    /// The folder of its recording. None if the node records nothing.
    pub record_folder: Option<FilePath>,
    /// Whether the member's IP address is found when the node starts. Until then it is 0.0.0.0 in the configuration.
    pub auto: bool,
    /// Where the node's status server listens. None if the node has no such server.
    pub status: Option<Addr>,
    /// Whether the status server may listen at an address that isn't loopback (127.0.0.0/8 or ::1). Its answers have no
    /// authentication. If there is no status server, this means nothing.
    pub status_open: bool,
    /// The path of its key file, which has the keys of its group. None if the group has no key.
    pub key_file: Option<FilePath>,
    /// Whether the request `POST /v1/leave` may end the node.
    pub leave: bool,
    /// Where its socket for datagrams is bound, if its file says it. None if it is bound to the member's address and
    /// port, which the others are told.
    pub bind: Option<Addr>,
    /// The seeds, in the order of the file. Those that have names and are at addresses are the seeds of the
    /// configuration, too. All names differ, and none is the member's own.
    pub seeds: ArrayVec<SeedPlace, MAX_SEEDS>,
}

/// Whether the seeds of a table go together, if there are so many: at most 16, with different names, none of them the
/// member's own.
fn go_together(node: &NodeConfig, count: usize) -> bool
    ensures { result ≡ go_together count node.now }
{
    count <= MAX_SEEDS && have_good_names(&node.config.name, node.seeds.as_slice())
}

/// The fault of a table whose seeds don't go together, given what the check of a configuration with the first of them
/// found. The faults with lesser numbers than that of the seeds don't depend on the seeds.
fn fault_of_seeds(checked: Result<(), ConfigFault>) -> ConfigFault
    ensures { result ≡ fault_of_seeds checked }
{
    match checked {
        Err(fault) if fault.number() < ConfigFault::Seeds.number() => fault,
        _ => ConfigFault::Seeds,
    }
}

/// Settings, or the fault of a number of the node's own that is out of its range.
fn unless_broken(node: NodeConfig, broken: Option<NodeKey>) -> Result<NodeConfig, FileFault>
    ensures { result ≡ unless_broken node broken }
{
    match broken {
        Some(key) => Err(key.row().fault),
        None => Ok(node),
    }
}

/// Whether a fault of a member's configuration counts only if nothing else is wrong: if its number is greater than that
/// of the key file's path.
fn is_late(fault: ConfigFault) -> bool
    ensures { result ≡ is_late fault }
{
    fault.number() > FileFault::KeyFile.number()
}

/// Settings, or the fault that the check of their configuration found, unless that counts later. Or they have the fault
/// of a number of the node's own.
fn unless_config(
    node: NodeConfig,
    checked: Result<(), ConfigFault>,
) -> Result<NodeConfig, FileFault>
    ensures { result ≡ unless_config node checked }
{
    match checked {
        Err(fault) if !is_late(fault) => Err(FileFault::Config(fault)),
        _ => {
            let broken = node.own_broken();
            unless_broken(node, broken)
        }
    }
}

/// Settings, or the fault that the check of their configuration finds if nothing else is wrong.
fn unless_late(node: NodeConfig) -> Result<NodeConfig, FileFault>
    ensures { result ≡ unless_late node (check_of node.config) }
{
    match node.config.check() {
        Ok(()) => Ok(node),
        Err(fault) => Err(FileFault::Config(fault)),
    }
}

/// The settings of a table with so many seeds, or their fault.
fn unless_apart(node: NodeConfig, count: usize) -> Result<NodeConfig, FileFault>
    ensures { result ≡ unless_apart count node }
{
    let checked = node.config.check();
    if go_together(&node, count) {
        unless_config(node, checked)
    } else {
        Err(FileFault::Config(fault_of_seeds(checked)))
    }
}

/// The settings of a table whose keys are right, or their fault. The status server, the path of the key file, the
/// group, leaving and where the socket is bound aren't read yet, and the faults that count last aren't judged.
fn judged_in(table: &Table) -> Result<NodeConfig, FileFault>
    ensures { result ≡ unless_node (item_count (seeds_at (table_view table.now))) (settings_of (table_view table.now)) }
{
    let node = settings_in(table).ok_or(FileFault::Value)?;
    unless_apart(node, seeds_at(table).len())
}

/// The configuration that a table means, or its fault.
fn meaning_in(table: &Table) -> Result<NodeConfig, FileFault>
    ensures { result ≡ meaning_of (table_view table.now) }
{
    if !are_right_keys(table) {
        return Err(FileFault::Key);
    }
    let node = judged_in(table)?;
    let node = with_status(table, node)?;
    let node = with_key_file(table, node)?;
    let node = unless_late(node)?;
    let node = with_group(table, node)?;
    let node = unless_late(node)?;
    let node = with_leave(table, node)?;
    let node = with_bind(table, node)?;
    let node = unless_untold(node)?;
    unless_unfindable(node)
}

impl NodeConfig {
    ghost use Rattle.lg_config.specs.Meaning.Binding.{bound_at};
    ghost use Rattle.lg_config.specs.Meaning.Finding.{with_ip};
    ghost use Rattle.lg_config.specs.Meaning.NodeKeys.{own_broken, own_number};
    ghost use Rattle.lg_config.specs.Meaning.Options.{options_of};
    ghost use Rattle.lg_config.specs.Meaning.Seeds.{asked_addrs, seed_hosts};
    ghost use Rattle.lg_config.specs.Meaning.Status.{may_listen};

    /// The number of a key of the node's own.
    pub fn own_number(&self, key: NodeKey) -> u64
        ensures { result ≡ own_number key self.now }
    {
        match key {
            NodeKey::PullMs => self.pull_ms,
            NodeKey::StallMs => self.stall_ms,
            NodeKey::ResolveMs => self.resolve_ms,
            NodeKey::RecordMb => self.record_mb,
        }
    }

    /// Where the node's socket for datagrams is bound: where its file says, or else at the member's address and port.
    /// An address that is to be found has to be known by then ([`with_ip`](NodeConfig::with_ip)).
    pub fn bound_at(&self) -> Addr
        ensures { result ≡ bound_at self.now }
    {
        self.bind.unwrap_or(self.config.addr)
    }

    /// The addresses that the node asks for a table, in the order of its file: those of the seeds at addresses, but for
    /// the member's own address and port, so that all members of a group can have the same seeds.
    pub fn asked(&self) -> ArrayVec<Addr, MAX_SEEDS>
        ensures { result.items ≡ asked_addrs self.now.config.addr self.now.seeds.items }
    {
        asked_among(&self.config.addr, self.seeds.as_slice())
    }

    /// The hosts among the seeds, in the order of the file, each with its port.
    pub fn hosts(&self) -> ArrayVec<Host, MAX_SEEDS>
        ensures { result.items ≡ seed_hosts self.now.seeds.items }
    {
        hosts_among(self.seeds.as_slice())
    }

    /// The same configuration with this IP address of the member's own, once it is found. The dice stay as they are.
    ///
    /// The error is [`FileFault::Family`]: the address is one of IPv6, and `wire` isn't 3.
    pub fn with_ip(self, ip: Ip) -> Result<NodeConfig, FileFault>
        ensures settings { result ≡ with_ip ip self }
        ensures checked { IsChecked self.config → IfOk result (λ node. IsChecked node.config) }
    {
        unless_untold(with_own_ip(self, ip))
    }

    /// The first key of the node's own whose number is out of its range, if there is one.
    fn own_broken(&self) -> Option<NodeKey>
        ensures { result ≡ own_broken self.now }
    {
        NODE_KEYS
            .iter()
            .copied()
            .find(|key| !key.allows(self.own_number(*key)))
    }

    /// The configuration that the bytes of a file and options mean together. An option counts in place of what the file
    /// says of its key, and its text is what stands behind `=` in a file, but a text has no quotes. Without a file the
    /// bytes are empty.
    ///
    /// The file is TOML. Its keys are `name`, which it must have, `address`, `port`, `dice`, `seeds`, the numbers of
    /// [`Config`] but for `first`, and those of [`NodeKey`], by the names of their fields, `record`, `status`,
    /// `status_open`, `leave`, `bind`, `key_file` and `group`. The error is [`ReadFault::File`] with the first of
    /// these: [`FileFault::Syntax`], [`FileFault::Key`], [`FileFault::Value`], [`FileFault::Config`],
    /// [`FileFault::Pull`], [`FileFault::Stall`], [`FileFault::Resolve`], [`FileFault::RecordMb`],
    /// [`FileFault::Status`], [`FileFault::StatusOpen`], [`FileFault::StatusNotLoopback`] and
    /// [`FileFault::KeyFile`]. A [`FileFault::Config`]
    /// whose number is greater than that of `KeyFile` comes behind all of these, and [`FileFault::Leave`],
    /// [`FileFault::Bind`], [`FileFault::Family`] and [`FileFault::Auto`] come last. Or the error is
    /// [`ReadFault::NoMemory`], and then nothing is known of the file.
    ///
    /// Memory is allocated for the table that both spell, and is freed again. For a file of more than
    /// [`MAX_FILE`](crate::MAX_FILE) bytes none is allocated.
    pub fn read(alloc: Global, bytes: &[u8], given: &[Given<'_>]) -> Result<NodeConfig, ReadFault>
        ensures answer { IsAnswer (options_of given.now) bytes.now result }
        ensures checked { IfOk result (λ node. IsChecked node.config) }
        ensures within { IfOk result (λ node. own_broken node ≡ None) }
        ensures guarded { IfOk result (λ node. may_listen node.status node.status_open ≡ true) }
    {
        let table = table_with(alloc, bytes, given)?;
        Ok(meaning_in(&table)?)
    }
}
