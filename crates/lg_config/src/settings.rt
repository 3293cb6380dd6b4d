//! What the table of a file says. The table's keys are right.
//!
//! Defined in: `specs/Meaning/Settings.antt`.
//! Tested in: `lg_command_tests/src/config.rt`, `cases/config_forms.case`.
ghost use Rattle.std.specs.Prelude.{◌≡◌};
ghost use Rattle.toml.specs.View.{table_view};
ghost use Rattle.lg_config.specs.Meaning.Settings.{addr_in, address_text, dice_in, folder_in, name_in, name_text};
ghost use Rattle.lg_config.specs.Meaning.Settings.{ip_of_member, is_auto, own_number_in, port_of_member, settings_of};
ghost use Rattle.lg_config.specs.Meaning.Settings.{with_keys, with_numbers};

use crate::dice::own_dice;
use crate::file_path::FilePath;
use crate::keys::{FILE_KEYS, NAME, RECORD};
use crate::lookup::{integer_at, number_at, seeds_at, text_at};
use crate::node::NodeConfig;
use crate::node_keys::NodeKey;
use crate::seeds::{first_seeds, known_seeds};
use crate::texts::{ip_in, name_in, port_among};
use lg_rules::{Addr, Ip, Name};
use lg_timing::{Config, Key};
use toml::Table;

/// The address of a member, if its file doesn't give one (this project's choice).
pub const DEFAULT_ADDRESS: &str = "127.0.0.1";

/// The port of a member, if its file doesn't give one, and of a seed without a name that gives none (this project's
/// choice).
pub const DEFAULT_PORT: u16 = 7946;

/// The word for an address that is to be found.
const AUTO: &str = "auto";

/// The text of the member's name.
pub(crate) fn name_text(table: &Table) -> &str
    ensures { result.now ≡ name_text (table_view table.now) }
{
    text_at(table, NAME).unwrap_or("")
}

/// The text of the member's address, or its default.
pub(crate) fn address_text(table: &Table) -> &str
    ensures { result.now ≡ address_text (table_view table.now) }
{
    text_at(table, "address").unwrap_or(DEFAULT_ADDRESS)
}

/// The member's name. None if the text is no name.
#[tactic(auto, unfolding(crate::specs::Meaning::Settings::name_in))]
pub(crate) fn name_at(table: &Table) -> Option<Name>
    ensures { result ≡ name_in (table_view table.now) }
{
    name_in(name_text(table).as_bytes())
}

/// Whether the member's address is to be found when its node starts.
fn is_auto(table: &Table) -> bool
    ensures { result ≡ is_auto (table_view table.now) }
{
    address_text(table) == AUTO
}

/// The member's IP address: 0.0.0.0 if it is to be found. None if the address of the table is out of its form.
pub(crate) fn ip_at(table: &Table) -> Option<Ip>
    ensures { result ≡ ip_of_member (table_view table.now) }
{
    if is_auto(table) {
        Some(Ip::V4([0, 0, 0, 0]))
    } else {
        ip_in(address_text(table))
    }
}

/// The member's port. None if the port of the table isn't 1 to 65535.
pub(crate) fn port_at(table: &Table) -> Option<u16>
    ensures { result ≡ port_of_member (table_view table.now) }
{
    port_among(number_at(table, "port", u64::from(DEFAULT_PORT)))
}

/// The member's address. None if the address or the port of the table is out of its form.
#[tactic(auto, unfolding(crate::specs::Meaning::Settings::addr_in))]
fn addr_at(table: &Table) -> Option<Addr>
    ensures { result ≡ addr_in (table_view table.now) }
{
    let ip = ip_at(table)?;
    let port = port_at(table)?;
    Some(Addr { ip, port })
}

/// The number that the dice start from, if the table gives one. The outer None says that it is negative.
#[tactic(auto, unfolding(crate::specs::Meaning::Settings::dice_in))]
pub(crate) fn dice_at(table: &Table) -> Option<Option<u64>>
    ensures { result ≡ dice_in (table_view table.now) }
{
    match integer_at(table, "dice") {
        Some(dice) => Some(Some(u64::try_from(dice).ok()?)),
        None => Some(None),
    }
}

/// The folder of the recording, if the table names one. The outer None says that its text is no path.
#[tactic(auto, unfolding(crate::specs::Meaning::Settings::folder_in))]
pub(crate) fn folder_at(table: &Table) -> Option<Option<FilePath>>
    ensures { result ≡ folder_in (table_view table.now) }
{
    match text_at(table, RECORD) {
        Some(text) => Some(Some(FilePath::of(text)?)),
        None => Some(None),
    }
}

/// A configuration with the numbers that a table gives for some keys. It has its own numbers for the other keys, and
/// for the keys that the table lacks.
fn with_keys(table: &Table, keys: &[Key], usual: Config) -> Config
    ensures { result ≡ with_keys keys.now (table_view table.now) usual }
{
    let mut config = usual;
    for key in keys {
        let number = number_at(table, key.name(), config.number(*key));
        config.set(*key, number);
    }
    config
}

/// A configuration with the numbers that a table gives, and with its own numbers for the keys that the table lacks.
#[tactic(auto, unfolding(crate::specs::Meaning::Settings::with_numbers))]
fn with_numbers(table: &Table, usual: Config) -> Config
    ensures { result ≡ with_numbers (table_view table.now) usual }
{
    with_keys(table, &FILE_KEYS, usual)
}

/// A number of the node's own, or its default.
fn own_number_at(table: &Table, key: NodeKey) -> u64
    ensures { result ≡ own_number_in key (table_view table.now) }
{
    number_at(table, key.name(), key.row().default)
}

/// All that a table says but of the status server, of the key file, of the group, of leaving and of where the socket is
/// bound, and of its seeds only the first 16. None if a value is out of its form.
#[tactic(auto, unfolding(crate::specs::Meaning::Settings::settings_of))]
pub(crate) fn settings_in(table: &Table) -> Option<NodeConfig>
    ensures { result ≡ settings_of (table_view table.now) }
{
    let name = name_at(table)?;
    let addr = addr_at(table)?;
    let dice = dice_at(table)?;
    let record_folder = folder_at(table)?;
    let seeds = first_seeds(seeds_at(table))?;
    let dice = dice.unwrap_or(own_dice(&name, &addr));
    let config = with_numbers(table, Config::new(name, addr));
    let known = known_seeds(seeds.as_slice());
    let config = Config {
        seeds: known,
        ..config
    };
    Some(NodeConfig {
        config,
        dice,
        pull_ms: own_number_at(table, NodeKey::PullMs),
        stall_ms: own_number_at(table, NodeKey::StallMs),
        resolve_ms: own_number_at(table, NodeKey::ResolveMs),
        record_mb: own_number_at(table, NodeKey::RecordMb),
        record_folder,
        auto: is_auto(table),
        status: None,
        status_open: false,
        key_file: None,
        leave: true,
        bind: None,
        seeds,
    })
}
