//! What the table of a file says of the group of members that its member belongs to.
//!
//! Defined in: `specs/Meaning/Groups.antt`.
//! Tested in: `cases/config_group.case`, `lg_command_tests/src/config.rt`.
ghost use Rattle.std.specs.Prelude.{◌≡◌};
ghost use Rattle.toml.specs.View.{table_view};
ghost use Rattle.lg_config.specs.Meaning.Groups.{group_in, with_group};

use crate::fault::FileFault;
use crate::keys::GROUP;
use crate::lookup::text_at;
use crate::node::NodeConfig;
use crate::texts::name_in;
use lg_rules::Name;
use lg_timing::ConfigFault;
use toml::Table;

/// The group. None if the table lacks the key.
fn group_at(table: &Table) -> Result<Option<Name>, FileFault>
    ensures { result ≡ group_in (table_view table.now) }
{
    let Some(text) = text_at(table, GROUP) else {
        return Ok(None);
    };
    match name_in(text.as_bytes()) {
        Some(name) => Ok(Some(name)),
        None => Err(FileFault::Config(ConfigFault::Group)),
    }
}

/// Settings with the group that their table gives, or its fault if it is no name.
pub(crate) fn with_group(table: &Table, node: NodeConfig) -> Result<NodeConfig, FileFault>
    ensures { result ≡ with_group node (group_in (table_view table.now)) }
{
    let group = group_at(table)?;
    let mut grouped = node;
    grouped.config.group = group;
    Ok(grouped)
}
