//! What the table of a file says of where the node's socket for datagrams is bound.
//!
//! Defined in: `specs/Meaning/Binding.antt`.
//! Tested in: `cases/config_bind.case`, `lg_command_tests/src/config.rt`.
ghost use Rattle.std.specs.Prelude.{◌≡◌};
ghost use Rattle.toml.specs.View.{table_view, view};
ghost use Rattle.lg_config.specs.Meaning.Binding.{bind_in, bind_of_value, with_bind};

use crate::fault::FileFault;
use crate::keys::BIND;
use crate::lookup::value_at;
use crate::node::NodeConfig;
use crate::texts::address_with_port;
use lg_rules::Addr;
use toml::{Table, Value};

/// The address that a value spells, if it is a text. It has this port if no port stands behind it.
fn bind_of_value(value: &Value, port: u16) -> Option<Addr>
    ensures { result ≡ bind_of_value port (view value.now) }
{
    address_with_port(value.as_str()?.as_bytes(), port)
}

/// Where the socket is bound, by the member's port. None if the table lacks the key.
fn bind_at(table: &Table, port: u16) -> Result<Option<Addr>, FileFault>
    ensures { result ≡ bind_in port (table_view table.now) }
{
    let Some(value) = value_at(table, BIND) else {
        return Ok(None);
    };
    match bind_of_value(value, port) {
        Some(addr) => Ok(Some(addr)),
        None => Err(FileFault::Bind),
    }
}

/// Settings with where their table has the socket bound, or the fault of that place.
pub(crate) fn with_bind(table: &Table, node: NodeConfig) -> Result<NodeConfig, FileFault>
    ensures { result ≡ with_bind node (bind_in node.config.addr.port (table_view table.now)) }
{
    let bind = bind_at(table, node.config.addr.port)?;
    Ok(NodeConfig { bind, ..node })
}
