//! What the table of a file says of the status server: where it listens, and whether it may listen there.
//!
//! Defined in: `specs/Meaning/Status.antt`.
//! Tested in: `cases/config_status.case`, `lg_command_tests/src/config.rt`.
ghost use Rattle.std.specs.Prelude.{◌≡◌};
ghost use Rattle.toml.specs.View.{table_view, view};
ghost use Rattle.lg_config.specs.Meaning.Status.{address_of_value, may_listen};
ghost use Rattle.lg_config.specs.Meaning.Status.{open_in, status_addr_in, with_status};

use crate::fault::FileFault;
use crate::keys::{STATUS, STATUS_OPEN};
use crate::lookup::value_at;
use crate::node::NodeConfig;
use crate::texts::address_in;
use lg_rules::Addr;
use toml::{Table, Value};

/// The address with its port that a value spells, if it is a text.
fn address_of_value(value: &Value) -> Option<Addr>
    ensures { result ≡ address_of_value (view value.now) }
{
    address_in(value.as_str()?.as_bytes())
}

/// Where the server listens. None if the table lacks the key.
fn status_addr_at(table: &Table) -> Result<Option<Addr>, FileFault>
    ensures { result ≡ status_addr_in (table_view table.now) }
{
    let Some(value) = value_at(table, STATUS) else {
        return Ok(None);
    };
    match address_of_value(value) {
        Some(addr) => Ok(Some(addr)),
        None => Err(FileFault::Status),
    }
}

/// Whether the server may listen at an address that isn't loopback. It may not if the table lacks the key.
fn open_at(table: &Table) -> Result<bool, FileFault>
    ensures { result ≡ open_in (table_view table.now) }
{
    match value_at(table, STATUS_OPEN) {
        Some(value) => value.as_bool().ok_or(FileFault::StatusOpen),
        None => Ok(false),
    }
}

/// Whether a server may listen there, by whether it may listen at an address that isn't loopback.
fn may_listen(status: Option<Addr>, is_open: bool) -> bool
    ensures { result ≡ may_listen status is_open }
{
    match status {
        Some(addr) => is_open || addr.ip.is_loopback(),
        None => true,
    }
}

/// Settings with what their table says of the server, or its first fault.
pub(crate) fn with_status(table: &Table, node: NodeConfig) -> Result<NodeConfig, FileFault>
    ensures { result ≡ with_status node (status_addr_in (table_view table.now)) (open_in (table_view table.now)) }
{
    let status = status_addr_at(table)?;
    let status_open = open_at(table)?;
    if !may_listen(status, status_open) {
        return Err(FileFault::StatusNotLoopback);
    }
    Ok(NodeConfig {
        status,
        status_open,
        ..node
    })
}
