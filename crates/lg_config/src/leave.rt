//! What the table of a file says of leaving: whether a request may end the node.
//!
//! Defined in: `specs/Meaning/Leaves.antt`.
//! Tested in: `cases/config_leave.case`, `lg_command_tests/src/config.rt`.
ghost use Rattle.std.specs.Prelude.{◌≡◌};
ghost use Rattle.toml.specs.View.{table_view, view};
ghost use Rattle.lg_config.specs.Meaning.Leaves.{leave_in, switch_of_text, switch_of_value, with_leave};

use crate::fault::FileFault;
use crate::keys::LEAVE;
use crate::lookup::value_at;
use crate::node::NodeConfig;
use toml::{Table, Value};

/// Whether a text says that something is on. None if it says neither that it is on nor that it is off.
fn switch_in(text: &str) -> Option<bool>
    ensures { result ≡ switch_of_text text.now }
{
    match text {
        "on" => Some(true),
        "off" => Some(false),
        _ => None,
    }
}

/// The same of a value, if it is a text.
fn switch_of_value(value: &Value) -> Option<bool>
    ensures { result ≡ switch_of_value (view value.now) }
{
    switch_in(value.as_str()?)
}

/// Whether a request may end the node. It may if the table lacks the key.
fn leave_at(table: &Table) -> Result<bool, FileFault>
    ensures { result ≡ leave_in (table_view table.now) }
{
    match value_at(table, LEAVE) {
        Some(value) => switch_of_value(value).ok_or(FileFault::Leave),
        None => Ok(true),
    }
}

/// Settings with whether their table lets a request end the node, or the fault of the value that says so.
pub(crate) fn with_leave(table: &Table, node: NodeConfig) -> Result<NodeConfig, FileFault>
    ensures { result ≡ with_leave node (leave_in (table_view table.now)) }
{
    let leave = leave_at(table)?;
    Ok(NodeConfig { leave, ..node })
}
