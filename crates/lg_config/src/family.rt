//! Whether packets of the member's version can tell the member's own address.
//!
//! Defined in: `specs/Meaning/Families.antt`.
//! Tested in: `cases/config_ipv6.case`, `lg_command_tests/src/config.rt`.
ghost use Rattle.std.specs.Prelude.{◌≡◌, IfOk, string_bytes};
ghost use Rattle.toml.specs.View.{table_view};
ghost use Rattle.lg_config.specs.Meaning.Families.{family_reason, unless_untold};

use crate::fault::FileFault;
use crate::lookup::integer_at;
use crate::node::NodeConfig;
use crate::ranges::given_text;
use lg_timing::Key;
use std::alloc::{AllocError, Global};
use toml::Table;

/// Settings, or the fault that packets of their version can't tell the member's own address.
pub(crate) fn unless_untold(node: NodeConfig) -> Result<NodeConfig, FileFault>
    ensures { result ≡ unless_untold node }
{
    if node.config.version().tells(&node.config.addr) {
        Ok(node)
    } else {
        Err(FileFault::Family)
    }
}

/// The reason of a member with an IPv6 address that sends packets of version 1 or 2.
pub(crate) fn family_reason(alloc: Global, table: &Table) -> Result<String, AllocError>
    ensures { IfOk result (λ text. string_bytes text ≡ family_reason (table_view table.now)) }
{
    let wire = integer_at(table, Key::Wire.name());
    let given = given_text(alloc, wire, Key::Wire.row().default)?;
    format!(in alloc; "wire is {given}, and has to be 3 for a member with an IPv6 address\n")
}
