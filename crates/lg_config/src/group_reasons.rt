//! Says in words why a member can't belong to the group that its file gives.
//!
//! Defined in: `specs/Meaning/GroupReasons.antt`.
//! Tested in: `cases/config_group.case`.
ghost use Rattle.std.specs.Prelude.{◌≡◌, IfOk, string_bytes};
ghost use Rattle.toml.specs.View.{table_view};
ghost use Rattle.lg_config.specs.Meaning.GroupReasons.{group_name_reason, group_reason, group_text, group_wire_reason};

use crate::keys::GROUP;
use crate::lookup::{integer_at, text_at};
use crate::quoting::quoted;
use crate::ranges::given_text;
use crate::texts::name_in;
use lg_timing::Key;
use std::alloc::{AllocError, Global};
use toml::Table;

/// The text of the group.
fn group_text(table: &Table) -> &str
    ensures { result.now ≡ group_text (table_view table.now) }
{
    text_at(table, GROUP).unwrap_or("")
}

/// The reason of a group that is no name.
fn group_name_reason(alloc: Global, table: &Table) -> Result<String, AllocError>
    ensures { IfOk result (λ text. string_bytes text ≡ group_name_reason (table_view table.now)) }
{
    let quote = quoted(alloc, group_text(table).as_bytes())?;
    format!(in alloc; "group is {quote}, and has to be 1 to 32 of A-Z a-z 0-9 . _ -\n")
}

/// The reason of a member of a group that sends packets of version 1 or 2.
fn group_wire_reason(alloc: Global, table: &Table) -> Result<String, AllocError>
    ensures { IfOk result (λ text. string_bytes text ≡ group_wire_reason (table_view table.now)) }
{
    let wire = integer_at(table, Key::Wire.name());
    let given = given_text(alloc, wire, Key::Wire.row().default)?;
    format!(in alloc; "wire is {given}, and has to be 3 for a member of a group\n")
}

/// The reason of a group to which the member can't belong.
#[tactic(auto, unfolding(crate::specs::Meaning::GroupReasons::group_reason))]
pub(crate) fn group_reason(alloc: Global, table: &Table) -> Result<String, AllocError>
    ensures { IfOk result (λ text. string_bytes text ≡ group_reason (table_view table.now)) }
{
    if name_in(group_text(table).as_bytes()).is_none() {
        return group_name_reason(alloc, table);
    }
    group_wire_reason(alloc, table)
}
