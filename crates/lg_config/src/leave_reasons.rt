//! Says in words what is wrong with the value by which a file says whether a request may end the node.
//!
//! Defined in: `specs/Meaning/LeaveReasons.antt`.
//! Tested in: `cases/config_leave.case`.
ghost use Rattle.std.specs.Prelude.{◌≡◌, IfOk, string_bytes};
ghost use Rattle.toml.specs.Data.{as_str};
ghost use Rattle.toml.specs.View.{table_view, view};
ghost use Rattle.lg_config.specs.Meaning.LeaveReasons.{leave_reason, no_switch_reason};

use crate::key_reasons::type_reason;
use crate::keys::LEAVE;
use crate::lookup::value_at;
use crate::quoting::quoted;
use std::alloc::{AllocError, Global};
use toml::{Table, Value};

/// The reason of a value that says neither on nor off.
fn no_switch_reason(alloc: Global, value: &Value) -> Result<String, AllocError>
    ensures { IfOk result (λ text. string_bytes text ≡ no_switch_reason (view value.now) (as_str (view value.now))) }
{
    let Some(text) = value.as_str() else {
        return type_reason(alloc, "string", LEAVE, value);
    };
    let quote = quoted(alloc, text.as_bytes())?;
    format!(in alloc; "leave is {quote}, and has to be \"on\" or \"off\"\n")
}

/// The reason of the value at the key, which says neither on nor off.
pub(crate) fn leave_reason(alloc: Global, table: &Table) -> Result<String, AllocError>
    ensures { IfOk result (λ text. string_bytes text ≡ leave_reason (table_view table.now)) }
{
    match value_at(table, LEAVE) {
        Some(value) => no_switch_reason(alloc, value),
        None => String::from_str(alloc, "the key leave is missing\n"),
    }
}
