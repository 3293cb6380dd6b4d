//! Says in words what is wrong with the status server that a file wants.
//!
//! Defined in: `specs/Meaning/StatusReasons.antt`.
//! Tested in: `cases/config_status.case`.
ghost use Rattle.std.specs.Prelude.{◌≡◌, IfOk, string_bytes};
ghost use Rattle.toml.specs.Data.{as_str};
ghost use Rattle.toml.specs.View.{table_view, view};
ghost use Rattle.lg_config.specs.Meaning.StatusReasons.{loopback_reason, no_address_reason, open_reason};
ghost use Rattle.lg_config.specs.Meaning.StatusReasons.{status_reason, status_addr_text};

use crate::key_reasons::type_reason;
use crate::keys::{STATUS, STATUS_OPEN};
use crate::lookup::{text_at, value_at};
use crate::quoting::quoted;
use std::alloc::{AllocError, Global};
use toml::{Table, Value};

/// The reason of a value that is no address with its port.
fn no_address_reason(alloc: Global, value: &Value) -> Result<String, AllocError>
    ensures { IfOk result (λ text. string_bytes text ≡ no_address_reason (view value.now) (as_str (view value.now))) }
{
    let Some(text) = value.as_str() else {
        return type_reason(alloc, "string", STATUS, value);
    };
    let quote = quoted(alloc, text.as_bytes())?;
    format!(in alloc;
        "status is {quote}, and has to be A.B.C.D:PORT, A to D without leading zeros, or [IPv6]:PORT\n"
    )
}

/// The reason of a status server's address that is none.
pub(crate) fn status_reason(alloc: Global, table: &Table) -> Result<String, AllocError>
    ensures { IfOk result (λ text. string_bytes text ≡ status_reason (table_view table.now)) }
{
    match value_at(table, STATUS) {
        Some(value) => no_address_reason(alloc, value),
        None => String::from_str(alloc, "the key status is missing\n"),
    }
}

/// The reason of a value that is no boolean.
pub(crate) fn open_reason(alloc: Global, table: &Table) -> Result<String, AllocError>
    ensures { IfOk result (λ text. string_bytes text ≡ open_reason (table_view table.now)) }
{
    match value_at(table, STATUS_OPEN) {
        Some(value) => type_reason(alloc, "boolean", STATUS_OPEN, value),
        None => String::from_str(alloc, "the key status_open is missing\n"),
    }
}

/// The text of the status server's address.
fn status_addr_text(table: &Table) -> &str
    ensures { result.now ≡ status_addr_text (table_view table.now) }
{
    text_at(table, STATUS).unwrap_or("")
}

/// The reason of an address that isn't loopback.
pub(crate) fn loopback_reason(alloc: Global, table: &Table) -> Result<String, AllocError>
    ensures { IfOk result (λ text. string_bytes text ≡ loopback_reason (table_view table.now)) }
{
    let quote = quoted(alloc, status_addr_text(table).as_bytes())?;
    format!(in alloc;
        "status is {quote}, and has to be in 127.0.0.0/8 or ::1 if status_open isn't true\n"
    )
}
