//! Says in words what is wrong with where a file has the node's socket for datagrams bound.
//!
//! Defined in: `specs/Meaning/BindReasons.antt`.
//! Tested in: `cases/config_bind.case`.
ghost use Rattle.std.specs.Prelude.{◌≡◌, IfOk, string_bytes};
ghost use Rattle.toml.specs.Data.{as_str};
ghost use Rattle.toml.specs.View.{table_view, view};
ghost use Rattle.lg_config.specs.Meaning.BindReasons.{bind_reason, no_place_reason};

use crate::key_reasons::type_reason;
use crate::keys::BIND;
use crate::lookup::value_at;
use crate::quoting::quoted;
use std::alloc::{AllocError, Global};
use toml::{Table, Value};

/// The reason of a value that is no address.
fn no_place_reason(alloc: Global, value: &Value) -> Result<String, AllocError>
    ensures { IfOk result (λ text. string_bytes text ≡ no_place_reason (view value.now) (as_str (view value.now))) }
{
    let Some(text) = value.as_str() else {
        return type_reason(alloc, "string", BIND, value);
    };
    let quote = quoted(alloc, text.as_bytes())?;
    format!(in alloc;
        "bind is {quote}, and has to be A.B.C.D or A.B.C.D:PORT, A to D without leading zeros, or IPv6\n"
    )
}

/// The reason of the value at the key, which is no address.
pub(crate) fn bind_reason(alloc: Global, table: &Table) -> Result<String, AllocError>
    ensures { IfOk result (λ text. string_bytes text ≡ bind_reason (table_view table.now)) }
{
    match value_at(table, BIND) {
        Some(value) => no_place_reason(alloc, value),
        None => String::from_str(alloc, "the key bind is missing\n"),
    }
}
