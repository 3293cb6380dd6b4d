//! Says in words which key of a file is wrong.
//!
//! Defined in: `specs/Meaning/KeyReasons.antt`.
//! Tested in: `cases/config_reasons.case`.
ghost use Rattle.std.specs.Prelude.{◌≡◌, IfOk, string_bytes};
ghost use Rattle.std.specs.Option.{option_map};
ghost use Rattle.toml.specs.View.{table_view, view};
ghost use Rattle.lg_config.specs.Meaning.KeyReasons.{unknown_with, wrong_key_reason};
ghost use Rattle.lg_config.specs.Meaning.KeyReasons.{key_reason, type_reason, unknown_reason, wanted_type};

use crate::keys::{Kind, is_of_kind, kind_of};
use crate::nearest::nearest_key;
use crate::quoting::quoted;
use std::alloc::{AllocError, Global};
use toml::{Table, Value};

/// The TOML type that a kind of key wants.
fn wanted_type(kind: Kind) -> &'static str
    ensures { result.now ≡ wanted_type kind }
{
    match kind {
        Kind::Text => "string",
        Kind::Number => "integer",
        Kind::Texts => "array of strings",
        Kind::Any => "any",
    }
}

/// The reason of a key whose value isn't of the type that it wants.
pub(crate) fn type_reason(
    alloc: Global,
    wanted: &str,
    key: &str,
    value: &Value,
) -> Result<String, AllocError>
    ensures { IfOk result (λ text. string_bytes text ≡ type_reason wanted.now key.now (view value.now)) }
{
    let given = value.type_str();
    format!(in alloc; "{key} is of type {given}, and has to be of type {wanted}\n")
}

/// The reason of a key that is unknown, given the known key that is nearest to it, if one is near.
fn unknown_with(alloc: Global, key: &str, nearest: Option<&str>) -> Result<String, AllocError>
    ensures { IfOk result (λ text. string_bytes text
        ≡ unknown_with key.now (option_map (λ known. known.now) nearest.entry)) }
{
    let quote = quoted(alloc, key.as_bytes())?;
    match nearest {
        Some(known) => format!(in alloc;
            "the key {quote} is unknown, and the nearest is \"{known}\"\n"
        ),
        None => format!(in alloc; "the key {quote} is unknown\n"),
    }
}

/// The reason of a key that is unknown. It names the known key that is nearest, if one is near.
fn unknown_reason(alloc: Global, key: &str) -> Result<String, AllocError>
    ensures { IfOk result (λ text. string_bytes text ≡ unknown_reason key.now) }
{
    let nearest = nearest_key(alloc, key.as_bytes())?;
    unknown_with(alloc, key, nearest)
}

/// The reason of a key that is wrong.
fn wrong_key_reason(
    alloc: Global,
    kind: Option<Kind>,
    key: &str,
    value: &Value,
) -> Result<String, AllocError>
    ensures { IfOk result (λ text. string_bytes text ≡ wrong_key_reason kind key.now (view value.now)) }
{
    match kind {
        Some(kind) => type_reason(alloc, wanted_type(kind), key, value),
        None => unknown_reason(alloc, key),
    }
}

/// The reason of a table with wrong keys: the first that is wrong, in the order of their bytes, or that the name is
/// missing.
pub(crate) fn key_reason(alloc: Global, table: &Table) -> Result<String, AllocError>
    ensures { IfOk result (λ text. string_bytes text ≡ key_reason (table_view table.now)) }
{
    for (key, value) in table.iter() {
        let kind = kind_of(key.as_str());
        if !is_of_kind(kind, value) {
            return wrong_key_reason(alloc, kind, key.as_str(), value);
        }
    }
    String::from_str(alloc, "the key name is missing\n")
}
