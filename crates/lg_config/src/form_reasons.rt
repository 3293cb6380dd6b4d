//! Says in words which value of a file is out of its form, and why its seeds don't go together.
//!
//! Defined in: `specs/Meaning/FormReasons.antt`.
//! Tested in: `cases/config_reasons.case`.
ghost use Rattle.std.specs.Prelude.{◌≡◌, IfOk, string_bytes};
ghost use Rattle.toml.specs.View.{items_view, table_view};
ghost use Rattle.lg_config.specs.Meaning.FormReasons.{value_reason};
ghost use Rattle.lg_config.specs.Meaning.Seeds.{shared_name};
ghost use Rattle.lg_config.specs.Meaning.FormReasons.{address_reason, bad_seed, few_names, few_seeds_reason};
ghost use Rattle.lg_config.specs.Meaning.FormReasons.{many_seeds_reason, name_reason, seed_reason, seeds_reason};
ghost use Rattle.lg_config.specs.Meaning.FormReasons.{path_reason, path_text};

use crate::keys::RECORD;
use crate::lookup::{seeds_at, text_at};
use crate::names::shared_name;
use crate::quoting::quoted;
use crate::ranges::{dice_reason, port_reason};
use crate::seeds::{first_seeds, names_among, seed_of_value};
use crate::settings::{address_text, dice_at, folder_at, ip_at, name_at, name_text, port_at};
use lg_rules::Name;
use lg_timing::MAX_SEEDS;
use std::alloc::{AllocError, Global};
use toml::{Table, Value};

/// The first text of some values that is no seed. It is empty if each is one.
fn bad_seed(values: &[Value]) -> &str
    ensures { result.now ≡ bad_seed (items_view values.now) }
{
    for value in values {
        if seed_of_value(value).is_none() {
            return value.as_str().unwrap_or("");
        }
    }
    ""
}

/// The reason of a name that is none.
fn name_reason(alloc: Global, table: &Table) -> Result<String, AllocError>
    ensures { IfOk result (λ text. string_bytes text ≡ name_reason (table_view table.now)) }
{
    let quote = quoted(alloc, name_text(table).as_bytes())?;
    format!(in alloc; "name is {quote}, and has to be 1 to 32 of A-Z a-z 0-9 . _ -\n")
}

/// The reason of an address that is none.
fn address_reason(alloc: Global, table: &Table) -> Result<String, AllocError>
    ensures { IfOk result (λ text. string_bytes text ≡ address_reason (table_view table.now)) }
{
    let quote = quoted(alloc, address_text(table).as_bytes())?;
    format!(in alloc;
        "address is {quote}, and has to be A.B.C.D, each from 0 to 255 without leading zeros, or IPv6, or auto\n"
    )
}

/// The reason of a seed that is none.
fn seed_reason(alloc: Global, table: &Table) -> Result<String, AllocError>
    ensures { IfOk result (λ text. string_bytes text ≡ seed_reason (table_view table.now)) }
{
    let quote = quoted(alloc, bad_seed(seeds_at(table)).as_bytes())?;
    format!(in alloc;
        "the seed {quote} has to be NAME@A.B.C.D:PORT, A.B.C.D:PORT or A.B.C.D, no leading zeros, IPv6 or a host\n"
    )
}

/// The text at a key. It is empty if the table lacks the key.
fn path_text<'a>(table: &'a Table, key: &str) -> &'a str
    ensures { result.now ≡ path_text key.now (table_view table.now) }
{
    text_at(table, key).unwrap_or("")
}

/// The reason of a text at a key that is no path.
pub(crate) fn path_reason(alloc: Global, key: &str, table: &Table) -> Result<String, AllocError>
    ensures { IfOk result (λ text. string_bytes text ≡ path_reason key.now (table_view table.now)) }
{
    let quote = quoted(alloc, path_text(table, key).as_bytes())?;
    format!(in alloc; "{key} is {quote}, and has to have 1 to 255 bytes of printable ASCII\n")
}

/// The reason of a value that is out of its form.
#[tactic(auto, unfolding(crate::specs::Meaning::FormReasons::value_reason))]
pub(crate) fn value_reason(alloc: Global, table: &Table) -> Result<String, AllocError>
    ensures { IfOk result (λ text. string_bytes text ≡ value_reason (table_view table.now)) }
{
    if name_at(table).is_none() {
        return name_reason(alloc, table);
    }
    if ip_at(table).is_none() {
        return address_reason(alloc, table);
    }
    if port_at(table).is_none() {
        return port_reason(alloc, table);
    }
    if dice_at(table).is_none() {
        return dice_reason(alloc, table);
    }
    if folder_at(table).is_none() {
        return path_reason(alloc, RECORD, table);
    }
    seed_reason(alloc, table)
}

/// The reason of a few seeds that don't go together, by a name that two of them have.
fn few_seeds_reason(alloc: Global, shared: Option<Name>) -> Result<String, AllocError>
    ensures { IfOk result (λ text. string_bytes text ≡ few_seeds_reason shared) }
{
    let Some(name) = shared else {
        return String::from_str(alloc, "a seed has the member's own name\n");
    };
    let quote = quoted(alloc, name.as_bytes())?;
    format!(in alloc; "two seeds have the name {quote}\n")
}

/// The reason of too many seeds.
fn many_seeds_reason(alloc: Global, count: usize) -> Result<String, AllocError>
    ensures { IfOk result (λ text. string_bytes text ≡ many_seeds_reason count) }
{
    format!(in alloc; "there are {count} seeds, and at most 16 are allowed\n")
}

/// The name that two of the first 16 seeds have that some values spell.
fn name_shared_by(values: &[Value]) -> Option<Name>
    ensures { result ≡ shared_name (few_names (items_view values.now)) }
{
    match first_seeds(values) {
        Some(seeds) => {
            let names = names_among(seeds.as_slice());
            shared_name(names.as_slice())
        }
        None => None,
    }
}

/// The reason of seeds that don't go together, given the values that spell them.
pub(crate) fn seeds_reason(alloc: Global, values: &[Value]) -> Result<String, AllocError>
    ensures { IfOk result (λ text. string_bytes text ≡ seeds_reason (items_view values.now)) }
{
    if values.len() > MAX_SEEDS {
        return many_seeds_reason(alloc, values.len());
    }
    few_seeds_reason(alloc, name_shared_by(values))
}
