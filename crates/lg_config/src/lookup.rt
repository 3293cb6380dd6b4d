//! Looks up values in the table of a file. The table's keys are right.
//!
//! Defined in: `specs/Meaning/Settings.antt`.
//! Tested in: `lg_command_tests/src/config.rt`, `cases/config_probes.case`.
ghost use Rattle.std.specs.Prelude.{◌≡◌};
ghost use Rattle.std.specs.Option.{option_map};
ghost use Rattle.toml.specs.Data.{get_member};
ghost use Rattle.toml.specs.View.{items_view, table_view, view};
ghost use Rattle.lg_config.specs.Meaning.Settings.{integer_at, natural, number_at_key, seeds_at, text_at};

use crate::keys::SEEDS;
use toml::{Table, Value};

/// The value at a key, if there is one.
pub(crate) fn value_at<'a>(table: &'a Table, key: &str) -> Option<&'a Value>
    ensures { option_map (λ value. view value.now) result ≡ get_member key.now (table_view table.now) }
{
    table.get(key)
}

/// The text at a key, if there is one.
pub(crate) fn text_at<'a>(table: &'a Table, key: &str) -> Option<&'a str>
    ensures { option_map (λ text. text.now) result ≡ text_at key.now (table_view table.now) }
{
    match table.get(key) {
        Some(value) => value.as_str(),
        None => None,
    }
}

/// The whole number at a key, if there is one.
pub(crate) fn integer_at(table: &Table, key: &str) -> Option<i64>
    ensures { result ≡ integer_at key.now (table_view table.now) }
{
    match table.get(key) {
        Some(value) => value.as_integer(),
        None => None,
    }
}

/// Turns an i64 into a u64. A negative number becomes u64::MAX, which no key accepts.
fn natural(number: i64) -> u64
    ensures { result ≡ natural number }
{
    u64::try_from(number).unwrap_or(u64::MAX)
}

/// The number at a key, or its default.
pub(crate) fn number_at(table: &Table, key: &str, default: u64) -> u64
    ensures { result ≡ number_at_key key.now default (table_view table.now) }
{
    match integer_at(table, key) {
        Some(number) => natural(number),
        None => default,
    }
}

/// The elements of the array at the key of the seeds. There are none if the key is missing.
pub(crate) fn seeds_at(table: &Table) -> &[Value]
    ensures { items_view result.now ≡ seeds_at (table_view table.now) }
{
    let Some(value) = table.get(SEEDS) else {
        return &[];
    };
    match value.as_array() {
        Some(values) => values.as_slice(),
        None => &[],
    }
}
