//! Says in words which number of a file is out of its range.
//!
//! Defined in: `specs/Meaning/Ranges.antt`.
//! Tested in: `cases/config_reasons.case`, `cases/config_own.case`.
ghost use Rattle.std.specs.Prelude.{◌≡◌, IfOk, string_bytes};
ghost use Rattle.toml.specs.View.{table_view};
ghost use Rattle.lg_config.specs.Meaning.Ranges.{dice_reason, given_text, member_reason, most_allowed, own_reason};
ghost use Rattle.lg_config.specs.Meaning.Ranges.{port_reason, range_reason, zero_words};

use crate::dice::MAX_DICE;
use crate::lookup::{integer_at, number_at};
use crate::node_keys::NodeKey;
use crate::settings::DEFAULT_PORT;
use lg_timing::Key;
use std::alloc::{AllocError, Global};
use toml::Table;

/// What a key allows, and the number of a file that lacks it.
#[derive(Clone, Copy, Debug)]
pub(crate) struct Allowed {
    /// The least number.
    least: u64,
    /// The greatest number.
    most: u64,
    /// The number of a file that lacks the key.
    default: u64,
    /// Whether 0 is allowed too, and turns off what the key is about.
    off: bool,
}

/// A number as its file gives it, or else its default.
pub(crate) fn given_text(
    alloc: Global,
    given: Option<i64>,
    default: u64,
) -> Result<String, AllocError>
    ensures { IfOk result (λ text. string_bytes text ≡ given_text given default) }
{
    match given {
        Some(number) => format!(in alloc; "{number}"),
        None => format!(in alloc; "{default} by default"),
    }
}

/// The words before a range: they say that 0 is allowed too, if it turns off what the key is about.
fn zero_words(off: bool) -> &'static str
    ensures { result.now ≡ zero_words off }
{
    if off { "0 or " } else { "" }
}

/// The reason of a number that is out of its range.
fn range_reason(
    alloc: Global,
    key: &str,
    allowed: Allowed,
    table: &Table,
) -> Result<String, AllocError>
    ensures { IfOk result (λ text. string_bytes text ≡ range_reason key.now allowed (table_view table.now)) }
{
    let given = given_text(alloc, integer_at(table, key), allowed.default)?;
    let (least, most) = (allowed.least, allowed.most);
    let zero = zero_words(allowed.off);
    format!(in alloc; "{key} is {given}, and has to be {zero}from {least} to {most}\n")
}

/// The greatest number that a table allows for a key of the member's.
fn most_allowed(key: Key, table: &Table) -> u64
    ensures { result ≡ most_allowed key (table_view table.now) }
{
    match key {
        Key::TimeoutMs => {
            let interval = Key::IntervalMs;
            number_at(table, interval.name(), interval.row().default).saturating_sub(1)
        }
        _ => key.row().most,
    }
}

/// The reason of a number of the member's.
pub(crate) fn member_reason(alloc: Global, key: Key, table: &Table) -> Result<String, AllocError>
    ensures { IfOk result (λ text. string_bytes text ≡ member_reason key (table_view table.now)) }
{
    let row = key.row();
    let allowed = Allowed {
        least: row.least,
        most: most_allowed(key, table),
        default: row.default,
        off: row.off,
    };
    range_reason(alloc, key.name(), allowed, table)
}

/// The reason of a number of the node's own.
pub(crate) fn own_reason(alloc: Global, key: NodeKey, table: &Table) -> Result<String, AllocError>
    ensures { IfOk result (λ text. string_bytes text ≡ own_reason key (table_view table.now)) }
{
    let row = key.row();
    let allowed = Allowed {
        least: row.least,
        most: row.most,
        default: row.default,
        off: false,
    };
    range_reason(alloc, key.name(), allowed, table)
}

/// The reason of a port that is none.
pub(crate) fn port_reason(alloc: Global, table: &Table) -> Result<String, AllocError>
    ensures { IfOk result (λ text. string_bytes text ≡ port_reason (table_view table.now)) }
{
    let allowed = Allowed {
        least: 1,
        most: u64::from(u16::MAX),
        default: u64::from(DEFAULT_PORT),
        off: false,
    };
    range_reason(alloc, "port", allowed, table)
}

/// The reason of dice that are negative.
pub(crate) fn dice_reason(alloc: Global, table: &Table) -> Result<String, AllocError>
    ensures { IfOk result (λ text. string_bytes text ≡ dice_reason (table_view table.now)) }
{
    let allowed = Allowed {
        least: 0,
        most: MAX_DICE,
        // Dice that aren't given aren't negative.
        default: 0,
        off: false,
    };
    range_reason(alloc, "dice", allowed, table)
}
