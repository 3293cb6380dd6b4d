//! What options of a command line give for the keys of a configuration, and how it is put into the table of a file.
//!
//! Defined in: `specs/Meaning/Options.antt`.
//! Tested in: `cases/options.case`, `lg_command_tests/src/config.rt`, `lg_command_refusals/src/config.rt`.
ghost use Rattle.std.specs.Prelude.{◌≡◌, ◌++◌, IfOk, OnOk, map};
ghost use Rattle.toml.specs.Data.{string};
ghost use Rattle.toml.specs.View.{table_view, view};
ghost use Rattle.lg_config.specs.Meaning.Options.{given_value, is_number_kind, is_spelled, option_of, options_of};
ghost use Rattle.lg_config.specs.Meaning.Options.{put_member, put_option, put_options, put_seeds, seed_given};
ghost use Rattle.lg_config.specs.Meaning.Options.{seeds_given, spelled_value, with_options};

use crate::keys::{Kind, SEEDS, STATUS_OPEN, kind_of};
use std::alloc::{AllocError, Global};
use toml::{Table, Value};

/// A key of a configuration with the text that an option gives for it. The key `seeds` may be given several times, once
/// for each seed. Of another key that is given twice the last text counts.
#[derive(Clone, Copy, Debug)]
pub struct Given<'a> {
    /// The key, which may be unknown. That is then a fault of the configuration.
    pub key: &'a str,
    /// What stands behind `=` in a file, but a text has no quotes.
    pub text: &'a str,
}

/// What a configuration is read from: a file and options, neither of which has to be there.
#[derive(Clone, Copy, Debug)]
pub struct Source<'a> {
    /// The path of the file, which may name none. Without it, the file is an empty document.
    pub file: Option<&'a str>,
    /// What options give. It counts in place of what the file says of the same key.
    pub given: &'a [Given<'a>],
}

/// Whether a key of this kind has a number.
fn is_number_kind(kind: Option<Kind>) -> bool
    ensures { result ≡ is_number_kind kind }
{
    matches!(kind, Some(Kind::Number))
}

/// Whether the text for a key is spelled as in a file: if the key's value is a number, or says whether something is
/// true. Each other text stands for itself.
fn is_spelled(key: &str) -> bool
    ensures { result ≡ is_spelled key.now }
{
    key == STATUS_OPEN || is_number_kind(kind_of(key))
}

/// A text as a value.
fn text_value(alloc: Global, text: &str) -> Result<Value, AllocError>
    ensures { IfOk result (λ value. view value ≡ string text.now) }
{
    let text = String::from_str(alloc, text)?;
    Ok(Value::String(text))
}

/// The value that a text spells in a file. One that spells none stands for itself.
fn spelled_value(alloc: Global, text: &str) -> Result<Value, AllocError>
    ensures { IfOk result (λ value. view value ≡ spelled_value text.now) }
{
    match Value::from_str(alloc, text) {
        Ok(value) => Ok(value),
        Err(error) if error.is_memory() => Err(AllocError),
        Err(_) => text_value(alloc, text),
    }
}

/// The value that a text for a key gives.
fn given_value(alloc: Global, key: &str, text: &str) -> Result<Value, AllocError>
    ensures { IfOk result (λ value. view value ≡ given_value key.now text.now) }
{
    if is_spelled(key) {
        spelled_value(alloc, text)
    } else {
        text_value(alloc, text)
    }
}

/// Puts a value into a table, in place of the one that is at its key.
fn put_member(alloc: Global, key: &str, value: Value, table: &mut Table) -> Result<(), AllocError>
    ensures { OnOk result (table_view table.new ≡ put_member key.now (view value) (table_view table.old)) }
{
    let key = String::from_str(alloc, key)?;
    table.insert(key, value)?;
    Ok(())
}

/// Puts what an option gives into a table, if it is of no seed.
fn put_option(alloc: Global, given: &Given<'_>, table: &mut Table) -> Result<(), AllocError>
    ensures { OnOk result (table_view table.new ≡ put_option (option_of given.now) (table_view table.old)) }
{
    if given.key == SEEDS {
        return Ok(());
    }
    let value = given_value(alloc, given.key, given.text)?;
    put_member(alloc, given.key, value, table)
}

/// Puts what some options give into a table, but for seeds.
fn put_options(alloc: Global, given: &[Given<'_>], table: &mut Table) -> Result<(), AllocError>
    ensures { OnOk result (table_view table.new ≡ put_options (options_of given.now) (table_view table.old)) }
{
    for option in given {
        put_option(alloc, option, table)?;
    }
    Ok(())
}

/// Appends the seed that an option gives to others, if it is of one.
fn push_seed(alloc: Global, given: &Given<'_>, seeds: &mut Vec<Value>) -> Result<(), AllocError>
    ensures { OnOk result (map view seeds.new.items ≡ map view seeds.old.items ++ seed_given (option_of given.now)) }
{
    if given.key == SEEDS {
        let seed = text_value(alloc, given.text)?;
        seeds.push(seed)?;
    }
    Ok(())
}

/// The seeds that some options give.
fn seeds_given(alloc: Global, given: &[Given<'_>]) -> Result<Vec<Value>, AllocError>
    ensures { IfOk result (λ seeds. map view seeds.items ≡ seeds_given (options_of given.now)) }
{
    let mut seeds = Vec::new(alloc);
    for option in given {
        push_seed(alloc, option, &mut seeds)?;
    }
    Ok(seeds)
}

/// Puts seeds into a table in place of its own, if there are any.
fn put_seeds(alloc: Global, seeds: Vec<Value>, table: &mut Table) -> Result<(), AllocError>
    ensures { OnOk result (table_view table.new ≡ put_seeds (map view seeds.items) (table_view table.old)) }
{
    if seeds.is_empty() {
        drop(seeds);
        return Ok(());
    }
    put_member(alloc, SEEDS, Value::Array(seeds), table)
}

/// Puts what some options give into a table, in place of what it has at their keys.
///
/// The error is that memory was refused; then the table has some of it. Memory is allocated for what is put in, and for
/// none if there are no options.
pub(crate) fn with_options(
    alloc: Global,
    given: &[Given<'_>],
    table: &mut Table,
) -> Result<(), AllocError>
    ensures { OnOk result (table_view table.new ≡ with_options (options_of given.now) (table_view table.old)) }
{
    let seeds = seeds_given(alloc, given)?;
    put_options(alloc, given, table)?;
    put_seeds(alloc, seeds, table)
}
