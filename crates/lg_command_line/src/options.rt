//! The kinds of options that the commands have.
//!
//! Defined in: `specs/Meaning/Apps.antt`.
//! Tested in: `cases/command_line.case`, `cases/timeouts_command.case`, `cases/node_command.case`.
ghost use Rattle.std.specs.Prelude.{◌≡◌, decimal, false};
ghost use Rattle.clap.specs.Walk.{rule_of};
ghost use Rattle.lg_timing.specs.Meaning.Keys.{row_of};
ghost use Rattle.lg_command_line.specs.Meaning.Apps.{default_rule, default_text_rule, flag_rule, number_rule};
ghost use Rattle.lg_command_line.specs.Meaning.Apps.{required_rule, text_rule, word_rule};
ghost use Rattle.lg_command_line.specs.Support.Options.{named_rule, rule_of_row, valued_rule};

use clap::builder::ValueParser;
use clap::{Arg, ArgAction};
use lg_timing::Key;
use std::alloc::Global;

/// What an option takes.
pub(crate) enum Takes<'a> {
    /// A text, which has this name in the help and has to be given.
    RequiredText(&'a str),
    /// A text without an option's name before it, which has this name in the help and has to be given.
    Word(&'a str),
    /// A text, which has this name in the help and needn't be given.
    OptionalText(&'a str),
    /// A text, which has this name in the help, with its default.
    DefaultText(&'a str, &'a str),
    /// A number from the first to the second, which has to be given.
    RequiredNumber(u64, u64),
    /// A number from the first to the second.
    Number(u64, u64),
    /// A number of the configuration, with the default of its key. A 0 below the key's range is refused, so no option
    /// is of a key whose 0 turns something off. The parser wants the default as a text.
    OfKey(Key, &'a str),
    /// No value.
    Nothing,
}

/// An option, as the table of the commands has it.
pub(crate) struct OptionRow<'a> {
    pub(crate) id: &'a str,
    pub(crate) takes: Takes<'a>,
    pub(crate) help: &'a str,
}

/// The option of a row.
pub(crate) fn option_of<'a>(alloc: Global, row: &OptionRow<'a>) -> Arg<'a>
    ensures rule { rule_of result ≡ rule_of_row row.now }
    ensures local { result.global ≡ false }
{
    let (id, help) = (row.id, row.help);
    match row.takes {
        Takes::RequiredText(text) => text_option(alloc, id, text, help),
        Takes::Word(text) => word_argument(alloc, id, text, help),
        Takes::OptionalText(text) => valued_option(alloc, id, text, help),
        Takes::DefaultText(text, default) => default_text_option(alloc, id, text, default, help),
        Takes::RequiredNumber(least, most) => {
            number_option(alloc, id, least, most, help).required(true)
        }
        Takes::Number(least, most) => number_option(alloc, id, least, most, help),
        Takes::OfKey(key, default) => key_option(alloc, id, key, default, help),
        Takes::Nothing => flag_option(alloc, id, help),
    }
}

// The options below are made of one another, so that the checker takes few of them apart.

/// The option `--ID`, with its help.
fn named_option<'a>(alloc: Global, id: &'a str, help: &'a str) -> Arg<'a>
    ensures rule { rule_of result ≡ named_rule id.entry.now }
    ensures local { result.global ≡ false }
{
    Arg::new(alloc, id).long(id).help(help)
}

/// The option `--ID TEXT`, with its help.
fn valued_option<'a>(alloc: Global, id: &'a str, text: &'a str, help: &'a str) -> Arg<'a>
    ensures rule { rule_of result ≡ valued_rule id.entry.now }
    ensures local { result.global ≡ false }
{
    named_option(alloc, id, help)
        .value_name(text)
        .action(ArgAction::Set)
}

/// The option `--ID TEXT`, which is required, with its help.
fn text_option<'a>(alloc: Global, id: &'a str, text: &'a str, help: &'a str) -> Arg<'a>
    ensures rule { rule_of result ≡ text_rule id.entry.now }
    ensures local { result.global ≡ false }
{
    valued_option(alloc, id, text, help).required(true)
}

/// A word without an option's name before it, which is required, with its help.
fn word_argument<'a>(alloc: Global, id: &'a str, text: &'a str, help: &'a str) -> Arg<'a>
    ensures rule { rule_of result ≡ word_rule id.entry.now }
    ensures local { result.global ≡ false }
{
    Arg::new(alloc, id)
        .help(help)
        .value_name(text)
        .action(ArgAction::Set)
        .required(true)
}

/// The option `--ID TEXT`, which has a default, with its help.
fn default_text_option<'a>(
    alloc: Global,
    id: &'a str,
    text: &'a str,
    default: &'a str,
    help: &'a str,
) -> Arg<'a>
    ensures rule { rule_of result ≡ default_text_rule id.entry.now default.entry.now }
    ensures local { result.global ≡ false }
{
    valued_option(alloc, id, text, help).default_value(default)
}

/// The option `--ID N`, a number that is at least `least` and at most `most`, with its help.
fn number_option<'a>(alloc: Global, id: &'a str, least: u64, most: u64, help: &'a str) -> Arg<'a>
    ensures rule { rule_of result ≡ number_rule id.entry.now least most }
    ensures local { result.global ≡ false }
{
    valued_option(alloc, id, "N", help).value_parser(ValueParser::unsigned(least, most))
}

/// The option `--ID N` of a number of the configuration, with its default and its help. The range is that of the key.
fn key_option<'a>(alloc: Global, id: &'a str, key: Key, default: &'a str, help: &'a str) -> Arg<'a>
    ensures rule { rule_of result
        ≡ default_rule (number_rule id.entry.now (row_of key).least (row_of key).most) default.entry.now }
    ensures local { result.global ≡ false }
{
    let row = key.row();
    number_option(alloc, id, row.least, row.most, help).default_value(default)
}

/// The option `--ID`, which takes no value, with its help.
fn flag_option<'a>(alloc: Global, id: &'a str, help: &'a str) -> Arg<'a>
    ensures rule { rule_of result ≡ flag_rule id.entry.now }
    ensures local { result.global ≡ false }
{
    named_option(alloc, id, help).action(ArgAction::SetTrue)
}
