//! What the words of a command line ask for.
//!
//! Defined in: `specs/Meaning/Commands.antt`, `lg_commands/specs/Meaning/Timeouts.antt`.
//! Tested in: `cases/command_line.case`, `cases/timeouts_command.case`, `cases/node_command.case`.
ghost use Rattle.std.specs.Prelude.{◌≡◌, ◌≤◌, ◌++◌, IfOk, IfSome, OnOk, Some, map, true};
ghost use Rattle.std.specs.List.{flat_map};
ghost use Rattle.std.specs.Option.{option_map};
ghost use Rattle.clap.specs.Kinds.{FailsBy};
ghost use Rattle.clap.specs.Matches.{found_of};
ghost use Rattle.clap.specs.Simple.{app_of, subcommand_rows_of};
ghost use Rattle.clap.specs.Walk.{first_of, rows_of};
ghost use Rattle.lg_commands.specs.Meaning.Timeouts.{are_good};
ghost use Rattle.lg_config.specs.Meaning.Options.{options_of};
ghost use Rattle.lg_command_line.specs.Meaning.Apps.{lg_app};
ghost use Rattle.lg_command_line.specs.Meaning.KeyOptions.{given_for, source_in};
ghost use Rattle.lg_command_line.specs.Meaning.Commands.{ask_of_rows, asked, check, has_good_numbers};
ghost use Rattle.lg_command_line.specs.Meaning.Commands.{explain_of_rows, line_faults};
ghost use Rattle.lg_command_line.specs.Meaning.Commands.{flag_in, moment_in, node_of_rows, replay_of_rows};
ghost use Rattle.lg_command_line.specs.Meaning.Commands.{number_given, number_in, numbers_in};
ghost use Rattle.lg_command_line.specs.Meaning.Commands.{request_faults, request_of_rows, text_in};
ghost use Rattle.lg_command_line.specs.Meaning.Commands.{IfNode, IfTimeouts};
ghost use Rattle.lg_command_line.specs.Support.Requests.{request_of};

use crate::asked::{Asked, ExplainWords, MAX_RUN_MS, Question};
use crate::command::lg_command;
use clap::error::ErrorKind;
use clap::{ArgMatches, Command, Error};
use lg_commands::Numbers;
use lg_config::{Given, KNOWN_KEYS};
use lg_timing::{MAX_MOMENT, Moment};
use std::alloc::{AllocError, Global};
use std::convert::AsStr;

/// What the words of a command line ask for. The first word is the program's name.
///
/// The numbers of `timeouts` are good, and a node that is given an end runs for 1 to [`MAX_RUN_MS`] milliseconds. The
/// error is clap's: memory was refused, or the words ask for help or the version, or they aren't a command of the
/// program. Its text is for the user.
pub(crate) fn read_words<'a, S: AsStr>(alloc: Global, words: &'a [S]) -> Result<Asked<'a>, Error>
    ensures asked { IfOk result (λ found. request_of found ≡ asked (map S.text words.entry.now)) }
    ensures good { IfOk result (λ found. IfTimeouts (request_of found) (λ numbers. are_good numbers ≡ true)) }
    ensures ending { IfOk result (λ found. IfNode (request_of found) (λ _ for_ms _ _.
        IfSome for_ms (λ ms. (1 ≤ ms) × (ms ≤ MAX_RUN_MS)))) }
    ensures refused { FailsBy (line_faults (map S.text words.entry.now)) result }
{
    let mut lg = lg_command(alloc)?;
    let asked = read_with(alloc, &mut lg, words);
    // So that the checker doesn't take it apart here.
    drop(lg);
    asked
}

/// The same of a program that is this one.
fn read_with<'a, S: AsStr>(
    alloc: Global,
    lg: &mut Command<'a>,
    words: &'a [S],
) -> Result<Asked<'a>, Error>
    requires { app_of lg.old ≡ lg_app }
    ensures asked { IfOk result (λ found. request_of found ≡ asked (map S.text words.entry.now)) }
    ensures good { IfOk result (λ found. has_good_numbers (request_of found) ≡ true) }
    ensures refused { FailsBy (line_faults (map S.text words.entry.now)) result }
{
    match lg.try_get_matches_from_mut(words) {
        Ok(matches) => {
            let asked = asked_in(alloc, &matches);
            drop(matches);
            match asked {
                Ok(asked) => checked(asked, lg),
                Err(refused) => Err(Error::from(refused)),
            }
        }
        Err(error) => Err(error),
    }
}

/// What a command line asks for, if its numbers are good.
///
/// The options take no number out of its range, so a bad number should never come this far. The check is here for the
/// proof.
fn checked<'a>(asked: Asked<'a>, lg: &mut Command) -> Result<Asked<'a>, Error>
    ensures same { IfOk result (λ found. request_of found ≡ request_of asked.entry) }
    ensures good { IfOk result (λ found. has_good_numbers (request_of found) ≡ true) }
    ensures refused { FailsBy (request_faults (request_of asked.entry)) result }
{
    if asked.has_good_numbers() {
        return Ok(asked);
    }
    Err(lg.error(ErrorKind::ValueValidation, "a number is out of its range")?)
}

/// What the matches of a command line ask for. The error is refused memory.
fn asked_in<'a>(alloc: Global, matches: &ArgMatches<'a>) -> Result<Asked<'a>, AllocError>
    ensures { IfOk result (λ asked. request_of asked ≡ request_of_rows (subcommand_rows_of matches.now)) }
{
    match matches.subcommand() {
        Some((name, found)) => asked_of(alloc, name, found),
        None => Ok(Asked::Answer { name: "" }),
    }
}

/// What the command of this name asks for, with the options that were found. The error is refused memory.
fn asked_of<'a>(alloc: Global, name: &str, found: &ArgMatches<'a>) -> Result<Asked<'a>, AllocError>
    ensures { IfOk result (λ asked.
        request_of asked ≡ request_of_rows (Some (name.now, rows_of (found_of found.now)))) }
{
    match name {
        "sim" => Ok(Asked::Sim),
        "node" => node_in(alloc, found),
        "check" => check_in(alloc, found),
        "timeouts" => Ok(Asked::Timeouts {
            numbers: numbers_in(found),
        }),
        "order" => Ok(Asked::Order {
            names: text_in(found, "names"),
            words: text_in(found, "words"),
        }),
        "members" => Ok(ask_in(Question::Members, found)),
        "status" => Ok(ask_in(Question::Status, found)),
        "watch" => Ok(ask_in(Question::Watch, found)),
        "init" => Ok(Asked::Init),
        "leave" => Ok(Asked::Leave {
            at: text_in(found, "at"),
            name: text_in(found, "name"),
        }),
        "replay" => Ok(replay_in(found)),
        "explain" => Ok(explain_in(found)),
        "version" => Ok(Asked::Version),
        _ => Ok(Asked::Answer {
            name: text_in(found, "name"),
        }),
    }
}

/// The command `node`, with its options. The error is refused memory.
fn node_in<'a>(alloc: Global, found: &ArgMatches<'a>) -> Result<Asked<'a>, AllocError>
    ensures { IfOk result (λ asked. request_of asked ≡ node_of_rows (rows_of (found_of found.now))) }
{
    match given_in(alloc, found, &KNOWN_KEYS) {
        Ok(given) => Ok(Asked::Node {
            file: text_given(found, "config"),
            given,
            for_ms: number_given(found, "for-ms"),
            follow: flag_in(found, "follow"),
            until_input_ends: flag_in(found, "until-input-ends"),
        }),
        Err(refused) => Err(refused),
    }
}

/// The command `check`, with its options. The error is refused memory.
fn check_in<'a>(alloc: Global, found: &ArgMatches<'a>) -> Result<Asked<'a>, AllocError>
    ensures { IfOk result (λ asked. request_of asked ≡ check (source_in (rows_of (found_of found.now)))) }
{
    match given_in(alloc, found, &KNOWN_KEYS) {
        Ok(given) => Ok(Asked::Check {
            file: text_given(found, "config"),
            given,
        }),
        Err(refused) => Err(refused),
    }
}

/// The texts that are given for some keys. The error is refused memory.
fn given_in<'a>(
    alloc: Global,
    found: &ArgMatches<'a>,
    keys: &[&'static str],
) -> Result<Vec<Given<'a>>, AllocError>
    ensures { IfOk result (λ given. options_of given.items
        ≡ flat_map (given_for (rows_of (found_of found.now))) (map (λ key. key.now) keys.now)) }
{
    let mut given = Vec::new(alloc);
    for key in keys {
        put_given(found, *key, &mut given)?;
    }
    Ok(given)
}

/// Appends the texts that are given for a key. The error is refused memory.
fn put_given<'a>(
    found: &ArgMatches<'a>,
    key: &'static str,
    given: &mut Vec<Given<'a>>,
) -> Result<(), AllocError>
    ensures { OnOk result (options_of given.new.items
        ≡ options_of given.old.items ++ given_for (rows_of (found_of found.now)) key.now) }
{
    match found.get_strs(key) {
        Some(texts) => put_texts(texts, key, given),
        None => Ok(()),
    }
}

/// Appends these texts of a key. The error is refused memory.
fn put_texts<'a>(
    texts: &[&'a str],
    key: &'static str,
    given: &mut Vec<Given<'a>>,
) -> Result<(), AllocError>
    ensures { OnOk result (options_of given.new.items
        ≡ options_of given.old.items ++ map (λ text. (key.now, text.now)) texts.now) }
{
    for text in texts {
        given.push(Given { key, text: *text })?;
    }
    Ok(())
}

/// A question to a running node, with the options of its command.
fn ask_in<'a>(question: Question, found: &ArgMatches<'a>) -> Asked<'a>
    ensures { request_of result ≡ ask_of_rows question (rows_of (found_of found.now)) }
{
    Asked::Ask {
        question,
        at: text_in(found, "at"),
        json: flag_in(found, "json"),
    }
}

/// The command `replay`, with its options.
fn replay_in<'a>(found: &ArgMatches<'a>) -> Asked<'a>
    ensures { request_of result ≡ replay_of_rows (rows_of (found_of found.now)) }
{
    Asked::Replay {
        folder: text_in(found, "folder"),
        from: moment_in(found, "from", Moment::default()),
        to: moment_in(found, "to", greatest_moment()),
        only: text_given(found, "only"),
    }
}

/// The command `explain`, with its options.
fn explain_in<'a>(found: &ArgMatches<'a>) -> Asked<'a>
    ensures { request_of result ≡ explain_of_rows (rows_of (found_of found.now)) }
{
    let words = ExplainWords {
        name: text_in(found, "name"),
        folder: text_in(found, "record"),
        at: moment_in(found, "at", greatest_moment()),
        all: flag_in(found, "all"),
        entries: flag_in(found, "entries"),
        json: flag_in(found, "json"),
        html: text_given(found, "html"),
    };
    Asked::Explain { words }
}

/// The moment behind which there is none.
fn greatest_moment() -> Moment
    ensures { result ≡ MAX_MOMENT }
{
    Moment::new(MAX_MOMENT).unwrap()
}

/// The numbers of the options of `timeouts`.
fn numbers_in(found: &ArgMatches) -> Numbers
    ensures { result ≡ numbers_in (rows_of (found_of found.now)) }
{
    Numbers {
        members: number_in(found, "members"),
        confirmations: number_in(found, "confirmations"),
        alpha: number_in(found, "alpha"),
        beta: number_in(found, "beta"),
        interval_ms: number_in(found, "interval-ms"),
    }
}

/// The number of an option, if it was given.
fn number_given(found: &ArgMatches, id: &str) -> Option<u64>
    ensures { result ≡ number_given (rows_of (found_of found.now)) id.now }
{
    match found.get_str(id) {
        Some(_) => Some(number_in(found, id)),
        None => None,
    }
}

/// The moment of an option, or this one if it has none. The parser takes no number above the greatest moment.
fn moment_in(found: &ArgMatches, id: &str, usual: Moment) -> Moment
    ensures { result ≡ moment_in (rows_of (found_of found.now)) id.now usual }
{
    match number_given(found, id) {
        Some(number) => Moment::new(number).unwrap_or(usual),
        None => usual,
    }
}

/// The number of an option, or 0 if it has none.
fn number_in(found: &ArgMatches, id: &str) -> u64
    ensures { result ≡ number_in (rows_of (found_of found.now)) id.now }
{
    found.get_one(id).unwrap_or(0)
}

/// Whether an option that takes no value was given.
fn flag_in(found: &ArgMatches, id: &str) -> bool
    ensures { result ≡ flag_in (rows_of (found_of found.now)) id.now }
{
    found.get_one(id).unwrap_or(false)
}

/// The text of an option, if it was given.
fn text_given<'a>(found: &ArgMatches<'a>, id: &str) -> Option<&'a str>
    ensures { option_map (λ text. text.now) result ≡ first_of id.now (rows_of (found_of found.now)) }
{
    found.get_str(id)
}

/// The text of an option, or an empty text if it has none.
fn text_in<'a>(found: &ArgMatches<'a>, id: &str) -> &'a str
    ensures { result.now ≡ text_in (rows_of (found_of found.now)) id.now }
{
    found.get_str(id).unwrap_or("")
}
