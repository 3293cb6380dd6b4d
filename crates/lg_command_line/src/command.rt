//! The commands of the program, with their options.
//!
//! Defined in: `specs/Meaning/Apps.antt`.
//! Tested in: `cases/command_line.case`, `cases/timeouts_command.case`, `cases/node_command.case`.
ghost use Rattle.std.specs.Prelude.{◌≡◌, IfOk, false};
ghost use Rattle.std.specs.List.{fold};
ghost use Rattle.clap.specs.Simple.{app_of, new_app, with_subcommand};
ghost use Rattle.clap.specs.declared.builder.command.Command.TheViews.{out-Command as fields_of};
ghost use Rattle.lg_command_line.specs.Meaning.Apps.{lg_app};
ghost use Rattle.lg_command_line.specs.Support.Options.{app_of_row, bare_lg, with_key_rule, with_option, with_rows};

use crate::asked::{DEFAULT_AT, MAX_RUN_MS};
use crate::key_options::{KEY_ROWS, KeyRow, option_of_key};
use crate::options::{OptionRow, Takes, option_of};
use crate::version::VERSION;
use clap::Command;
use lg_rules::MAX_MEMBERS;
use lg_timing::{Key, MAX_MOMENT};
use std::alloc::{AllocError, Global};

/// A command, as the table of the commands has it.
pub(crate) struct CommandRow<'a> {
    pub(crate) name: &'a str,
    pub(crate) about: &'a str,
    pub(crate) options: &'a [OptionRow<'a>],
    /// The keys of a configuration that have options, which stand behind the others.
    pub(crate) keys: &'a [KeyRow<'a>],
}

const CONFIG: OptionRow<'static> = OptionRow {
    id: "config",
    takes: Takes::OptionalText("FILE"),
    help: "The file that has the node's configuration; without it, the options below are all that is given",
};

const AT: OptionRow<'static> = OptionRow {
    id: "at",
    takes: Takes::DefaultText("ADDR:PORT", DEFAULT_AT),
    help: "The address at which the node's status server listens",
};

/// The options of a command that asks a running node. Neither has to be given.
const ASK: &[OptionRow<'static>] = &[
    AT,
    OptionRow {
        id: "json",
        takes: Takes::Nothing,
        help: "Writes each answer as it comes",
    },
];

/// The commands, in the order of the help.
const COMMANDS: [CommandRow<'static>; 14] = [
    CommandRow {
        name: "answer",
        about: "Answers packets, a line of hex each, as a detector does",
        options: &[OptionRow {
            id: "name",
            takes: Takes::RequiredText("NAME"),
            help: "The name of the detector, of 1 to 32 bytes of A-Z a-z 0-9 . _ -",
        }],
        keys: &[],
    },
    CommandRow {
        name: "order",
        about: "Writes whom words choose to be probed, one after another of the names",
        options: &[
            OptionRow {
                id: "names",
                takes: Takes::RequiredText("LIST"),
                help: "The names, 1 to 255 different ones between commas",
            },
            OptionRow {
                id: "words",
                takes: Takes::RequiredText("LIST"),
                help: "The words, numbers from 0 to 4294967295 between commas",
            },
        ],
        keys: &[],
    },
    CommandRow {
        name: "timeouts",
        about: "Writes the timeouts of a suspicion, in milliseconds",
        options: &[
            OptionRow {
                id: "members",
                takes: Takes::RequiredNumber(1, MAX_MEMBERS as u64),
                help: "How many members there are, this member among them",
            },
            OptionRow {
                id: "confirmations",
                takes: Takes::OfKey(Key::Confirmations, "3"),
                help: "After how many confirmations the timeout is the least",
            },
            OptionRow {
                id: "alpha",
                takes: Takes::OfKey(Key::Alpha, "5"),
                help: "The factor of the least timeout",
            },
            OptionRow {
                id: "beta",
                takes: Takes::OfKey(Key::Beta, "6"),
                help: "The greatest timeout over the least",
            },
            OptionRow {
                id: "interval-ms",
                takes: Takes::OfKey(Key::IntervalMs, "1000"),
                help: "The protocol period, in milliseconds",
            },
        ],
        keys: &[],
    },
    CommandRow {
        name: "sim",
        about: "Simulates a cluster of members from a script, and writes what each replies",
        options: &[],
        keys: &[],
    },
    CommandRow {
        name: "node",
        about: "Runs a node, a member of a group, from a file and options",
        options: &[
            CONFIG,
            OptionRow {
                id: "for-ms",
                takes: Takes::Number(1, MAX_RUN_MS),
                help: "For how many milliseconds the node runs, at most a day; without it, the time doesn't end it",
            },
            OptionRow {
                id: "follow",
                takes: Takes::Nothing,
                help: "Writes each change of a member as it happens",
            },
            OptionRow {
                id: "until-input-ends",
                takes: Takes::Nothing,
                help: "Ends the node once its standard input has ended",
            },
        ],
        keys: &KEY_ROWS,
    },
    CommandRow {
        name: "check",
        about: "Writes what a file and options of a node mean, and runs nothing",
        options: &[CONFIG],
        keys: &KEY_ROWS,
    },
    CommandRow {
        name: "init",
        about: "Writes a configuration of a node to begin with",
        options: &[],
        keys: &[],
    },
    CommandRow {
        name: "members",
        about: "Writes whom a running node knows",
        options: ASK,
        keys: &[],
    },
    CommandRow {
        name: "status",
        about: "Writes the health of a running node",
        options: ASK,
        keys: &[],
    },
    CommandRow {
        name: "watch",
        about: "Writes each change of a member that a running node tells, until the node ends",
        options: ASK,
        keys: &[],
    },
    CommandRow {
        name: "leave",
        about: "Tells a running node to leave its group, and waits until it has ended",
        options: &[
            AT,
            OptionRow {
                id: "name",
                takes: Takes::OptionalText("NAME"),
                help: "The node's name; without it, the node is asked for it first",
            },
        ],
        keys: &[],
    },
    CommandRow {
        name: "replay",
        about: "Replays a recording, and writes what happened and whether each reply is the recorded one",
        options: &[
            OptionRow {
                id: "folder",
                takes: Takes::Word("FOLDER"),
                help: "The folder of the recording",
            },
            OptionRow {
                id: "from",
                takes: Takes::Number(0, MAX_MOMENT),
                help: "The first moment that is told, in milliseconds by the node's clock; without it, 0",
            },
            OptionRow {
                id: "to",
                takes: Takes::Number(0, MAX_MOMENT),
                help: "The last moment that is told; without it, the end of the recording",
            },
            OptionRow {
                id: "only",
                takes: Takes::OptionalText("NAME"),
                help: "The member of which is told; without it, all are",
            },
        ],
        keys: &[],
    },
    CommandRow {
        name: "explain",
        about: "Tells from a recording why a member was suspected, or taken as failed or left",
        options: &[
            OptionRow {
                id: "name",
                takes: Takes::Word("NAME"),
                help: "The name of the member",
            },
            OptionRow {
                id: "record",
                takes: Takes::RequiredText("FOLDER"),
                help: "The folder of the recording",
            },
            OptionRow {
                id: "at",
                takes: Takes::Number(0, MAX_MOMENT),
                help: "The moment of which is told, in milliseconds by the node's clock; without it, the last one",
            },
            OptionRow {
                id: "all",
                takes: Takes::Nothing,
                help: "Tells each time that it was suspected, failed or left, in place of the last",
            },
            OptionRow {
                id: "entries",
                takes: Takes::Nothing,
                help: "Writes the number of each entry behind its moment",
            },
            OptionRow {
                id: "json",
                takes: Takes::Nothing,
                help: "Writes JSON in place of lines",
            },
            OptionRow {
                id: "html",
                takes: Takes::OptionalText("FILE"),
                help: "The file into which a page for a browser is written, in place of lines",
            },
        ],
        keys: &[],
    },
    CommandRow {
        name: "version",
        about: "Writes the version of the program, and how it was built",
        options: &[],
        keys: &[],
    },
];

/// A command with the options of these rows, before it has those of keys. The error is refused memory.
fn with_options<'a>(alloc: Global, row: &CommandRow<'a>) -> Result<Command<'a>, AllocError>
    ensures app { IfOk result (λ command.
        app_of command ≡ fold with_option (new_app row.now.name.now) row.now.options.now) }
    ensures local { IfOk result (λ command. (fields_of command).has_globals ≡ false) }
{
    let mut command = Command::new(alloc, row.name).about(row.about);
    for option in row.options {
        command = command.arg(option_of(alloc, option))?;
    }
    Ok(command)
}

/// A command with the options of these keys behind those that it has. The error is refused memory.
fn with_keys<'a>(
    alloc: Global,
    command: Command<'a>,
    keys: &[KeyRow<'a>],
) -> Result<Command<'a>, AllocError>
    requires { (fields_of command).has_globals ≡ false }
    ensures app { IfOk result (λ made. app_of made ≡ fold with_key_rule (app_of command.entry) keys.now) }
    ensures local { IfOk result (λ made. (fields_of made).has_globals ≡ false) }
{
    let mut with_some = command;
    for key in keys {
        with_some = with_some.arg(option_of_key(alloc, key))?;
    }
    Ok(with_some)
}

/// The command of a row, with its options. The error is refused memory.
fn command_of<'a>(alloc: Global, row: &CommandRow<'a>) -> Result<Command<'a>, AllocError>
    ensures app { IfOk result (λ command. app_of command ≡ app_of_row row.now) }
    ensures local { IfOk result (λ command. (fields_of command).has_globals ≡ false) }
{
    let command = with_options(alloc, row)?;
    with_keys(alloc, command, row.keys)
}

/// The program with the command of a row behind those that it has. The error is refused memory.
fn with_command<'a>(
    alloc: Global,
    lg: Command<'a>,
    row: &CommandRow<'a>,
) -> Result<Command<'a>, AllocError>
    ensures { IfOk result (λ command. app_of command ≡ with_subcommand (app_of lg.entry) (app_of_row row.now).top) }
{
    match command_of(alloc, row) {
        Ok(command) => lg.subcommand(command),
        Err(refused) => {
            // So that the checker doesn't take it apart here.
            drop(lg);
            Err(refused)
        }
    }
}

/// The program with the commands of these rows behind those that it has. The error is refused memory.
fn with_commands<'a>(
    alloc: Global,
    lg: Command<'a>,
    rows: &[CommandRow<'a>],
) -> Result<Command<'a>, AllocError>
    ensures { IfOk result (λ command. app_of command ≡ with_rows (app_of lg.entry) rows.now) }
{
    let mut with_some = lg;
    for row in rows {
        with_some = with_command(alloc, with_some, row)?;
    }
    Ok(with_some)
}

/// The program before it has commands, one of which will have to be named.
fn bare_lg<'a>(alloc: Global) -> Command<'a>
    ensures { app_of result ≡ bare_lg }
{
    Command::new(alloc, "lg")
        .about("A SWIM failure detector with Lifeguard's extensions")
        .version(VERSION)
        .subcommand_required(true)
}

/// The program with its commands, one of which has to be named.
pub(crate) fn lg_command<'a>(alloc: Global) -> Result<Command<'a>, AllocError>
    ensures { IfOk result (λ command. app_of command ≡ lg_app) }
{
    with_commands(alloc, bare_lg(alloc), &COMMANDS)
}
