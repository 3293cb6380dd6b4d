//! The options of the keys of a configuration: one for each key that a file may have.
//!
//! Defined in: `specs/Meaning/KeyOptions.antt`.
//! Tested in: `cases/options.case`.
ghost use Rattle.std.specs.Prelude.{◌≡◌, false};
ghost use Rattle.clap.specs.Walk.{rule_of};
ghost use Rattle.lg_command_line.specs.Meaning.KeyOptions.{key_action};
ghost use Rattle.lg_command_line.specs.Support.Options.{named_key_rule, rule_of_key};

use clap::{Arg, ArgAction};
use std::alloc::Global;

/// The option of a key, as the table has it.
pub(crate) struct KeyRow<'a> {
    /// The key.
    pub(crate) key: &'a str,
    /// The option's name.
    pub(crate) name: &'a str,
    /// What the help calls its text.
    pub(crate) text: &'a str,
    pub(crate) help: &'a str,
}

/// The options of all keys that a file may have, in the order in which `docs/FORMATS.md` has them. A contract compares
/// them with the table of the keys.
pub(crate) const KEY_ROWS: [KeyRow<'static>; 30] = [
    KeyRow {
        key: "name",
        name: "name",
        text: "NAME",
        help: "The member's name, of 1 to 32 bytes of A-Z a-z 0-9 . _ -; it has to be given here or in the file",
    },
    KeyRow {
        key: "address",
        name: "address",
        text: "A.B.C.D",
        help: "The address that the others are told, of IPv4 or IPv6, or auto, by which it is found at the start",
    },
    KeyRow {
        key: "port",
        name: "port",
        text: "N",
        help: "The port that the others are told, 1 to 65535",
    },
    KeyRow {
        key: "dice",
        name: "dice",
        text: "N",
        help: "The number that the random choices start from",
    },
    KeyRow {
        key: "pull_ms",
        name: "pull-ms",
        text: "N",
        help: "How often the node asks a member for its table, in milliseconds; 0 turns that off",
    },
    KeyRow {
        key: "stall_ms",
        name: "stall-ms",
        text: "N",
        help: "The most by which the node's clock passes a loop's last turn, in milliseconds",
    },
    KeyRow {
        key: "resolve_ms",
        name: "resolve-ms",
        text: "N",
        help: "How often the hosts among the seeds are resolved, in milliseconds",
    },
    KeyRow {
        key: "record_mb",
        name: "record-mb",
        text: "N",
        help: "The most that a recording takes, in units of 1000000 bytes",
    },
    KeyRow {
        key: "record",
        name: "record",
        text: "FOLDER",
        help: "The folder in which the node records what happens to it",
    },
    KeyRow {
        key: "status",
        name: "status",
        text: "ADDR:PORT",
        help: "The address at which the status server listens",
    },
    KeyRow {
        key: "status_open",
        name: "status-open",
        text: "true|false",
        help: "Whether the status server may listen at an address that isn't loopback",
    },
    KeyRow {
        key: "leave",
        name: "leave",
        text: "on|off",
        help: "Whether a request may end the node",
    },
    KeyRow {
        key: "bind",
        name: "bind",
        text: "A.B.C.D",
        help: "The address at which the socket is bound, if not at that of the member; a port may follow it",
    },
    KeyRow {
        key: "key_file",
        name: "key-file",
        text: "FILE",
        help: "The file that has the keys of the group",
    },
    KeyRow {
        key: "group",
        name: "group",
        text: "NAME",
        help: "The group that the member belongs to; it needs --wire 3",
    },
    KeyRow {
        key: "seeds",
        name: "seed",
        text: "A.B.C.D",
        help: "An address or a host to join, with NAME@ before it and :PORT behind it if wanted; once for each seed",
    },
    KeyRow {
        key: "interval_ms",
        name: "interval-ms",
        text: "N",
        help: "The protocol period, in milliseconds",
    },
    KeyRow {
        key: "timeout_ms",
        name: "timeout-ms",
        text: "N",
        help: "How long an Ack is waited for before others are asked, in milliseconds",
    },
    KeyRow {
        key: "indirect",
        name: "indirect",
        text: "N",
        help: "How many members are asked to probe in this one's place",
    },
    KeyRow {
        key: "max_score",
        name: "max-score",
        text: "N",
        help: "The greatest health score",
    },
    KeyRow {
        key: "alpha",
        name: "alpha",
        text: "N",
        help: "The factor of the least suspicion timeout",
    },
    KeyRow {
        key: "beta",
        name: "beta",
        text: "N",
        help: "The greatest suspicion timeout over the least",
    },
    KeyRow {
        key: "confirmations",
        name: "confirmations",
        text: "N",
        help: "After how many confirmations a suspicion timeout is the least",
    },
    KeyRow {
        key: "lambda",
        name: "lambda",
        text: "N",
        help: "The factor of how often a claim is gossiped",
    },
    KeyRow {
        key: "nack_thousandths",
        name: "nack-thousandths",
        text: "N",
        help: "When a Nack is sent, in thousandths of the timeout",
    },
    KeyRow {
        key: "history_limit",
        name: "history-limit",
        text: "N",
        help: "How many changes the history holds",
    },
    KeyRow {
        key: "wire",
        name: "wire",
        text: "N",
        help: "The version of the packets that are sent, 1 to 3",
    },
    KeyRow {
        key: "forget_ms",
        name: "forget-ms",
        text: "N",
        help: "After how long a dead member is forgotten, in milliseconds; 0 turns that off",
    },
    KeyRow {
        key: "gossip_ms",
        name: "gossip-ms",
        text: "N",
        help: "How often news is gossiped in version 3, in milliseconds; 0 turns that off",
    },
    KeyRow {
        key: "gossip_to",
        name: "gossip-to",
        text: "N",
        help: "To how many members news is gossiped at a time",
    },
];

/// What giving a key's option means. Only that of a seed may be given several times.
fn key_action(key: &str) -> ArgAction
    ensures { result ≡ key_action key.now }
{
    if key == "seeds" {
        ArgAction::Append
    } else {
        ArgAction::Set
    }
}

/// The option `--NAME` of a key, with its help.
fn named_key<'a>(alloc: Global, row: &KeyRow<'a>) -> Arg<'a>
    ensures rule { rule_of result ≡ named_key_rule row.now }
    ensures local { result.global ≡ false }
{
    Arg::new(alloc, row.key).long(row.name).help(row.help)
}

/// The option of a key's row.
pub(crate) fn option_of_key<'a>(alloc: Global, row: &KeyRow<'a>) -> Arg<'a>
    ensures rule { rule_of result ≡ rule_of_key row.now }
    ensures local { result.global ≡ false }
{
    named_key(alloc, row)
        .value_name(row.text)
        .action(key_action(row.key))
}
