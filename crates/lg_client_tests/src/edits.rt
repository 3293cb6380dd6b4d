//! Answers of which one field is missing, has another type or another value than a node's: each is told as bad, and
//! nothing is written. But of a member that was forgotten some fields aren't read.

use crate::answers::{FINE, answer, edited};
use crate::bodies::{ALIVE, CHANGE, FAILED, FORGOTTEN, FORGOTTEN_TEXT, HEALTH, SUSPECT};
use crate::damaged::is_bad_body;
use crate::playing::{Asking, Command, played};
use crate::server::Reply;
use std::alloc::Global;
use std::net::{Net, TcpListener, TcpStream};
use std::thread::Threads;
use std::{io, rt};

/// What stands in a body, and what stands there instead.
type Edit = (&'static str, &'static str);

/// Names that are none: none at all, 33 bytes, and foreign characters.
const BAD_NAMES: &[&str] = &[
    "\"\"",
    "\"abcdefghijklmnopqrstuvwxyz_123456\"",
    "\"a b\"",
    "\" a\"",
    "\"a/b\"",
    "\"a:1\"",
    "\"\u{fc}\"",
    "\"a\\n\"",
    "\"a\\u0000\"",
    "7",
    "null",
    "true",
    "[\"a\"]",
    "{\"name\":\"a\"}",
];

/// Bodies with a name, and the name's place.
const NAMED: &[(Command, &str, &str)] = &[
    (Command::Members, SUSPECT, "\"a\""),
    (Command::Members, SUSPECT, "\"c\""),
    (Command::Status, HEALTH, "\"b\""),
    (Command::Watch, CHANGE, "\"a\""),
    (Command::Watch, FORGOTTEN, "\"c\""),
];

/// Edits of a member that is suspected.
const OF_SUSPECTS: &[Edit] = &[
    ("\"members\"", "\"others\""),
    ("\"members\":[", "\"members\":[7,"),
    ("\"members\":[", "\"members\":[null,"),
    ("\"members\":[", "\"members\":[[],"),
    ("\"members\":[", "\"members\":[{},"),
    ("\"members\":[", "\"members\":null,\"others\":["),
    ("\"members\":[", "\"members\":7,\"others\":["),
    ("\"members\":[", "\"members\":{},\"others\":["),
    ("\"members\":[", "\"members\":\"a\",\"others\":["),
    ("\"name\":\"a\",", ""),
    ("\"name\":\"a\"", "\"Name\":\"a\""),
    ("\"status\":\"suspect\",", ""),
    ("\"suspect\"", "\"\""),
    ("\"suspect\"", "\"Suspect\""),
    ("\"suspect\"", "\"suspected\""),
    ("\"suspect\"", "\"dead\""),
    ("\"suspect\"", "7"),
    ("\"suspect\"", "null"),
    ("\"suspect\"", "\"alive\""),
    ("\"suspect\"", "\"failed\""),
    ("\"suspect\"", "\"left\""),
    ("\"suspect\"", "\"forgotten\""),
    ("\"accuser\":\"c\"", "\"accused\":\"c\""),
    (",\"accuser\":\"c\"", ""),
];

/// Edits of a member that is alive.
const OF_LIVE_ONES: &[Edit] = &[
    ("\"alive\"", "\"suspect\""),
    ("\"alive\"", "\"forgotten\""),
    ("null", "\"c\""),
    ("null", "\"\""),
    ("null", "0"),
    ("null", "false"),
    (",\"accuser\":null", ""),
];

/// Edits of a member that has failed.
const OF_FAILED_ONES: &[Edit] = &[
    ("\"failed\"", "\"suspect\""),
    ("\"failed\"", "\"forgotten\""),
    ("null", "\"a\""),
    (",\"accuser\":null", ""),
];

/// Edits of a record, that of a member or that of a change. What stood there is left under a key that nobody knows.
const OF_RECORDS: &[Edit] = &[
    ("\"incarnation\":", "\"incarnations\":"),
    ("\"incarnation\":", "\"incarnation\":1000000001,\"x\":"),
    ("\"incarnation\":", "\"incarnation\":4294967296,\"x\":"),
    (
        "\"incarnation\":",
        "\"incarnation\":18446744073709551616,\"x\":",
    ),
    ("\"incarnation\":", "\"incarnation\":-1,\"x\":"),
    ("\"incarnation\":", "\"incarnation\":0.5,\"x\":"),
    ("\"incarnation\":", "\"incarnation\":\"0\",\"x\":"),
    ("\"incarnation\":", "\"incarnation\":null,\"x\":"),
    ("\"incarnation\":", "\"incarnation\":false,\"x\":"),
    ("\"address\":", "\"addresses\":"),
    ("\"127.0.0.1\"", "7"),
    ("\"127.0.0.1\"", "null"),
    ("\"127.0.0.1\"", "[127,0,0,1]"),
    ("127.0.0.1", ""),
    ("127.0.0.1", "127.0.0"),
    ("127.0.0.1", "127.0.0."),
    ("127.0.0.1", ".0.0.1"),
    ("127.0.0.1", "127..0.1"),
    ("127.0.0.1", "127.0.0.1.1"),
    ("127.0.0.1", "127.0.0.256"),
    ("127.0.0.1", "1270.0.0.1"),
    ("127.0.0.1", "127.0.0.01"),
    ("127.0.0.1", "127.00.0.1"),
    ("127.0.0.1", "0127.0.0.1"),
    ("127.0.0.1", "127.0.0.+1"),
    ("127.0.0.1", "127.0.0.-1"),
    ("127.0.0.1", "127.0.0.0x1"),
    ("127.0.0.1", "127.0.0.1 "),
    ("127.0.0.1", " 127.0.0.1"),
    ("127.0.0.1", "127,0,0,1"),
    ("127.0.0.1", "127.0.0.1:7101"),
    ("127.0.0.1", "localhost"),
    ("127.0.0.1", "[::1]"),
    ("127.0.0.1", ":::1"),
    ("127.0.0.1", "::1%lo"),
    ("\"port\":7101", "\"ports\":7101"),
    ("\"port\":7101", "\"port\":0"),
    ("\"port\":7101", "\"port\":65536"),
    ("\"port\":7101", "\"port\":72637"),
    ("\"port\":7101", "\"port\":-7101"),
    ("\"port\":7101", "\"port\":7101.5"),
    ("\"port\":7101", "\"port\":\"7101\""),
    ("\"port\":7101", "\"port\":null"),
    ("\"port\":7101", "\"port\":[7101]"),
];

/// Edits of a change.
const OF_CHANGES: &[Edit] = &[
    ("{\"version\":41,\"missed\"", "{\"missed\""),
    (
        "{\"version\":41,\"missed\"",
        "{\"version\":\"41\",\"missed\"",
    ),
    ("{\"version\":41,\"missed\"", "{\"version\":null,\"missed\""),
    ("{\"version\":41,\"missed\"", "{\"version\":-1,\"missed\""),
    ("{\"version\":41,\"missed\"", "{\"version\":41.5,\"missed\""),
    ("\"missed\":false,", ""),
    ("\"missed\":false", "\"missed\":0"),
    ("\"missed\":false", "\"missed\":null"),
    ("\"missed\":false", "\"missed\":\"false\""),
    ("\"changes\"", "\"others\""),
    ("\"changes\":[", "\"changes\":null,\"others\":["),
    ("\"changes\":[", "\"changes\":{},\"others\":["),
    ("\"changes\":[", "\"changes\":[7,"),
    ("\"changes\":[", "\"changes\":[{},"),
    ("\"moment_ms\":5120,", ""),
    ("\"moment_ms\":5120", "\"moment_ms\":null"),
    ("\"moment_ms\":5120", "\"moment_ms\":\"5120\""),
    ("\"moment_ms\":5120", "\"moment_ms\":-1"),
    ("\"moment_ms\":5120", "\"moment_ms\":5120.5"),
    ("\"name\":\"a\",", ""),
    ("\"status\":\"alive\",", ""),
    ("\"alive\"", "\"live\""),
    ("\"alive\"", "\"suspect\""),
    ("null", "\"c\""),
    (",\"accuser\":null", ""),
];

/// Edits of a member that was forgotten.
const OF_FORGOTTEN_ONES: &[Edit] = &[
    ("{\"version\":90,\"missed\"", "{\"missed\""),
    ("\"missed\":false,", ""),
    ("\"changes\":[", "\"changes\":[7,"),
    ("\"changes\":[", "\"changes\":[{},"),
    ("\"moment_ms\":90000,", ""),
    ("\"moment_ms\":90000", "\"moment_ms\":null"),
    ("\"moment_ms\":90000", "\"moment_ms\":\"90000\""),
    ("\"moment_ms\":90000", "\"moment_ms\":-1"),
    ("\"moment_ms\":90000", "\"moment_ms\":90000.5"),
    ("\"name\":\"c\",", ""),
    ("\"name\":\"c\"", "\"Name\":\"c\""),
    ("\"status\":\"forgotten\",", ""),
    ("\"status\":", "\"state\":"),
    ("\"forgotten\"", "\"\""),
    ("\"forgotten\"", "\"Forgotten\""),
    ("\"forgotten\"", "\"forgotten \""),
    ("\"forgotten\"", "\"forgot\""),
    ("\"forgotten\"", "\"alive\""),
    ("\"forgotten\"", "\"suspect\""),
    ("\"forgotten\"", "\"failed\""),
    ("\"forgotten\"", "\"left\""),
    ("\"forgotten\"", "7"),
    ("\"forgotten\"", "null"),
    ("\"forgotten\"", "true"),
    ("\"forgotten\"", "[\"forgotten\"]"),
];

/// Edits of what isn't read of a member that was forgotten.
const UNREAD: &[Edit] = &[
    ("{\"version\":90,\"moment_ms\"", "{\"moment_ms\""),
    ("\"incarnation\":null,", ""),
    ("\"address\":null,", ""),
    ("\"port\":null,", ""),
    (",\"accuser\":null", ""),
    (
        "\"version\":90,\"moment_ms\"",
        "\"version\":-1,\"moment_ms\"",
    ),
    ("\"incarnation\":null", "\"incarnation\":7"),
    ("\"incarnation\":null", "\"incarnation\":1000000001"),
    ("\"address\":null", "\"address\":\"127.0.0.1\""),
    ("\"address\":null", "\"address\":\"\""),
    ("\"port\":null", "\"port\":7103"),
    ("\"port\":null", "\"port\":{}"),
    ("\"accuser\":null", "\"accuser\":\"a\""),
    ("\"accuser\":null", "\"accuser\":\"\""),
];

/// The numbers of a health: each key and value, as they stand in it.
const NUMBERS: &[Edit] = &[
    ("\"score\":", "0"),
    ("\"incarnation\":", "0"),
    ("\"live\":", "3"),
    ("\"known\":", "3"),
    ("\"uptime_ms\":", "5120"),
    ("\"stood_still_ms\":", "0"),
];

/// What is no whole number from 0 on.
const NO_NUMBERS: &[&str] = &["\"0\"", "null", "true", "[0]", "{}", "-1", "0.5", "1e400"];

/// Edits of a health.
const OF_HEALTHS: &[Edit] = &[
    ("\"name\":\"b\",", ""),
    ("\"incarnation\":0", "\"incarnation\":1000000001"),
    ("\"incarnation\":0", "\"incarnation\":4294967296"),
    ("\"ousted\":false,", ""),
    ("false", "0"),
    ("false", "null"),
    ("false", "\"false\""),
    ("false", "[false]"),
];

/// Whether the body in which one text stands in the place of another is bad, with and without `json`.
fn is_bad_with<R>(
    rt: &R,
    alloc: Global,
    command: Command,
    body: &str,
    old: &str,
    new: &str,
) -> io::Result<bool>
where
    R: Net<Listener = TcpListener, Stream = TcpStream> + rt::Clock + Threads + Sync,
{
    let Some(body) = edited(alloc, body, old, new)? else {
        return Ok(false);
    };
    let bytes = body.as_bytes();
    let by_lines = is_bad_body(rt, alloc, FINE, bytes, &Asking::by(command, false))?;
    let by_json = is_bad_body(rt, alloc, FINE, bytes, &Asking::by(command, true))?;
    Ok(by_lines && by_json)
}

/// Tables of edits, each of a body.
const TABLES: &[(Command, &str, &[Edit])] = &[
    (Command::Members, SUSPECT, OF_SUSPECTS),
    (Command::Members, SUSPECT, OF_RECORDS),
    (Command::Members, ALIVE, OF_LIVE_ONES),
    (Command::Members, FAILED, OF_FAILED_ONES),
    (Command::Status, HEALTH, OF_HEALTHS),
    (Command::Watch, CHANGE, OF_CHANGES),
    (Command::Watch, CHANGE, OF_RECORDS),
    (Command::Watch, FORGOTTEN, OF_FORGOTTEN_ONES),
];

/// Each edit of each table.
#[test]
fn edits(rt: HostRuntime) {
    for (command, body, table) in TABLES {
        for edit in *table {
            let (old, new) = *edit;
            let met = is_bad_with(&rt, rt.alloc(), *command, body, old, new);
            assert!(rt;
                met.as_ref().is_ok_and(|met| *met),
                "{command:?}, {edit:?}: {met:?}"
            );
        }
    }
}

/// Whether the same is told of a member that was forgotten if one text stands in the place of another.
fn is_unread<R>(rt: &R, alloc: Global, old: &str, new: &str) -> io::Result<bool>
where
    R: Net<Listener = TcpListener, Stream = TcpStream> + rt::Clock + Threads + Sync,
{
    let Some(body) = edited(alloc, FORGOTTEN, old, new)? else {
        return Ok(false);
    };
    let bytes = answer(alloc, FINE, body.as_bytes())?;
    let replies = [Reply::whole(bytes.as_slice())];
    let played = played(rt, alloc, &replies, &Asking::by(Command::Watch, false))?;
    let text = FORGOTTEN_TEXT.as_bytes();
    Ok(played.outcome.is(7, text, "lg: no answer\n"))
}

/// Each edit of what isn't read.
#[test]
fn unread(rt: HostRuntime) {
    for edit in UNREAD {
        let (old, new) = *edit;
        let met = is_unread(&rt, rt.alloc(), old, new);
        assert!(rt; met.as_ref().is_ok_and(|met| *met), "{edit:?}: {met:?}");
    }
}

/// Each text that is no name, in the place of each name.
#[test]
fn bad_names(rt: HostRuntime) {
    for (command, body, name) in NAMED {
        for bad in BAD_NAMES {
            let met = is_bad_with(&rt, rt.alloc(), *command, body, name, bad);
            assert!(rt;
                met.as_ref().is_ok_and(|met| *met),
                "{command:?}, {name}, {bad}: {met:?}"
            );
        }
    }
}

/// Whether a health is bad in which this stands in the place of a number.
fn is_bad_number<R>(rt: &R, alloc: Global, number: &Edit, bad: &str) -> io::Result<bool>
where
    R: Net<Listener = TcpListener, Stream = TcpStream> + rt::Clock + Threads + Sync,
{
    let (key, value) = *number;
    let old = format!(in alloc; "{key}{value}")?;
    let new = format!(in alloc; "{key}{bad}")?;
    is_bad_with(
        rt,
        alloc,
        Command::Status,
        HEALTH,
        old.as_str(),
        new.as_str(),
    )
}

/// Each number of a health, in turn missing and something else.
#[test]
fn bad_numbers(rt: HostRuntime) {
    for number in NUMBERS {
        let (key, _) = *number;
        let met = is_bad_with(&rt, rt.alloc(), Command::Status, HEALTH, key, "\"x\":");
        assert!(rt;
            met.as_ref().is_ok_and(|met| *met),
            "{key} is missing: {met:?}"
        );
        for bad in NO_NUMBERS {
            let met = is_bad_number(&rt, rt.alloc(), number, bad);
            assert!(rt; met.as_ref().is_ok_and(|met| *met), "{key}{bad}: {met:?}");
        }
    }
}
