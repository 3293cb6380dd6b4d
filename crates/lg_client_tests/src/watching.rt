//! What `watch` asks for and writes, answer by answer.

use crate::answers::{FINE, answer};
use crate::bodies::{FORGOTTEN, FORGOTTEN_TEXT};
use crate::playing::{Asking, Command, Seen, played};
use crate::server::Reply;
use std::alloc::Global;
use std::net::{Net, TcpListener, TcpStream};
use std::thread::Threads;
use std::{io, rt};

/// The target that is asked for, the body of the answer, and the text that is written of it.
pub(crate) type Turn = (&'static str, &'static str, &'static str);

/// A node that was asked from its start on, and forgets changes. It is started again and begins anew.
pub(crate) const LIFE: [Turn; 6] = [
    // The table. Nothing was asked for before, so nothing was missed.
    (
        "/v1/changes?after=0&wait_ms=30000",
        "{\"version\":41,\"missed\":true,\"changes\":[{\"version\":30,\"moment_ms\":4000,\"name\":\"b\",\
         \"status\":\"alive\",\"incarnation\":4,\"address\":\"127.0.0.1\",\"port\":7102,\"accuser\":null},\
         {\"version\":41,\"moment_ms\":5120,\"name\":\"a\",\"status\":\"suspect\",\"incarnation\":0,\
         \"address\":\"127.0.0.1\",\"port\":7101,\"accuser\":\"c\"}]}",
        "4000 record b alive 4 127.0.0.1:7102\n5120 record a suspect 0 127.0.0.1:7101 by c\n",
    ),
    // A change.
    (
        "/v1/changes?after=41&wait_ms=30000",
        "{\"version\":43,\"missed\":false,\"changes\":[{\"version\":42,\"moment_ms\":9876543210,\"name\":\"a\",\
         \"status\":\"failed\",\"incarnation\":0,\"address\":\"127.0.0.1\",\"port\":7101,\"accuser\":null}]}",
        "9876543210 record a failed 0 127.0.0.1:7101\n",
    ),
    // None. It is asked for the same again.
    (
        "/v1/changes?after=43&wait_ms=30000",
        "{\"version\":43,\"missed\":false,\"changes\":[]}",
        "",
    ),
    // Changes were missed: the table.
    (
        "/v1/changes?after=43&wait_ms=30000",
        "{\"version\":2000,\"missed\":true,\"changes\":[{\"version\":1999,\"moment_ms\":7,\"name\":\"c\",\
         \"status\":\"alive\",\"incarnation\":1000000000,\"address\":\"10.0.0.3\",\"port\":65535,\"accuser\":null}]}",
        "missed\n7 record c alive 1000000000 10.0.0.3:65535\n",
    ),
    // Its versions begin anew.
    (
        "/v1/changes?after=2000&wait_ms=30000",
        "{\"version\":3,\"missed\":false,\"changes\":[]}",
        "",
    ),
    (
        "/v1/changes?after=0&wait_ms=30000",
        "{\"version\":3,\"missed\":false,\"changes\":[{\"version\":1,\"moment_ms\":0,\"name\":\"b\",\
         \"status\":\"alive\",\"incarnation\":5,\"address\":\"127.0.0.1\",\"port\":7102,\"accuser\":null}]}",
        "0 record b alive 5 127.0.0.1:7102\n",
    ),
];

/// A node that forgets members.
const FORGETTING: [Turn; 5] = [
    // Between records.
    (
        "/v1/changes?after=0&wait_ms=30000",
        "{\"version\":42,\"missed\":false,\"changes\":[{\"version\":40,\"moment_ms\":4000,\"name\":\"c\",\
         \"status\":\"failed\",\"incarnation\":0,\"address\":\"127.0.0.1\",\"port\":7103,\"accuser\":null},\
         {\"version\":41,\"moment_ms\":64000,\"name\":\"c\",\"status\":\"forgotten\",\"incarnation\":null,\
         \"address\":null,\"port\":null,\"accuser\":null},\
         {\"version\":42,\"moment_ms\":64001,\"name\":\"d\",\"status\":\"alive\",\"incarnation\":0,\
         \"address\":\"127.0.0.1\",\"port\":7104,\"accuser\":null}]}",
        "4000 record c failed 0 127.0.0.1:7103\n64000 forgotten c\n64001 record d alive 0 127.0.0.1:7104\n",
    ),
    // Alone.
    (
        "/v1/changes?after=42&wait_ms=30000",
        FORGOTTEN,
        FORGOTTEN_TEXT,
    ),
    // Two, of which one comes back at once. The least and the greatest moment, the longest name.
    (
        "/v1/changes?after=90&wait_ms=30000",
        "{\"version\":91,\"missed\":false,\"changes\":[{\"version\":91,\"moment_ms\":0,\"name\":\"forgotten\",\
         \"status\":\"forgotten\",\"incarnation\":null,\"address\":null,\"port\":null,\"accuser\":null},\
         {\"version\":91,\"moment_ms\":18446744073709551615,\"name\":\"ABCDEFGHIJKLMNOPQRSTUVWXYZ._-019\",\
         \"status\":\"forgotten\",\"incarnation\":null,\"address\":null,\"port\":null,\"accuser\":null},\
         {\"version\":91,\"moment_ms\":0,\"name\":\"forgotten\",\"status\":\"alive\",\"incarnation\":7,\
         \"address\":\"127.0.0.1\",\"port\":7105,\"accuser\":null}]}",
        "0 forgotten forgotten\n18446744073709551615 forgotten ABCDEFGHIJKLMNOPQRSTUVWXYZ._-019\n\
         0 record forgotten alive 7 127.0.0.1:7105\n",
    ),
    // Behind changes that were missed.
    (
        "/v1/changes?after=91&wait_ms=30000",
        "{\"version\":2000,\"missed\":true,\"changes\":[{\"version\":2000,\"moment_ms\":7,\"name\":\"c\",\
         \"status\":\"forgotten\",\"incarnation\":null,\"address\":null,\"port\":null,\"accuser\":null}]}",
        "missed\n7 forgotten c\n",
    ),
    // In another order, with a field that nobody knows, and without those that aren't read.
    (
        "/v1/changes?after=2000&wait_ms=30000",
        "{\"changes\":[{\"status\":\"f\\u006frgotten\",\"since\":[1],\"name\":\"d\",\"moment_ms\":8}],\
         \"missed\":false,\"version\":2001}",
        "8 forgotten d\n",
    ),
];

/// Both.
const LIVES: &[&[Turn]] = &[&LIFE, &FORGETTING];

/// What `watch` wrote of the answers of a node, and what it has to have written.
#[derive(Drop, Debug)]
pub(crate) struct LifeSeen {
    pub(crate) played: Seen,
    /// The whole text.
    pub(crate) text: String,
    /// Whether the server saw requests for the targets, and no others.
    pub(crate) has_asked: bool,
}

/// The text of the turns. With `json` it is the bodies of those with changes, as lines.
fn text_of(alloc: Global, turns: &[Turn], json: bool) -> io::Result<String> {
    let mut text = String::new(alloc);
    for (_, body, lines) in turns {
        if !json {
            text.push_str(lines)?;
        } else if !lines.is_empty() {
            text.push_str(body)?;
            text.push_str("\n")?;
        }
    }
    Ok(text)
}

/// The answers of the turns.
fn answers_of(alloc: Global, turns: &[Turn]) -> io::Result<Vec<Vec<u8>>> {
    let mut answers = Vec::new(alloc);
    for (_, body, _) in turns {
        answers.push(answer(alloc, FINE, body.as_bytes())?)?;
    }
    Ok(answers)
}

/// Lets a command watch a node that answers by these turns and then ends.
pub(crate) fn watched<R>(
    rt: &R,
    alloc: Global,
    turns: &[Turn],
    asking: &Asking,
) -> io::Result<LifeSeen>
where
    R: Net<Listener = TcpListener, Stream = TcpStream> + rt::Clock + Threads + Sync,
{
    let answers = answers_of(alloc, turns)?;
    let mut replies = Vec::new(alloc);
    for bytes in answers.iter() {
        replies.push(Reply::whole(bytes.as_slice()))?;
    }
    let mut targets = Vec::new(alloc);
    for (target, _, _) in turns {
        targets.push(*target)?;
    }
    let played = played(rt, alloc, replies.as_slice(), asking)?;
    let has_asked = played.has_asked(alloc, targets.as_slice())?;
    let text = text_of(alloc, turns, asking.json)?;
    Ok(LifeSeen {
        played,
        text,
        has_asked,
    })
}

/// Each life up to each of its turns, and then its end.
#[test]
fn lives(rt: HostRuntime) {
    for life in LIVES {
        for count in 0..life.len() + 1 {
            for json in [false, true] {
                let asking = Asking::by(Command::Watch, json);
                let watched = watched(&rt, rt.alloc(), &life[..count], &asking);
                let met = watched.as_ref().is_ok_and(|watched| {
                    let text = watched.text.as_bytes();
                    watched.has_asked && watched.played.outcome.is(7, text, "lg: no answer\n")
                });
                assert!(rt; met, "{count} turns, json {json}: {watched:?}");
            }
        }
    }
}

/// Bad answers.
const BAD: &[&str] = &[
    "{\"version\":44,\"missed\":false}",
    "{\"version\":44,\"missed\":false,\"changes\":[{}]}",
    "{\"version\":44,\"missed\":true,\"changes\":[{\"version\":42,\"moment_ms\":1,\"name\":\"a\",\
     \"status\":\"alive\",\"incarnation\":0,\"address\":\"127.0.0.1\",\"port\":7101,\"accuser\":null},7]}",
];

/// What comes of a life of two turns with a bad answer behind it.
fn spoilt<R>(rt: &R, alloc: Global, bad: &str, json: bool) -> io::Result<bool>
where
    R: Net<Listener = TcpListener, Stream = TcpStream> + rt::Clock + Threads + Sync,
{
    let answers = answers_of(alloc, &LIFE[..2])?;
    let last = answer(alloc, FINE, bad.as_bytes())?;
    let mut replies = Vec::new(alloc);
    for bytes in answers.iter() {
        replies.push(Reply::whole(bytes.as_slice()))?;
    }
    replies.push(Reply::whole(last.as_slice()))?;
    let asking = Asking::by(Command::Watch, json);
    let played = played(rt, alloc, replies.as_slice(), &asking)?;
    let text = text_of(alloc, &LIFE[..2], json)?;
    Ok(played.outcome.is(8, text.as_bytes(), "lg: bad answer\n"))
}

/// A bad answer ends it. Nothing of that answer is written.
#[test]
fn spoilt_lives(rt: HostRuntime) {
    for bad in BAD {
        for json in [false, true] {
            let met = spoilt(&rt, rt.alloc(), bad, json);
            assert!(rt;
                met.as_ref().is_ok_and(|met| *met),
                "{bad}, json {json}: {met:?}"
            );
        }
    }
}
