//! The text and the JSON of accounts.

use crate::making::{account, helper, how_it_failed, how_it_left, note, record, unanswered};
use lg_accounts::{Account, NoteStep, put_accounts, put_accounts_json};
use lg_rules::Status;
use lg_testing::{letter, local};
use std::alloc::Global;
use std::test::Fail;

/// How `c` failed, without the numbers of the entries.
const FAILED: &str = "c failed at 7020 ms (2026-11-27 03:12:44), here.\n\
\x20 1020  We pinged it (probe 7, at 127.0.0.1:7103).\n\
\x20 1520  No Ack came within 500 ms. We asked a and d to ping it.\n\
\x20 1905  a sent a Nack: no Ack of it had come.\n\
\x20 2020  The round ended without an Ack. Our health score rose from 0 to 2. We suspected it at incarnation 0. \
We knew 5 live members. After 0 of 3 confirmations the timeout was 20904 ms. \
In the minute before, 0 of our rounds ended, 0 of them with a suspicion, and our clock stood still for 0 ms.\n\
\x20 2940  d told us that d suspects it at incarnation 0. We knew 5 live members. \
After 1 of 3 confirmations the timeout was 12194 ms.\n\
\x20 7020  The time was over, and no refutation had come. We took it as failed.\n";

/// How it left, without the numbers of the entries and with them.
const LEFT: &str = "c left at 9000 ms (2026-11-27 03:12:45), as c told.\n\
\x20 9000  c told us that it left at incarnation 2. We took it as left.\n\
\x20 Some of the past is missing, so scores and timeouts may not be told.\n";

const LEFT_NUMBERED: &str = "c left at 9000 ms (2026-11-27 03:12:45), as c told.\n\
\x20 9000 [4]  c told us that it left at incarnation 2. We took it as left.\n\
\x20 Some of the past is missing, so scores and timeouts may not be told.\n";

/// The same as JSON.
const LEFT_JSON: &str = "{\"member\":\"c\",\"accounts\":[{\"status\":\"left\",\"moment\":9000,\
\"wall\":1795749165980,\"told_by\":\"c\",\"known\":false,\"notes\":[{\"entry\":4,\"moment\":9000,\
\"wall\":1795749165980,\"told_by\":\"c\",\"steps\":[{\"step\":\"told\",\"status\":\"left\",\"incarnation\":2,\
\"address\":\"127.0.0.1:7103\",\"accuser\":null},{\"step\":\"changed\",\"status\":\"left\",\"incarnation\":2,\
\"address\":\"127.0.0.1:7103\",\"accuser\":null}]}]}]}\n";

/// Whether this is the text of accounts behind what a text held before.
fn tells(
    alloc: Global,
    accounts: &[Account],
    shows_entries: bool,
    parts: &[&str],
) -> Result<bool, Fail> {
    let (mut text, mut due) = (Vec::new(alloc), Vec::new(alloc));
    text.extend_from_slice(b"before\n")?;
    due.extend_from_slice(b"before\n")?;
    for part in parts {
        due.extend_from_slice(part.as_bytes())?;
    }
    put_accounts(&letter(b'c'), accounts, shows_entries, &mut text)?;
    Ok(text.as_slice() == due.as_slice())
}

/// Whether this is the JSON of accounts behind what a text held before.
fn tells_json(alloc: Global, accounts: &[Account], json: &str) -> Result<bool, Fail> {
    let mut text = Vec::new(alloc);
    text.extend_from_slice(b"before\n")?;
    put_accounts_json(&letter(b'c'), accounts, &mut text)?;
    let (front, told) = text.split_at(7);
    Ok(front == b"before\n".as_slice() && told == json.as_bytes())
}

#[test]
fn tells_how_it_failed_and_left(rt: HostRuntime) -> Result<(), Fail> {
    let alloc = rt.alloc();
    let accounts = [how_it_failed(alloc)?, how_it_left(alloc)?];
    assert!(rt; tells(alloc, &accounts, false, &[FAILED, LEFT])?);
    assert!(rt; tells(alloc, &accounts[1..], true, &[LEFT_NUMBERED])?);
    assert!(rt; tells_json(alloc, &accounts[1..], LEFT_JSON)?);
    Ok(())
}

#[test]
fn tells_that_there_is_none(rt: HostRuntime) -> Result<(), Fail> {
    let alloc = rt.alloc();
    let line = "c has not been suspected, and has neither failed nor left.\n";
    assert!(rt; tells(alloc, &[], true, &[line])?);
    assert!(rt; tells_json(alloc, &[], "{\"member\":\"c\",\"accounts\":[]}\n")?);
    Ok(())
}

/// What an entry may tell besides, and its sentences and JSON.
fn rows() -> [(NoteStep, &'static str, &'static str); 6] {
    let mixed = [
        helper(Some(b'a'), local(7101)),
        helper(None, local(7102)),
        helper(Some(b'd'), local(7104)),
    ];
    [
        (
            unanswered([]),
            "No Ack came within 500 ms. There was nobody to ask.",
            "{\"step\":\"unanswered\",\"within\":500},{\"step\":\"asked\",\"helpers\":[]}",
        ),
        (
            unanswered(mixed),
            "No Ack came within 500 ms. We asked a, 127.0.0.1:7102 and d to ping it.",
            "{\"step\":\"unanswered\",\"within\":500},{\"step\":\"asked\",\"helpers\":[\
            {\"member\":\"a\",\"address\":\"127.0.0.1:7101\"},{\"member\":null,\"address\":\"127.0.0.1:7102\"},\
            {\"member\":\"d\",\"address\":\"127.0.0.1:7104\"}]}",
        ),
        (
            NoteStep::Acked { by: letter(b'c') },
            "c sent an Ack.",
            "{\"step\":\"ack\",\"by\":\"c\"}",
        ),
        (
            NoteStep::RoundEnded { is_failed: false },
            "The round ended.",
            "{\"step\":\"ended\",\"failed\":false}",
        ),
        (
            NoteStep::Scored {
                before: 2,
                after: 1,
            },
            "Our health score fell from 2 to 1.",
            "{\"step\":\"score\",\"before\":2,\"after\":1}",
        ),
        (
            NoteStep::Told {
                claim: record(Status::Alive, 3),
            },
            "Somebody told us that it is alive at incarnation 3, at 127.0.0.1:7103.",
            "{\"step\":\"told\",\"status\":\"alive\",\"incarnation\":3,\"address\":\"127.0.0.1:7103\",\
            \"accuser\":null}",
        ),
    ]
}

#[test]
fn tells_each_step(rt: HostRuntime) -> Result<(), Fail> {
    let alloc = rt.alloc();
    for (step, sentences, json) in rows() {
        let accounts = [account(alloc, [note(alloc, 1, 20, None, [step])?], true)?];
        assert!(rt;
            tells(alloc, &accounts, false, &["c\n  20  ", sentences, "\n"])?,
            "{sentences}"
        );
        let front =
            "{\"member\":\"c\",\"accounts\":[{\"status\":null,\"moment\":null,\"wall\":null,\
        \"told_by\":null,\"known\":true,\"notes\":[{\"entry\":1,\"moment\":20,\"wall\":1795749157000,\
        \"told_by\":null,\"steps\":[";
        let due = format!(in alloc; "{front}{json}]}}]}}]}}\n")?;
        assert!(rt; tells_json(alloc, &accounts, due.as_str())?, "{json}");
    }
    Ok(())
}
