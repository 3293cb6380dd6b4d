//! Which entries are told: those of some moments, and those about a member.

use crate::making::{ASKED, EVENTS, HEALTH, HEARD, IDLE, OPENED, all, file, joined, replayed};
use lg_replay::{ReplayEnd, Window};
use lg_testing::{at, letter};
use std::alloc::Global;
use std::test::Fail;

/// What is told of the second event.
const PINGED: &str = "at 0 tick\n\
fired round-start\n\
send 1 127.0.0.1:7002 534c0101016100000001016200\n\
next 500\n";

/// Whether these parts are told of a life through a window, between the line of its file and the last one.
fn tells(alloc: Global, window: &Window, parts: &[&str]) -> Result<bool, Fail> {
    let mut files = Vec::new(alloc);
    files.push(file(alloc, 0, EVENTS, None)?)?;
    let (text, end) = replayed(alloc, &files, window)?;
    let mut due = Vec::new(alloc);
    due.extend_from_slice(b"file 0 of a first 0 moment 7 begun 1764525600000\n")?;
    due.extend_from_slice(&joined(alloc, parts)?)?;
    due.extend_from_slice(b"entries 6 checked 6 differing 0 unchecked 0\n")?;
    Ok(text.as_slice() == due.as_slice() && end == ReplayEnd::Done)
}

/// The moments from one to another.
fn moments(from: u64, to: u64) -> Window {
    Window {
        from: at(from),
        to: at(to),
        only: None,
    }
}

#[test]
fn tells_some_moments(rt: HostRuntime) -> Result<(), Fail> {
    let alloc = rt.alloc();
    assert!(rt; tells(alloc, &moments(20, 40), &[HEARD, ASKED, HEALTH])?);
    assert!(rt; tells(alloc, &moments(21, 39), &[ASKED])?);
    assert!(rt; tells(alloc, &moments(0, 0), &[OPENED])?);
    assert!(rt; tells(alloc, &moments(50, 90), &[IDLE])?);
    assert!(rt; tells(alloc, &moments(51, 90), &[])?);
    assert!(rt; tells(alloc, &all(), &[OPENED, HEARD, ASKED, HEALTH, IDLE])?);
    Ok(())
}

#[test]
fn tells_of_one_member(rt: HostRuntime) -> Result<(), Fail> {
    let alloc = rt.alloc();
    let mut window = all();
    window.only = Some(letter(b'b'));
    assert!(rt; tells(alloc, &window, &[PINGED, HEARD, ASKED])?);
    window.only = Some(letter(b'c'));
    assert!(rt; tells(alloc, &window, &[])?);
    let mut later = moments(30, 40);
    later.only = Some(letter(b'b'));
    assert!(rt; tells(alloc, &later, &[ASKED])?);
    Ok(())
}
